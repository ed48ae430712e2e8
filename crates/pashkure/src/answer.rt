//! The number of each answer, as `include/pashkure.h` has it.
ghost use Rattle.std.specs.Prelude.{◌≡◌};
ghost use Rattle.pashkure.specs.Answer.{refusal_number, begin_number, lock_number, try_number, done_number, status_number};

use mm_manager::{Key, Lock, Refusal, Status, TryLock};

pub const OK: u32 = 0;

pub const HELD: u32 = 1;

pub const WAITS: u32 = 2;

pub const DEADLOCK: u32 = 3;

pub const BUSY: u32 = 4;

/// Nobody owns the name, nobody has the slot or the number.
pub const FREE: u32 = 7;

/// The handle has no manager.
pub const NOT_OPEN: u32 = 32;

/// The handle has a manager already.
pub const IN_USE: u32 = 33;

/// The library does not serve the header that the program was compiled with.
pub const BAD_VERSION: u32 = 34;

pub const BAD_TRANSACTIONS: u32 = 35;

pub const BAD_NAMES: u32 = 36;

pub const BAD_NAME_BYTES: u32 = 37;

pub const NO_MEMORY: u32 = 39;

pub const BAD_BUCKETS: u32 = 40;

pub fn of_refusal(refusal: Refusal) -> u32
    ensures { result ≡ refusal_number refusal }
{
    match refusal {
        Refusal::NoTransaction => 16,
        Refusal::Waiting => 18,
        Refusal::NotWaiting => 19,
        Refusal::NameEmpty => 20,
        Refusal::NameTooLong => 21,
        Refusal::NotOwner => 22,
        Refusal::TransactionsFull => 23,
        Refusal::NamesFull => 24,
        Refusal::LabelsFull => 25,
        Refusal::CountsFull => 26,
        Refusal::TooManyNames => 28,
    }
}

pub fn of_begin(answer: Result<Key, Refusal>) -> u32
    ensures { result ≡ begin_number answer }
{
    match answer {
        Ok(_) => OK,
        Err(refusal) => of_refusal(refusal),
    }
}

pub fn of_lock(answer: Result<Lock, Refusal>) -> u32
    ensures { result ≡ lock_number answer }
{
    match answer {
        Ok(Lock::Granted) => OK,
        Ok(Lock::Held) => HELD,
        Ok(Lock::Waits { .. }) => WAITS,
        Ok(Lock::Deadlock { .. }) => DEADLOCK,
        Err(refusal) => of_refusal(refusal),
    }
}

pub fn of_try(answer: Result<TryLock, Refusal>) -> u32
    ensures { result ≡ try_number answer }
{
    match answer {
        Ok(TryLock::Granted) => OK,
        Ok(TryLock::Held) => HELD,
        Ok(TryLock::Busy { .. }) => BUSY,
        Err(refusal) => of_refusal(refusal),
    }
}

pub fn of_done(answer: Result<(), Refusal>) -> u32
    ensures { result ≡ done_number answer }
{
    match answer {
        Ok(()) => OK,
        Err(refusal) => of_refusal(refusal),
    }
}

pub fn of_status(status: Status) -> u32
    ensures { result ≡ status_number status }
{
    match status {
        Status::Active => OK,
        Status::Waiting { .. } => WAITS,
    }
}
