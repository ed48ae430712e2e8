//! The number of each answer of a desk and of a worker, as `include/pashkure_desk.h` has it.
ghost use Rattle.std.specs.Prelude.{◌≡◌};
ghost use Rattle.pashkure.specs.DeskAnswer.{adopted_number, asked_number, ended_number, given_number, left_number, take_number, tried_number, unlocked_number, worker_error_number};

use crate::answer::{BUSY, DEADLOCK, FREE, HELD, NO_MEMORY, OK, WAITS, of_refusal};
use mm_desk::{Adopted, Asked, Tried, Unlocked};
use mm_manager::Refusal;
use mm_thin::{GiveUp, Take, WorkerError};

/// Another thread changed a word meanwhile, and nothing is asked for.
pub const AGAIN: u32 = 12;

/// The bucket of the name is fat: the desk can say more.
const FAT: u32 = 13;

/// Each record of the worker has taken a name.
const FULL: u32 = 14;

/// The name has no bytes, or too many for a word.
const NOT_THIN: u32 = 15;

/// A bucket is still lent to the worker.
const NOT_LET_GO: u32 = 27;

pub fn of_take(answer: Take) -> u32
    ensures { result ≡ take_number answer }
{
    match answer {
        Take::Taken => OK,
        Take::Held => HELD,
        Take::Busy => BUSY,
        Take::Fat => FAT,
        Take::Full => FULL,
        Take::NotThin => NOT_THIN,
    }
}

pub fn of_given(answer: GiveUp) -> u32
    ensures { result ≡ given_number answer }
{
    match answer {
        GiveUp::Done => OK,
        GiveUp::Changed => AGAIN,
        GiveUp::NotTaken => FREE,
    }
}

/// Of a worker that was to give all back.
pub fn of_left(is_left: bool) -> u32
    ensures { result ≡ left_number is_left }
{
    if is_left { AGAIN } else { OK }
}

pub fn of_asked(answer: Result<Asked, Refusal>) -> u32
    ensures { result ≡ asked_number answer }
{
    match answer {
        Ok(Asked::Granted) => OK,
        Ok(Asked::Held) => HELD,
        Ok(Asked::Waits { .. }) => WAITS,
        Ok(Asked::Deadlock { .. }) => DEADLOCK,
        Ok(Asked::Again) => AGAIN,
        Err(refusal) => of_refusal(refusal),
    }
}

pub fn of_tried(answer: Result<Tried, Refusal>) -> u32
    ensures { result ≡ tried_number answer }
{
    match answer {
        Ok(Tried::Granted) => OK,
        Ok(Tried::Held) => HELD,
        Ok(Tried::Busy { .. }) => BUSY,
        Ok(Tried::Again) => AGAIN,
        Err(refusal) => of_refusal(refusal),
    }
}

pub fn of_ended(answer: Result<Unlocked, Refusal>) -> u32
    ensures { result ≡ ended_number answer }
{
    match answer {
        Ok(Unlocked::Done) => OK,
        Ok(Unlocked::NotLetGo) => NOT_LET_GO,
        Err(refusal) => of_refusal(refusal),
    }
}

pub fn of_unlocked(answer: Option<Result<Unlocked, Refusal>>) -> u32
    ensures { result ≡ unlocked_number answer }
{
    match answer {
        Some(ended) => of_ended(ended),
        None => FREE,
    }
}

pub fn of_adopted(answer: Adopted) -> u32
    ensures { result ≡ adopted_number answer }
{
    match answer {
        Adopted::Fat => OK,
        Adopted::Changed => AGAIN,
        Adopted::Refused(refusal) => of_refusal(refusal),
    }
}

pub fn of_worker_error(error: WorkerError) -> u32
    ensures { result ≡ worker_error_number error }
{
    match error {
        WorkerError::Full => of_refusal(Refusal::TransactionsFull),
        WorkerError::Memory => NO_MEMORY,
    }
}
