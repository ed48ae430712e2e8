//! Calls of a shared table by one thread, again and again. They are compiled in place, since the calls are what is timed.

use crate::seat::Calls;
use mm_shared::{Key, Refusal, Released};

/// How many wait if a resource is handed over.
const WAITERS: u32 = 16;

/// One transaction that waits for nobody.
#[inline(always)]
fn grant<C: Calls>(seat: &mut C) -> Result<(), Refusal> {
    let key = seat.begin()?;
    seat.acquire(key, 0)?;
    seat.release(key, 0)?;
    seat.finish(key)
}

/// Begins two transactions.
#[inline(always)]
fn begin_two<C: Calls>(seat: &mut C) -> Result<(Key, Key), Refusal> {
    let first = seat.begin()?;
    let second = seat.begin()?;
    Ok((first, second))
}

/// Acquires a resource for each of two transactions.
#[inline(always)]
fn acquire_two<C: Calls>(
    seat: &mut C,
    keys: (Key, Key),
    resources: (u32, u32),
) -> Result<(), Refusal> {
    seat.acquire(keys.0, resources.0)?;
    seat.acquire(keys.1, resources.1)?;
    Ok(())
}

/// Finishes two transactions, the second one first.
#[inline(always)]
fn finish_two<C: Calls>(seat: &mut C, keys: (Key, Key)) -> Result<(), Refusal> {
    seat.finish(keys.1)?;
    seat.finish(keys.0)
}

/// Aborts the second of two transactions, and finishes the first.
#[inline(always)]
fn end_two<C: Calls>(seat: &mut C, keys: (Key, Key)) -> Result<(), Refusal> {
    seat.abort(keys.1)?;
    seat.finish(keys.0)
}

/// Two transactions, one of which waits for the other.
#[inline(always)]
pub fn block<C: Calls>(seat: &mut C) -> Result<(), Refusal> {
    let keys = begin_two(seat)?;
    acquire_two(seat, keys, (0, 0))?;
    seat.release(keys.0, 0)?;
    finish_two(seat, keys)
}

/// Two transactions that wait for each other.
#[inline(always)]
fn cross<C: Calls>(seat: &mut C) -> Result<(Key, Key), Refusal> {
    let keys = begin_two(seat)?;
    acquire_two(seat, keys, (0, 1))?;
    acquire_two(seat, keys, (1, 0))?;
    Ok(keys)
}

/// Two transactions that wait for each other. The second one is aborted.
#[inline(always)]
fn deadlock<C: Calls>(seat: &mut C) -> Result<(), Refusal> {
    let keys = cross(seat)?;
    seat.transmit(keys.0)?;
    seat.detect(keys.1)?;
    end_two(seat, keys)
}

/// Two transactions that wait for each other, and a settle that finds them. The second one is aborted.
#[inline(always)]
fn settle<C: Calls>(seat: &mut C) -> Result<(), Refusal> {
    let keys = cross(seat)?;
    seat.settle()?;
    end_two(seat, keys)
}

/// Hands the resource over, and waits for it again. Returns who has it then.
#[inline(always)]
fn hand_over<C: Calls>(seat: &mut C, owner: Key) -> Result<Key, Refusal> {
    let released = seat.release(owner, 0)?;
    seat.acquire(owner, 0)?;
    match released {
        Released::To(next) => Ok(next),
        Released::Free => Ok(owner),
    }
}

/// One who has the resource, and sixteen who wait for it. Returns the one who has it.
#[inline(always)]
pub fn crowd<C: Calls>(seat: &mut C) -> Result<Key, Refusal> {
    let owner = seat.begin()?;
    seat.acquire(owner, 0)?;
    for _ in 0..WAITERS {
        let waiter = seat.begin()?;
        seat.acquire(waiter, 0)?;
    }
    Ok(owner)
}

/// Hands the resource over this many times.
#[inline(always)]
pub fn hand_overs<C: Calls>(seat: &mut C, first: Key, count: u32) {
    let mut owner = first;
    for _ in 0..count {
        if let Ok(next) = hand_over(seat, owner) {
            owner = next;
        }
    }
}

/// Calls by which one thread begins transactions and ends them all.
#[derive(Clone, Copy)]
pub enum Round {
    /// Begin, an acquire that is granted, release, finish.
    Grant,
    /// Two transactions, one of which waits for the other: seven calls, of which one blocks.
    Block,
    /// A deadlock of two, from both begins to the end: ten calls, of which two block and one transmits.
    Deadlock,
    /// The same deadlock, found by a settle: nine calls.
    Settle,
}

impl Round {
    /// Makes the calls.
    fn make<C: Calls>(self, seat: &mut C) -> Result<(), Refusal> {
        match self {
            Round::Grant => grant(seat),
            Round::Block => block(seat),
            Round::Deadlock => deadlock(seat),
            Round::Settle => settle(seat),
        }
    }
}

/// Makes a round this many times.
#[inline(always)]
pub fn rounds<C: Calls>(seat: &mut C, round: Round, count: u32) {
    for _ in 0..count {
        let _ = round.make(seat);
    }
}
