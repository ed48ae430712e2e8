//! A script of calls with their answers, which a worker has to make in this order, at its table and at its gate.

use mm_shared::Refusal;
use std::cell::Cell;

/// A call that a worker makes, without its key.
#[derive(Clone, Copy, PartialEq)]
pub enum Call {
    Begin,
    Acquire(u32),
    Release(u32),
    Transmit,
    Detect,
    Finish,
    Abort,
    Tenant(u32),
    Scan(u32),
    Arrive,
    MayPass(u32),
    Leave,
    Over,
    /// Any call that a worker never makes, or with another key than the one of the script.
    Other,
}

/// What the table or the gate answers.
#[derive(Clone, Copy)]
pub enum Answer {
    /// It is done: begun, granted, freed, still, clear, finished or aborted; there is a tenant.
    Done,
    Waits,
    Deadlock,
    Standing,
    /// The gate lets pass, or is over.
    Passes,
    /// There is no hint, or no tenant.
    Nothing,
    /// A hint that the label of this process may be raised.
    Raise(u32),
    /// A hint that a verdict of this process may be due.
    Equal(u32),
    Refused(Refusal),
}

/// A call with its answer.
pub type Line = (Call, Answer);

pub const BEGIN: Line = (Call::Begin, Answer::Done);

pub const GRANTED: Line = (Call::Acquire(0), Answer::Done);

pub const WAITS: Line = (Call::Acquire(0), Answer::Waits);

pub const TRANSMIT: Line = (Call::Transmit, Answer::Done);

pub const CLEAR: Line = (Call::Detect, Answer::Done);

pub const DEADLOCK: Line = (Call::Detect, Answer::Deadlock);

pub const FINISH: Line = (Call::Finish, Answer::Done);

pub const ABORT: Line = (Call::Abort, Answer::Done);

pub const LEAVE: Line = (Call::Leave, Answer::Done);

/// The script, which is gone through so many times, and how many calls were made.
#[derive(Drop)]
pub struct Script<'a> {
    lines: &'a [Line],
    times: usize,
    place: Cell<usize>,
    /// Whether another call came than was expected.
    is_wrong: Cell<bool>,
}

impl<'a> Script<'a> {
    pub fn new(lines: &'a [Line]) -> Script<'a> {
        Script::repeated(lines, 1)
    }

    pub fn repeated(lines: &'a [Line], times: usize) -> Script<'a> {
        Script {
            lines,
            times,
            place: Cell::new(0),
            is_wrong: Cell::new(false),
        }
    }

    /// The answer to this call. One that is not expected is noted, and refused.
    pub fn answer(&self, call: Call) -> Answer {
        let place = self.place.get();
        self.place.set(place.saturating_add(1));
        let line = place.checked_rem(self.lines.len()).unwrap_or(0);
        match self.lines.get(line) {
            Some((expected, answer)) if *expected == call && place < self.count() => *answer,
            _ => {
                self.is_wrong.set(true);
                Answer::Refused(Refusal::CountsExhausted)
            }
        }
    }

    /// How many calls are to be made.
    fn count(&self) -> usize {
        self.lines.len().saturating_mul(self.times)
    }

    /// Whether just the calls of the script were made.
    pub fn is_over(&self) -> bool {
        !self.is_wrong.get() && self.place.get() == self.count()
    }
}
