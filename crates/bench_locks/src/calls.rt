//! Calls of a transaction that are written down: what was asked for, and what was told.

use mm_locks::{LockError, Transaction};
use std::fmt;
use std::fmt::{Display, Formatter};
use std::sync::Wait;
use std::time::{Clock, Duration};

/// How long `LockFor` waits, in microseconds.
const LIMIT: u64 = 500;

/// What stands in place of a name where there is none.
const NO_NAME: u8 = b'-';

/// What a call asks for.
#[derive(Clone, Copy)]
pub enum Kind {
    Lock,
    /// To lock within a short time.
    LockFor,
    Try,
    Unlock,
    End,
}

impl Kind {
    /// Makes the call, and returns what it was told. An end is none of these calls.
    pub fn made<R: Wait + Clock>(
        self,
        transaction: &mut Transaction<'_, '_, '_, R>,
        name: &[u8],
    ) -> Answer {
        match self {
            Kind::Lock => Answer::of(transaction.lock(name).map(|_| ())),
            Kind::LockFor => {
                Answer::of(
                    transaction
                        .lock_for(name, Duration::from_micros(LIMIT))
                        .map(|_| ()),
                )
            }
            Kind::Try => {
                match transaction.try_lock(name) {
                    Ok(None) => Answer::Busy,
                    Ok(Some(_)) => Answer::Ok,
                    Err(error) => Answer::of(Err(error)),
                }
            }
            Kind::Unlock => Answer::of(transaction.unlock(name)),
            Kind::End => Answer::Refused,
        }
    }

    fn word(self) -> &'static str {
        match self {
            Kind::Lock | Kind::LockFor => "lock",
            Kind::Try => "try",
            Kind::Unlock => "unlock",
            Kind::End => "end",
        }
    }
}

/// What a call was told.
#[derive(Clone, Copy)]
pub enum Answer {
    Ok,
    Busy,
    Deadlock,
    TimedOut,
    NotOwner,
    /// Refused for another reason, which no call here is.
    Refused,
}

impl Answer {
    /// The answer of a call that returned this.
    pub fn of(told: Result<(), LockError>) -> Answer {
        match told {
            Ok(()) => Answer::Ok,
            Err(LockError::Deadlock) => Answer::Deadlock,
            Err(LockError::TimedOut) => Answer::TimedOut,
            Err(LockError::NotOwner) => Answer::NotOwner,
            Err(_) => Answer::Refused,
        }
    }

    fn word(self) -> &'static str {
        match self {
            Answer::Ok => "ok",
            Answer::Busy => "busy",
            Answer::Deadlock => "deadlock",
            Answer::TimedOut => "timed-out",
            Answer::NotOwner => "not-owner",
            Answer::Refused => "refused",
        }
    }
}

/// A call that was made.
#[derive(Clone, Copy)]
pub struct Call {
    /// The nanoseconds at which it began and ended.
    pub start: u64,
    pub end: u64,
    pub kind: Kind,
    /// The one letter of the name.
    pub name: u8,
    pub answer: Answer,
}

impl Call {
    /// The end of a transaction.
    pub fn of_end(start: u64, end: u64, answer: Answer) -> Call {
        Call {
            start,
            end,
            kind: Kind::End,
            name: NO_NAME,
            answer,
        }
    }
}

/// As `tests/lib/orders.py` reads it: when it began and ended, what it asked for, the name, and what it was told.
impl Display for Call {
    fn fmt<W: fmt::Write>(&self, f: &mut Formatter<W>) -> fmt::Result {
        let start = self.start;
        let end = self.end;
        let kind = self.kind.word();
        let name = char::from(self.name);
        let answer = self.answer.word();
        write!(f, "{start} {end} {kind} {name} {answer}")
    }
}
