//! What a manager counts.

use crate::{Key, Lock, Refusal};

/// What was counted since the opening.
#[derive(Clone, Copy, Debug, PartialEq, Eq)]
pub struct Totals {
    /// Transactions that began.
    pub begun: u64,
    /// Transactions that were committed.
    pub committed: u64,
    /// Transactions that were aborted.
    pub aborted: u64,
    /// Requests that were answered `Deadlock`.
    pub deadlocks: u64,
    /// Requests that were answered `Waits`.
    pub waits: u64,
    /// Waits that were taken back by `cancel`.
    pub withdrawn: u64,
}

impl Totals {
    ghost use Rattle.std.specs.Prelude.{◌≡◌, ◌<◌, ◌^◌};
    ghost use Rattle.mm_manager.specs.Totals.{all_of, after_begin, after_lock, after_commit, after_abort, after_cancel};

    /// Nothing was counted.
    pub(crate) const NONE: Totals = Totals {
        begun: 0,
        committed: 0,
        aborted: 0,
        deadlocks: 0,
        waits: 0,
        withdrawn: 0,
    };

    pub(crate) fn count_begin(&mut self, answer: &Result<Key, Refusal>)
        requires { all_of (after_begin self.old answer.now) < 2 ^ 64 }
        ensures { self.new ≡ after_begin self.old answer.now }
    {
        if answer.is_ok() {
            self.begun += 1;
        }
    }

    pub(crate) fn count_lock(&mut self, answer: &Result<Lock, Refusal>)
        requires { all_of (after_lock self.old answer.now) < 2 ^ 64 }
        ensures { self.new ≡ after_lock self.old answer.now }
    {
        match answer {
            Ok(Lock::Waits { .. }) => self.waits += 1,
            Ok(Lock::Deadlock { .. }) => self.deadlocks += 1,
            _ => {}
        }
    }

    pub(crate) fn count_commit(&mut self, answer: &Result<(), Refusal>)
        requires { all_of (after_commit self.old answer.now) < 2 ^ 64 }
        ensures { self.new ≡ after_commit self.old answer.now }
    {
        if answer.is_ok() {
            self.committed += 1;
        }
    }

    pub(crate) fn count_abort(&mut self, answer: &Result<(), Refusal>)
        requires { all_of (after_abort self.old answer.now) < 2 ^ 64 }
        ensures { self.new ≡ after_abort self.old answer.now }
    {
        if answer.is_ok() {
            self.aborted += 1;
        }
    }

    pub(crate) fn count_cancel(&mut self, answer: &Result<(), Refusal>)
        requires { all_of (after_cancel self.old answer.now) < 2 ^ 64 }
        ensures { self.new ≡ after_cancel self.old answer.now }
    {
        if answer.is_ok() {
            self.withdrawn += 1;
        }
    }
}
