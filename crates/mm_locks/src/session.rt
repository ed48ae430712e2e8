//! A thread's way to the locks.
ghost use Rattle.std.specs.Prelude.{[], ◌≡◌, false};
ghost use Rattle.mm_tied.specs.History.{IsSound, nobody};
ghost use Rattle.mm_tied.specs.Mutex.{IsPassOf, opened};
ghost use Rattle.mm_locks.specs.History.{Makes};

use crate::hall::Hall;
use crate::history::Event;
use crate::locks::Locks;
use crate::transaction::Transaction;
use mm_desk::Desk;
use mm_thin::Worker;
use mm_tied::Pass;
use std::sync::Wait;
use std::time::Clock;

/// A thread's way to the locks: it makes one transaction at a time. It is not shared, and may go to another thread.
pub struct Session<'r, 'm, R: Wait + Clock> {
    pub(crate) rt: &'r R,
    pub(crate) locks: &'m Locks,
    pub(crate) worker: Worker,
    pub(crate) pass: Pass<Hall, Desk, Event>,
    ghost own: { IsPassOf locks.now.hall pass },
    ghost hands: { pass.me.1 ≡ [] },
    ghost sound: { IsSound Makes ((opened locks.now.hall).desk) pass.id pass.me.0 },
}

impl<'r, 'm, R: Wait + Clock> Drop for Session<'r, 'm, R> {
    fn drop(self) {
        let Self {
            rt,
            locks,
            worker,
            pass: _,
        } = self;
        locks.take_in(rt, worker);
    }
}

impl<'r, 'm, R: Wait + Clock> Session<'r, 'm, R> {
    pub(crate) fn new(rt: &'r R, locks: &'m Locks, worker: Worker) -> Session<'r, 'm, R>
        ensures new { result.pass.me.0 ≡ nobody }
    {
        let pass = locks.hall.pass();
        Session {
            rt,
            locks,
            worker,
            pass,
        }
    }

    /// Begins a transaction. It ends by `commit`; if it is dropped it is rolled back. Constant time.
    pub fn begin<'s>(&'s mut self) -> Transaction<'s, 'r, 'm, R>
        ensures session { result.session.now ≡ self.entry.now }
        ensures known { result.is_known ≡ false }
    {
        Transaction::new(self)
    }
}
