//! What a session asks of the desk. The lock is free when such a call returns, and its one event is the last of the history that is then seen.
ghost use Rattle.std.specs.Prelude.{◌≡◌, ◌⊎◌, true, IfErr, IfOk};
ghost use Rattle.mm_locks.specs.Errors.{of_lock, of_try};
ghost use Rattle.mm_locks.specs.Calls.{done_of, found_of};
ghost use Rattle.mm_locks.specs.Granted.{IsFor, IsSettled, OwnsFor};
ghost use Rattle.mm_locks.specs.Told.{IsSame, Tells};

use crate::error::LockError;
use crate::hall::Outcome;
use crate::history::Event;
use crate::parkers::FlaggedParker;
use crate::session::Session;
use crate::tokens::Granted;
use std::marker::Brand;
use std::sync::Wait;
use std::time::Clock;

impl<'r, 'm, R: Wait + Clock> Session<'r, 'm, R> {
    /// Asks the manager for the name.
    pub(crate) fn ask<'n>(&mut self, name: &'n [u8]) -> Result<Outcome<'n>, LockError>
        ensures granted { IfOk result (OwnsFor self.old.worker.at name.now) }
        ensures refused { IfErr result (λ error. of_lock error ≡ true) }
        ensures same { IsSame self.old self.new }
        ensures told { Tells self.old (Event.Asked self.old.worker.at name.now (found_of result)) self.new }
    {
        let at = self.worker.at();
        let lock = &self.locks.hall;
        lock.take_by_clock(self.rt, &mut self.pass);
        let answer = self.pass.slot_mut(lock.steps(), 0).ask(at, name);
        lock.put::<Brand, _>(&mut self.pass, &(at, name, &answer));
        answer
    }

    /// Asks the manager for the name, and never waits.
    pub(crate) fn try_lock<'n>(&mut self, name: &'n [u8]) -> Result<Outcome<'n>, LockError>
        ensures granted { IfOk result (OwnsFor self.old.worker.at name.now) }
        ensures refused { IfErr result (λ error. of_try error ≡ true) }
        ensures same { IsSame self.old self.new }
        ensures told { Tells self.old (Event.Tried self.old.worker.at name.now (found_of result)) self.new }
    {
        let at = self.worker.at();
        let lock = &self.locks.hall;
        lock.take_by_clock(self.rt, &mut self.pass);
        let answer = self.pass.slot_mut(lock.steps(), 0).try_lock(at, name);
        lock.put::<Brand, _>(&mut self.pass, &(at, name, &answer));
        answer
    }

    /// Returns what a request for the name has come to.
    pub(crate) fn outcome<'n>(&mut self, name: &'n [u8]) -> Result<Outcome<'n>, LockError>
        ensures granted { IfOk result (OwnsFor self.old.worker.at name.now) }
        ensures refused { IfErr result (λ error. of_lock error ≡ true) }
        ensures same { IsSame self.old self.new }
        ensures settled { IfOk result IsSettled }
        ensures told { Tells self.old (Event.Looked self.old.worker.at name.now (found_of result)) self.new }
    {
        let at = self.worker.at();
        let lock = &self.locks.hall;
        lock.take_by_clock(self.rt, &mut self.pass);
        let answer = self.pass.slot_mut(lock.steps(), 0).outcome(at, name);
        lock.put::<Brand, _>(&mut self.pass, &(at, name, &answer));
        answer
    }

    /// Takes the request back: `TimedOut` if that is done. Else it owns the name.
    pub(crate) fn take_back<'n>(&mut self, name: &'n [u8]) -> Result<Granted<'n>, LockError>
        ensures granted { IfOk result (IsFor self.old.worker.at name.now) }
        ensures refused { IfErr result (λ error. (error ≡ LockError.TimedOut) ⊎ (error ≡ LockError.NotActive)) }
        ensures same { IsSame self.old self.new }
        ensures told { Tells self.old (Event.TookBack self.old.worker.at name.now (done_of result)) self.new }
    {
        let at = self.worker.at();
        let lock = &self.locks.hall;
        lock.take_by_clock(self.rt, &mut self.pass);
        let answer = self.pass.slot_mut(lock.steps(), 0).take_back(at, name);
        lock.put::<Brand, _>(&mut self.pass, &(at, name, &answer));
        answer
    }

    /// Where its thread sleeps while its transaction waits.
    pub(crate) fn parker(&self) -> Option<&'m FlaggedParker> {
        let process = self.locks.process_of(self.rt, self.worker.at())?;
        self.locks.parkers().of(process)
    }
}
