//! What a session gives back, and how its transactions end. The lock is free when such a call returns.
ghost use Rattle.std.specs.Prelude.{◌≡◌, true, IfErr, IfSome};
ghost use Rattle.mm_locks.specs.Errors.{of_commit, of_unlock};
ghost use Rattle.mm_locks.specs.Told.{CommitsSo, IsSame, Tells, TellsThen, UnlocksSo};

use crate::error::LockError;
use crate::history::Event;
use crate::session::Session;
use crate::wakes::Wakes;
use std::marker::Brand;
use std::sync::Wait;
use std::time::Clock;

impl<'r, 'm, R: Wait + Clock> Session<'r, 'm, R> {
    /// Gives a name back that the manager knows of.
    #[inline(never)]
    pub(crate) fn unlock(&mut self, name: &[u8]) -> Result<(), LockError>
        ensures refused { IfErr result (λ error. of_unlock error ≡ true) }
        ensures same { IsSame self.old self.new }
        ensures told { UnlocksSo self.old name.now result self.new }
    {
        let mut wakes = Wakes::new();
        let at = self.worker.at();
        let lock = &self.locks.hall;
        lock.take_by_clock(self.rt, &mut self.pass);
        let answer = self
            .pass
            .slot_mut(lock.steps(), 0)
            .unlock(&mut self.worker, name, &mut wakes);
        lock.put::<Brand, _>(&mut self.pass, &(at, name, &answer));
        self.locks.wake(self.rt, &wakes);
        match answer {
            Some(answer) => answer,
            None => Ok(()),
        }
    }

    /// Ends the transaction that was begun last. The manager is asked if it may know of it.
    pub(crate) fn commit(&mut self, is_known: bool) -> Result<(), LockError>
        ensures refused { IfErr result (λ error. of_commit error ≡ true) }
        ensures same { IsSame self.old self.new }
        ensures told { CommitsSo is_known self.old result self.new }
    {
        let is_left = self.worker.give_back_all();
        if !is_left && !is_known {
            return Ok(());
        }
        self.commit_known()
    }

    /// Ends a transaction that the manager knows of.
    #[inline(never)]
    fn commit_known(&mut self) -> Result<(), LockError>
        ensures refused { IfErr result (λ error. of_commit error ≡ true) }
        ensures same { IsSame self.old self.new }
        ensures told { TellsThen self.old (Event.Ended self.old.worker.at None) (Event.Ended self.old.worker.at (Some result)) self.new }
    {
        for _ in self.rt.forever() {
            if let Some(answer) = self.commit_portion() {
                return answer;
            }
            self.locks.give_way(self.rt);
        }
        unreachable!()
    }

    /// Ends a transaction that the manager knows of, or hands a portion of its names over: `None`.
    fn commit_portion(&mut self) -> Option<Result<(), LockError>>
        ensures refused { IfSome result (λ answer. IfErr answer (λ error. of_commit error ≡ true)) }
        ensures same { IsSame self.old self.new }
        ensures told { Tells self.old (Event.Ended self.old.worker.at result) self.new }
    {
        let mut wakes = Wakes::new();
        let at = self.worker.at();
        let lock = &self.locks.hall;
        lock.take_by_clock(self.rt, &mut self.pass);
        let answer = self
            .pass
            .slot_mut(lock.steps(), 0)
            .commit(&mut self.worker, &mut wakes);
        lock.put::<Brand, _>(&mut self.pass, &(at, &answer));
        self.locks.wake(self.rt, &wakes);
        answer
    }

    /// Rolls the transaction back that was begun last. The manager is asked if it may know of it.
    pub(crate) fn roll_back(&mut self, is_known: bool) {
        let is_left = self.worker.give_back_all();
        if is_left || is_known {
            self.roll_back_known();
        }
    }

    /// Rolls a transaction back that the manager knows of.
    #[inline(never)]
    fn roll_back_known(&mut self) {
        for _ in self.rt.forever() {
            if self.roll_back_portion() {
                return;
            }
            self.locks.give_way(self.rt);
        }
        unreachable!()
    }

    /// Rolls a transaction back that the manager knows of, or hands a portion of its names over: false.
    fn roll_back_portion(&mut self) -> bool
        ensures same { IsSame self.old self.new }
        ensures told { Tells self.old (Event.RolledBack self.old.worker.at result) self.new }
    {
        let mut wakes = Wakes::new();
        let at = self.worker.at();
        let lock = &self.locks.hall;
        lock.take_by_clock(self.rt, &mut self.pass);
        let is_over = self
            .pass
            .slot_mut(lock.steps(), 0)
            .roll_back(&mut self.worker, &mut wakes);
        lock.put::<Brand, _>(&mut self.pass, &(at, is_over));
        self.locks.wake(self.rt, &wakes);
        is_over
    }
}
