//! A lock manager, and how many names of each bucket it has.
ghost use Rattle.std.specs.Prelude.{◌≡◌, ◌<◌, ◌≤◌, ◌↔◌, Ok, IsTrue, vec_capacity};
ghost use Rattle.mm_manager.specs.LockState.{IsLawful};
ghost use Rattle.mm_manager.specs.Calls.{Aborts, AdoptsName, Begins, Commits, LocksName, TriesName, UnlocksName, Cancels};
ghost use Rattle.mm_desk.specs.Books.{names_in};
ghost use Rattle.mm_desk.specs.Calls.{GrowsBy, NamesFade, OwnersStay, OthersStay, WaitsStay, IsOver};

use crate::tally::{recount, uncount};
use mm_manager::{Key, Lock, LockManager, Refusal, TryLock};
use mm_thin::Spread;
use std::marker::Model;

/// A lock manager, and how many names of each bucket it has. A contract sees a `BooksState`.
#[derive(Drop)]
pub(crate) struct Books {
    pub(crate) manager: LockManager,
    pub(crate) spread: Spread,
    /// By bucket.
    pub(crate) counts: Vec<u32>,
}

impl Model for Books {
    ghost use Rattle.mm_desk.specs.Books.{BooksState, AreCounted};

    ghost Value = { BooksState };

    ghost view = { λ b. record { manager = b.manager; spread = b.spread } };

    ghost invariant = { λ b. AreCounted b.spread b.manager.names.names b.counts.items };
}

impl Books {
    /// How many names of a bucket the manager has.
    pub(crate) fn count(&self, bucket: usize) -> u32
        requires { bucket < self.now.spread.buckets }
        ensures { result ≡ names_in self.now.spread self.now.manager.names.names bucket }
    {
        self.counts[bucket]
    }

    /// Starts a transaction.
    pub(crate) fn begin(&mut self) -> Result<Key, Refusal>
        ensures begins { Begins self.old.manager result self.new.manager }
        ensures fade { NamesFade self.old.manager self.new.manager }
        ensures stay { OwnersStay self.old.manager self.new.manager }
        ensures spread { self.new.spread ≡ self.old.spread }
    {
        self.manager.begin()
    }

    /// Makes a transaction, also one that waits, the owner of a name, if nobody owns it.
    pub(crate) fn adopt(&mut self, key: Key, name: &[u8]) -> Result<TryLock, Refusal>
        ensures adopts { AdoptsName self.old.manager key name.now result self.new.manager }
        ensures grows { GrowsBy self.old.manager name.now self.new.manager }
        ensures stay { OwnersStay self.old.manager self.new.manager }
        ensures waits { WaitsStay self.old.manager self.new.manager }
        ensures spread { self.new.spread ≡ self.old.spread }
    {
        self.manager.keeps_laws();
        let answer = self.manager.adopt(key, name);
        if is_try_granted(&answer) {
            let bucket = self.spread.of(name);
            self.counts[bucket] += 1;
        }
        answer
    }

    /// Asks for a name, and never waits.
    pub(crate) fn try_lock(&mut self, key: Key, name: &[u8]) -> Result<TryLock, Refusal>
        ensures tries { TriesName self.old.manager key name.now result self.new.manager }
        ensures grows { GrowsBy self.old.manager name.now self.new.manager }
        ensures stay { OwnersStay self.old.manager self.new.manager }
        ensures spread { self.new.spread ≡ self.old.spread }
    {
        self.manager.keeps_laws();
        let answer = self.manager.try_lock(key, name);
        if is_try_granted(&answer) {
            let bucket = self.spread.of(name);
            self.counts[bucket] += 1;
        }
        answer
    }

    /// Asks for a name, and may wait.
    pub(crate) fn lock(&mut self, key: Key, name: &[u8]) -> Result<Lock, Refusal>
        ensures locks { LocksName self.old.manager key name.now result self.new.manager }
        ensures grows { GrowsBy self.old.manager name.now self.new.manager }
        ensures stay { OwnersStay self.old.manager self.new.manager }
        ensures spread { self.new.spread ≡ self.old.spread }
    {
        self.manager.keeps_laws();
        let answer = self.manager.lock(key, name);
        if is_granted(&answer) {
            let bucket = self.spread.of(name);
            self.counts[bucket] += 1;
        }
        answer
    }

    /// Hands a name over; with no waiter it is free.
    pub(crate) fn unlock(&mut self, key: Key, name: &[u8]) -> Result<(), Refusal>
        ensures unlocks { UnlocksName self.old.manager key name.now result self.new.manager }
        ensures fade { NamesFade self.old.manager self.new.manager }
        ensures stay { OthersStay self.old.manager key name.now self.new.manager }
        ensures spread { self.new.spread ≡ self.old.spread }
    {
        self.manager.keeps_laws();
        let answer = self.manager.unlock(key, name);
        self.manager.keeps_laws();
        if answer.is_err() {
            return answer;
        }
        if self.manager.owner(name).is_some() {
            return answer;
        }
        let bucket = self.spread.of(name);
        self.counts[bucket] -= 1;
        answer
    }

    /// Takes a wait back.
    pub(crate) fn cancel(&mut self, key: Key) -> Result<(), Refusal>
        ensures cancels { Cancels self.old.manager key result self.new.manager }
        ensures fade { NamesFade self.old.manager self.new.manager }
        ensures stay { OwnersStay self.old.manager self.new.manager }
        ensures spread { self.new.spread ≡ self.old.spread }
    {
        self.manager.keeps_laws();
        let answer = self.manager.cancel(key);
        self.manager.keeps_laws();
        answer
    }

    /// Ends a transaction that does not wait: hands over all that it owns. `numbers` has room for each number.
    pub(crate) fn commit(&mut self, key: Key, numbers: &mut Vec<u32>) -> Result<(), Refusal>
        requires room { self.old.manager.table.config.resources ≤ vec_capacity numbers.old }
        ensures commits { Commits self.old.manager key result self.new.manager }
        ensures over { IsOver self.old.manager key self.new.manager }
        ensures spread { self.new.spread ≡ self.old.spread }
        ensures kept { vec_capacity numbers.new ≡ vec_capacity numbers.old }
    {
        self.manager.keeps_laws();
        self.manager.holds(key, numbers);
        uncount(&self.manager, self.spread, numbers, &mut self.counts);
        let answer = self.manager.commit(key);
        self.manager.keeps_laws();
        recount(&self.manager, self.spread, numbers, &mut self.counts);
        answer
    }

    /// Ends a transaction, also one that waits: hands over all that it owns. `numbers` has room for each number.
    pub(crate) fn abort(&mut self, key: Key, numbers: &mut Vec<u32>) -> Result<(), Refusal>
        requires room { self.old.manager.table.config.resources ≤ vec_capacity numbers.old }
        ensures aborts { Aborts self.old.manager key result self.new.manager }
        ensures over { IsOver self.old.manager key self.new.manager }
        ensures spread { self.new.spread ≡ self.old.spread }
        ensures kept { vec_capacity numbers.new ≡ vec_capacity numbers.old }
    {
        self.manager.keeps_laws();
        self.manager.holds(key, numbers);
        uncount(&self.manager, self.spread, numbers, &mut self.counts);
        let answer = self.manager.abort(key);
        self.manager.keeps_laws();
        recount(&self.manager, self.spread, numbers, &mut self.counts);
        answer
    }
}

/// Whether a request was granted.
fn is_granted(answer: &Result<Lock, Refusal>) -> bool
    ensures { IsTrue result ↔ (answer.now ≡ Ok Lock.Granted) }
{
    matches!(answer, Ok(Lock::Granted))
}

/// Whether a try, or an adoption, was granted.
fn is_try_granted(answer: &Result<TryLock, Refusal>) -> bool
    ensures { IsTrue result ↔ (answer.now ≡ Ok TryLock.Granted) }
{
    matches!(answer, Ok(TryLock::Granted))
}
