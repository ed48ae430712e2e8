//! A transaction.
ghost use Rattle.std.specs.Prelude.{◌≡◌, false, true, IfErr, IfNone, IfOk, IfSome};
ghost use Rattle.mm_thin.specs.Calls.{HasTaken};
ghost use Rattle.mm_locks.specs.Errors.{of_commit, of_lock, of_try, of_unlock};
ghost use Rattle.mm_locks.specs.Calls.{found_of};
ghost use Rattle.mm_locks.specs.Granted.{IsFor, OwnsFor};
ghost use Rattle.mm_locks.specs.Told.{BeginsSo, CommitsSo, HasTakenAlone, IsKnownIfTold, IsSame, LocksSo, LooksUntil, Tells, TellsNothing, TriesSo, TriesUntil, UnlocksSo, owning, owning_or_not};

use crate::error::LockError;
use crate::hall::Outcome;
use crate::history::Event;
use crate::session::Session;
use crate::tokens::{Granted, take_thinly};
use mm_mutex::{Awake, stay_away};
use mm_thin::{GiveUp, Take};
use std::sync::Wait;
use std::time::Clock;

/// How often a thread yields its processor when it has rolled back a transaction that was told `Deadlock`. One that began again at once would
/// often be told the same, before the others are done.
const DEADLOCK_YIELDS: u32 = 256;

/// How often a thread looks again whether a name is free before it asks the manager. Before each further time it yields twice as often.
const LOOKS: u32 = 3;

/// A transaction. If it is dropped it is rolled back: all that it owns is handed over, and the processes that were granted something are
/// woken. If it was told `Deadlock` and has given nothing back since, the drop then yields the processor for a while, so that the others
/// come to their ends before the caller begins again.
pub struct Transaction<'s, 'r, 'm, R: Wait + Clock> {
    pub(crate) session: &'s mut Session<'r, 'm, R>,
    /// Whether the manager may know of it.
    pub(crate) is_known: bool,
    /// Whether it was told `Deadlock` and has given nothing back since.
    is_in_deadlock: bool,
}

impl<'s, 'r, 'm, R: Wait + Clock> Drop for Transaction<'s, 'r, 'm, R> {
    fn drop(self) {
        let Self {
            session,
            is_known,
            is_in_deadlock,
        } = self;
        roll_back(session, is_known, is_in_deadlock);
    }
}

impl<'s, 'r, 'm, R: Wait + Clock> Transaction<'s, 'r, 'm, R> {
    pub(crate) fn new(session: &'s mut Session<'r, 'm, R>) -> Transaction<'s, 'r, 'm, R>
        ensures session { result.session.now ≡ session.entry.now }
        ensures known { result.is_known ≡ false }
    {
        Transaction {
            session,
            is_known: false,
            is_in_deadlock: false,
        }
    }

    /// Returns whether it was told `Deadlock` and has given nothing back since.
    pub(crate) fn is_in_deadlock(&self) -> bool {
        self.is_in_deadlock
    }

    /// Rolls the transaction back. It can be begun anew.
    pub(crate) fn roll_back(&mut self) {
        roll_back(self.session, self.is_known, self.is_in_deadlock);
        self.is_known = false;
        self.is_in_deadlock = false;
    }

    /// Locks the name: returns when the transaction owns it, at once if nobody else does, and else it sleeps until it was granted.
    ///
    /// If nobody else owns a name of its bucket, that is one compare-and-swap; a name after the sixteenth, and one of more than 63 bytes, is the
    /// manager's. If another one owns it the thread looks some times more, and then waits in the manager. `Deadlock` comes at once, if the wait
    /// would close a cycle of waits; one that sleeps is never told of it. The transaction does not wait then, and goes on with what it owns. Give
    /// back what others wait for before you ask again: `unlock` what was locked since a savepoint, or drop the transaction. Until then the answer
    /// is the same, and the others on the cycle cannot go on. A name that it owns already is `Ok`, and is owned once. Refused as `Deadlock`,
    /// `NameEmpty`, `NameTooLong`, `TooManyNames`, `NamesFull`, `CountsFull` or `LabelsFull`.
    #[inline]
    pub fn lock<'n>(&mut self, name: &'n [u8]) -> Result<Granted<'n>, LockError>
        ensures granted { IfOk result (IsFor self.old.session.now.worker.at name.now) }
        ensures refused { IfErr result (λ error. of_lock error ≡ true) }
        ensures same { IsSame self.old.session.now self.new.session.now }
        ensures told { LocksSo self.old.session.now name.now result self.new.session.now }
        ensures known { IsKnownIfTold self.old.is_known self.old.session.now self.new.is_known self.new.session.now }
    {
        let session = &mut *self.session;
        match take_thinly(&mut session.worker, name) {
            Ok(granted) => Ok(granted),
            Err(why) => self.lock_slowly(name, why),
        }
    }

    /// Looks some times more whether the name is free, if another one has its bucket, and then asks the manager for it.
    #[inline(never)]
    fn lock_slowly<'n>(&mut self, name: &'n [u8], why: Take) -> Result<Granted<'n>, LockError>
        ensures granted { IfOk result (IsFor self.old.session.now.worker.at name.now) }
        ensures refused { IfErr result (λ error. of_lock error ≡ true) }
        ensures same { IsSame self.old.session.now self.new.session.now }
        ensures told { LocksSo self.old.session.now name.now result self.new.session.now }
        ensures known { IsKnownIfTold self.old.is_known self.old.session.now self.new.is_known self.new.session.now }
    {
        match self.begin_wait(name, why)? {
            Some(granted) => Ok(granted),
            None => sleep(self.session, name),
        }
    }

    /// Locks the name, or waits for it in the manager from now on, and then returns `None`.
    pub(crate) fn begin_wait<'n>(
        &mut self,
        name: &'n [u8],
        why: Take,
    ) -> Result<Option<Granted<'n>>, LockError>
        ensures granted { IfOk result (λ found. IfSome found (IsFor self.old.session.now.worker.at name.now)) }
        ensures refused { IfErr result (λ error. of_lock error ≡ true) }
        ensures same { IsSame self.old.session.now self.new.session.now }
        ensures told { BeginsSo self.old.session.now name.now result self.new.session.now }
        ensures known { IsKnownIfTold self.old.is_known self.old.session.now self.new.is_known self.new.session.now }
        ensures asked { IfOk result (λ found. IfNone found (self.new.is_known ≡ true)) }
    {
        if let Some(granted) = self.look_again(name, why) {
            return Ok(Some(granted));
        }
        for _ in self.session.rt.forever() {
            match self.request(name)? {
                Outcome::Owns(granted) => return Ok(Some(granted)),
                Outcome::Waits => return Ok(None),
                Outcome::Again => {}
            }
        }
        unreachable!()
    }

    /// Takes the name if another one has its bucket, and that becomes free soon.
    fn look_again<'n>(&mut self, name: &'n [u8], why: Take) -> Option<Granted<'n>>
        ensures granted { IfSome result (IsFor self.old.session.now.worker.at name.now) }
        ensures same { IsSame self.old.session.now self.new.session.now }
        ensures told { TellsNothing self.old.session.now self.new.session.now }
        ensures known { self.new.is_known ≡ self.old.is_known }
        ensures taken { IfSome result (λ granted. HasTaken self.new.session.now.worker.records name.now) }
    {
        let Take::Busy = why else {
            return None;
        };
        let session = &mut *self.session;
        let awake = Awake::new(session.rt);
        let mut yields = 1u32;
        for _ in 0..LOOKS {
            if !awake.stay_away(session.rt, yields) {
                return None;
            }
            match take_thinly(&mut session.worker, name) {
                Ok(granted) => return Some(granted),
                Err(Take::Busy) => {}
                Err(_) => return None,
            }
            yields = yields.saturating_mul(2);
        }
        None
    }

    /// Asks the manager for the name.
    fn request<'n>(&mut self, name: &'n [u8]) -> Result<Outcome<'n>, LockError>
        ensures granted { IfOk result (OwnsFor self.old.session.now.worker.at name.now) }
        ensures refused { IfErr result (λ error. of_lock error ≡ true) }
        ensures same { IsSame self.old.session.now self.new.session.now }
        ensures told { Tells self.old.session.now (Event.Asked self.old.session.now.worker.at name.now (found_of result)) self.new.session.now }
        ensures known { self.new.is_known ≡ true }
    {
        self.is_known = true;
        let answer = self.session.ask(name);
        if is_deadlock(&answer) {
            self.is_in_deadlock = true;
        }
        answer
    }

    /// Locks the name if nobody else owns it, and never sleeps for it. Returns `None` if another transaction owns it.
    ///
    /// Refused as `NameEmpty`, `NameTooLong`, `TooManyNames`, `NamesFull` or `CountsFull`, as `LockManager::try_lock` is.
    pub fn try_lock<'n>(&mut self, name: &'n [u8]) -> Result<Option<Granted<'n>>, LockError>
        ensures granted { IfOk result (λ tried. IfSome tried (IsFor self.old.session.now.worker.at name.now)) }
        ensures refused { IfErr result (λ error. of_try error ≡ true) }
        ensures same { IsSame self.old.session.now self.new.session.now }
        ensures told { TriesSo self.old.session.now name.now result self.new.session.now }
        ensures known { IsKnownIfTold self.old.is_known self.old.session.now self.new.is_known self.new.session.now }
    {
        let session = &mut *self.session;
        match take_thinly(&mut session.worker, name) {
            Ok(granted) => Ok(Some(granted)),
            Err(_) => {
                self.is_known = true;
                try_slowly(self.session, name)
            }
        }
    }

    /// Gives the name back: its longest waiter owns it from now on, and is woken; with no waiter it is free.
    ///
    /// Refused as `NameEmpty`, `NameTooLong` or `NotOwner`, as `LockManager::unlock` is.
    pub fn unlock(&mut self, name: &[u8]) -> Result<(), LockError>
        ensures refused { IfErr result (λ error. of_unlock error ≡ true) }
        ensures same { IsSame self.old.session.now self.new.session.now }
        ensures told { UnlocksSo self.old.session.now name.now result self.new.session.now }
        ensures known { IsKnownIfTold self.old.is_known self.old.session.now self.new.is_known self.new.session.now }
    {
        let session = &mut *self.session;
        if let GiveUp::Done = session.worker.give_back_name(name) {
            self.is_in_deadlock = false;
            return Ok(());
        }
        self.is_known = true;
        session.unlock(name)?;
        self.is_in_deadlock = false;
        Ok(())
    }

    /// Ends the transaction: all that it owns is handed over, and the processes that were granted something are woken.
    pub fn commit(self) -> Result<(), LockError>
        ensures refused { IfErr result (λ error. of_commit error ≡ true) }
        ensures same { IsSame self.entry.session.now self.exit.0.now }
        ensures told { CommitsSo self.entry.is_known self.entry.session.now result self.exit.0.now }
    {
        let Self {
            session,
            is_known,
            is_in_deadlock: _,
        } = self;
        session.commit(is_known)
    }
}

/// Rolls the session's transaction back. If it was told `Deadlock`, and has given nothing back since, the processor is then yielded for a while.
fn roll_back<R: Wait + Clock>(
    session: &mut Session<'_, '_, R>,
    is_known: bool,
    is_in_deadlock: bool,
) {
    session.roll_back(is_known);
    if is_in_deadlock {
        stay_away(DEADLOCK_YIELDS);
    }
}

/// Whether an answer is that the wait would close a cycle of waits.
fn is_deadlock(answer: &Result<Outcome<'_>, LockError>) -> bool {
    matches!(answer, Err(LockError::Deadlock))
}

/// Asks the manager for the name, and never waits.
#[inline(never)]
fn try_slowly<'n, R: Wait + Clock>(
    session: &mut Session<'_, '_, R>,
    name: &'n [u8],
) -> Result<Option<Granted<'n>>, LockError>
    ensures granted { IfOk result (λ tried. IfSome tried (IsFor session.old.worker.at name.now)) }
    ensures refused { IfErr result (λ error. of_try error ≡ true) }
    ensures same { IsSame session.old session.new }
    ensures told { TriesUntil session.old name.now (owning_or_not result) session.new }
{
    for _ in session.rt.forever() {
        match session.try_lock(name)? {
            Outcome::Owns(granted) => return Ok(Some(granted)),
            Outcome::Waits => return Ok(None),
            Outcome::Again => {}
        }
    }
    unreachable!()
}

/// Sleeps until the session's transaction owns what it waits for.
#[inline(never)]
fn sleep<'n, R: Wait + Clock>(
    session: &mut Session<'_, '_, R>,
    name: &'n [u8],
) -> Result<Granted<'n>, LockError>
    ensures granted { IfOk result (IsFor session.old.worker.at name.now) }
    ensures refused { IfErr result (λ error. of_lock error ≡ true) }
    ensures same { IsSame session.old session.new }
    ensures told { LooksUntil session.old name.now (Event.Looked session.old.worker.at name.now (owning result)) session.new }
{
    let parker = session.parker();
    for _ in session.rt.forever() {
        match parker {
            Some(parker) => parker.yield_and_park(session.rt),
            None => stay_away(1),
        }
        match session.outcome(name)? {
            Outcome::Owns(granted) => return Ok(granted),
            Outcome::Waits | Outcome::Again => {}
        }
    }
    unreachable!()
}
