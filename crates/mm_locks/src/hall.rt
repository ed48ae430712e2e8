//! What lies behind the lock.
ghost use Rattle.std.specs.Prelude.{◌≡◌, ◌⊎◌, ◌↔◌, ◌<◌, ◌≤◌, [], ℕ, Ok, Some, None, IfErr, IfNone, IfOk, IfSome, IsTrue, length, take, true};
ghost use Rattle.std.specs.Bool.{OnFalse, OnTrue};
ghost use Rattle.mm_bit_set.specs.BitSet.{HasNoneFrom};
ghost use Rattle.mm_locks.specs.Noted.{AbortNotes, CommitNotes};
ghost use Rattle.mm_locks.specs.Wakes.{IsToWake, Notes, told};
ghost use Rattle.mm_names.specs.Names.{name_of};
ghost use Rattle.mm_thin.specs.Calls.{GivesBack, GivesSomeUp};
ghost use Rattle.mm_locks.specs.Errors.{of_commit, of_lock, of_try, of_unlock};
ghost use Rattle.mm_locks.specs.Granted.{IsFor, IsSettled, OwnsAt, OwnsFor};
ghost use Rattle.mm_locks.specs.Calls.{AsksFor, FindsAt, StatusAt, TriesFor, HandsBack, UnlocksFor, CommitsFor, CommitsOrHandsOver, HandsNumberOver, HandsPortionOver, RollsBack, TakesBack, done_of, found_of, told_of};

use crate::error::LockError;
use crate::owner::owns;
use crate::tokens::Granted;
use crate::wakes::{MAX_WAKES, PendingWakes, Wakes};
use mm_desk::{Asked, Desk, Room, Tried, Unlocked};
use mm_manager::{LockManager, Refusal, Status, Totals};
use mm_names::NamesConfig;
use mm_thin::{GiveUp, Worker};

/// After so many names an end lets others have the lock.
const PORTION: usize = 256;

/// How many bytes a name may have.
const MAX_NAME: usize = NamesConfig::MAX_NAME_BYTES as usize;

/// The desk, room for what an end looks at, the processes whose wake-up is still pending, and the workers of no session.
#[derive(Drop)]
pub struct Hall {
    pub(crate) desk: Desk,
    pub(crate) room: Room,
    pub(crate) pending: PendingWakes,
    pub(crate) idle: Vec<Worker>,
}

/// What a request for a name has come to.
#[derive(Drop)]
pub enum Outcome<'n> {
    /// The transaction owns the name.
    Owns(Granted<'n>),
    /// It waits for the name.
    Waits,
    /// Another thread changed a bucket meanwhile: it is to ask again.
    Again,
}

impl Hall {
    /// A worker for a session.
    pub(crate) fn take_worker(&mut self) -> Option<Worker>
        ensures { self.new.desk ≡ self.old.desk }
    {
        self.idle.pop()
    }

    /// Takes in the worker of a session that has ended.
    pub(crate) fn take_in(&mut self, worker: Worker)
        ensures { self.new.desk ≡ self.old.desk }
    {
        if self.idle.len() < self.idle.capacity() {
            self.idle.push_reserved(worker);
        }
    }

    /// The process of a worker's transaction.
    pub(crate) fn process_of(&self, at: u32) -> Option<u32> {
        Some(self.desk.key_of(at)?.process)
    }

    /// Asks for a name.
    pub(crate) fn ask<'n>(&mut self, at: u32, name: &'n [u8]) -> Result<Outcome<'n>, LockError>
        ensures refused { IfErr result (λ error. of_lock error ≡ true) }
        ensures asks { AsksFor self.old.desk at name.now (found_of result) self.new.desk }
        ensures granted { IfOk result (OwnsFor at name.now) }
        ensures kept { self.new.pending ≡ self.old.pending }
    {
        match self.desk.ask(at, name) {
            Ok(Asked::Granted) => Ok(Outcome::Owns(self.granted(at, name))),
            Ok(Asked::Held) => Ok(Outcome::Owns(self.granted(at, name))),
            Ok(Asked::Waits { .. }) => Ok(Outcome::Waits),
            Ok(Asked::Deadlock { .. }) => Err(LockError::Deadlock),
            Ok(Asked::Again) => Ok(Outcome::Again),
            Err(refusal) => Err(LockError::of_refusal(refusal)),
        }
    }

    /// Asks for a name, and never waits. `Waits` says that another transaction owns it.
    pub(crate) fn try_lock<'n>(&mut self, at: u32, name: &'n [u8]) -> Result<Outcome<'n>, LockError>
        ensures refused { IfErr result (λ error. of_try error ≡ true) }
        ensures tries { TriesFor self.old.desk at name.now (found_of result) self.new.desk }
        ensures granted { IfOk result (OwnsFor at name.now) }
        ensures kept { self.new.pending ≡ self.old.pending }
    {
        match self.desk.try_lock(at, name) {
            Ok(Tried::Granted) => Ok(Outcome::Owns(self.granted(at, name))),
            Ok(Tried::Held) => Ok(Outcome::Owns(self.granted(at, name))),
            Ok(Tried::Busy { .. }) => Ok(Outcome::Waits),
            Ok(Tried::Again) => Ok(Outcome::Again),
            Err(refusal) => Err(LockError::of_refusal(refusal)),
        }
    }

    /// Returns whether the transaction of a worker owns the name in the manager.
    fn owns(&self, at: u32, name: &[u8]) -> bool
        ensures { IsTrue result ↔ OwnsAt self.now.desk at name.now }
    {
        match self.desk.key_of(at) {
            Some(key) => owns(self.desk.manager(), key, name),
            None => false,
        }
    }

    /// Returns what a request has come to that was told to wait. `Owns` only if the transaction owns the name at this moment.
    pub(crate) fn outcome<'n>(&self, at: u32, name: &'n [u8]) -> Result<Outcome<'n>, LockError>
        ensures finds { FindsAt self.now.desk at name.now (found_of result) }
        ensures settled { IfOk result IsSettled }
        ensures granted { IfOk result (OwnsFor at name.now) }
        ensures refused { IfErr result (λ error. of_lock error ≡ true) }
    {
        if self.owns(at, name) {
            return Ok(Outcome::Owns(self.granted(at, name)));
        }
        match self.status(at) {
            Ok(Status::Waiting { .. }) => Ok(Outcome::Waits),
            Ok(Status::Active) | Err(_) => Err(LockError::NotActive),
        }
    }

    /// Returns what the transaction of a worker does.
    fn status(&self, at: u32) -> Result<Status, Refusal>
        ensures { StatusAt self.now.desk at result }
    {
        match self.desk.key_of(at) {
            Some(key) => self.desk.manager().status(key),
            None => Err(Refusal::NoTransaction),
        }
    }

    /// Takes back the request of one that waits: `TimedOut` if that is done. Else its wait is over, and it owns the name.
    pub(crate) fn take_back<'n>(
        &mut self,
        at: u32,
        name: &'n [u8],
    ) -> Result<Granted<'n>, LockError>
        ensures granted { IfOk result (IsFor at name.now) }
        ensures refused { IfErr result (λ error. (error ≡ LockError.TimedOut) ⊎ (error ≡ LockError.NotActive)) }
        ensures times_out { TakesBack self.old.desk at name.now (done_of result) self.new.desk }
        ensures kept { self.new.pending ≡ self.old.pending }
    {
        if let Ok(()) = self.desk.cancel(at) {
            return Err(LockError::TimedOut);
        }
        if self.owns(at, name) {
            return Ok(self.granted(at, name));
        }
        Err(LockError::NotActive)
    }

    /// Gives a name back that a worker could not give back by itself, or had not taken. It may be able to by now: the manager may have refused
    /// the name meanwhile, and then the answer is `None`. Else all that the worker has taken and that is fat is let go, since a bucket may be
    /// lent to it for another name, and the desk is asked.
    pub(crate) fn unlock(
        &mut self,
        worker: &mut Worker,
        name: &[u8],
        wakes: &mut Wakes,
    ) -> Option<Result<(), LockError>>
        ensures noted { Notes (told self.new.desk.manager) wakes.old.processes.items self.old.pending.set wakes.new.processes.items self.new.pending.set }
        ensures unlocks { UnlocksFor self.old.desk worker.old.at name.now result self.new.desk }
        ensures gives { IfNone result (GivesBack worker.old name.now GiveUp.Done worker.new) }
        ensures at { worker.new.at ≡ worker.old.at }
        ensures refused { IfSome result (λ answer. IfErr answer (λ error. of_unlock error ≡ true)) }
    {
        let answer = self.hand_back(worker, name);
        self.pending
            .note_granted(wakes, self.desk.manager().granted());
        match answer {
            Some(answer) => Some(done(answer)),
            None => None,
        }
    }

    /// Gives a name back by the worker, or else by the desk.
    fn hand_back(&mut self, worker: &mut Worker, name: &[u8]) -> Option<Result<Unlocked, Refusal>>
        ensures hands { HandsBack self.old.desk worker.old.at name.now result self.new.desk }
        ensures gives { IfNone result (GivesBack worker.old name.now GiveUp.Done worker.new) }
        ensures kept { self.new.pending ≡ self.old.pending }
        ensures at { worker.new.at ≡ worker.old.at }
    {
        let at = worker.at();
        if let GiveUp::Done = worker.give_back_name(name) {
            return None;
        }
        let _ = worker.let_go_all();
        Some(self.desk.unlock(at, name))
    }

    /// Ends a transaction. One whose end is refused is rolled back. `None`: it owns many names in the manager, a portion of them is handed over,
    /// and this is to be called again.
    pub(crate) fn commit(
        &mut self,
        worker: &mut Worker,
        wakes: &mut Wakes,
    ) -> Option<Result<(), LockError>>
        ensures leaves { GivesSomeUp worker.old worker.new }
        ensures commits { CommitsOrHandsOver self.old.desk worker.old.at result self.new.desk }
        ensures noted { IfSome result (λ answer. CommitNotes self.old.desk worker.old.at wakes.old.processes.items self.old.pending.set wakes.new.processes.items self.new.pending.set) }
        ensures refused { IfSome result (λ answer. IfErr answer (λ error. of_commit error ≡ true)) }
    {
        let at = worker.at();
        let _ = worker.leave_all();
        if self.unlock_portion(at, wakes) {
            return None;
        }
        Some(self.finish(at, wakes))
    }

    /// Ends the transaction of a worker that has left what it had taken.
    fn finish(&mut self, at: u32, wakes: &mut Wakes) -> Result<(), LockError>
        ensures commits { CommitsFor self.old.desk at result self.new.desk }
        ensures noted { CommitNotes self.old.desk at wakes.old.processes.items self.old.pending.set wakes.new.processes.items self.new.pending.set }
        ensures refused { IfErr result (λ error. of_commit error ≡ true) }
    {
        let answer = self.desk.commit(at, &mut self.room);
        if is_done(&answer) {
            self.pending
                .note_granted(wakes, self.desk.manager().granted());
            let _ = self.desk.begin(at);
            return Ok(());
        }
        self.abort(at, wakes);
        Err(LockError::NotActive)
    }

    /// Rolls a transaction back. Returns false if it owns many names in the manager: a portion of them is handed over, and this is to be called
    /// again.
    pub(crate) fn roll_back(&mut self, worker: &mut Worker, wakes: &mut Wakes) -> bool
        ensures leaves { GivesSomeUp worker.old worker.new }
        ensures rolls_back { OnTrue result (RollsBack self.old.desk worker.old.at self.new.desk) }
        ensures noted { OnTrue result (AbortNotes self.old.desk worker.old.at wakes.old.processes.items self.old.pending.set wakes.new.processes.items self.new.pending.set) }
        ensures hands { OnFalse result (HandsPortionOver self.old.desk worker.old.at self.new.desk) }
    {
        let at = worker.at();
        let _ = worker.leave_all();
        if self.unlock_portion(at, wakes) {
            return false;
        }
        self.abort(at, wakes);
        true
    }

    /// Hands a portion of the names over that the transaction of a worker owns in the manager, if it owns more. Returns whether that is so. The
    /// worker has left what it had taken.
    fn unlock_portion(&mut self, at: u32, wakes: &mut Wakes) -> bool
        ensures hands { OnTrue result (HandsPortionOver self.old.desk at self.new.desk) }
        ensures none { OnFalse result (self.new.desk ≡ self.old.desk) }
        ensures kept { OnFalse result ((self.new.pending ≡ self.old.pending) × (wakes.new ≡ wakes.old)) }
    {
        self.desk.list_owned(at, &mut self.room);
        if self.room.numbers().len() <= PORTION {
            return false;
        }
        for k in 0..PORTION {
            let number = self.room.numbers()[k];
            self.unlock_number(at, number, wakes);
        }
        true
    }

    /// Hands over the name of this number, if it has one.
    fn unlock_number(&mut self, at: u32, number: u32, wakes: &mut Wakes)
        ensures hands { HandsNumberOver self.old.desk at number self.new.desk }
        ensures room { self.new.room ≡ self.old.room }
    {
        let mut bytes = [0u8; MAX_NAME];
        let Some(length) = copy_name(self.desk.manager(), number, &mut bytes) else {
            return;
        };
        let _ = self.desk.unlock(at, &bytes[..length]);
        self.pending
            .note_granted(wakes, self.desk.manager().granted());
    }

    /// Aborts the transaction of a worker that has given up what it had, and begins the next one.
    fn abort(&mut self, at: u32, wakes: &mut Wakes)
        ensures aborts { RollsBack self.old.desk at self.new.desk }
        ensures noted { AbortNotes self.old.desk at wakes.old.processes.items self.old.pending.set wakes.new.processes.items self.new.pending.set }
    {
        let _ = self.desk.abort(at, &mut self.room);
        self.pending
            .note_granted(wakes, self.desk.manager().granted());
        let _ = self.desk.begin(at);
    }

    /// Takes some of those that are to be woken.
    pub(crate) fn take_pending(&mut self) -> Wakes
        ensures kept { self.new.desk ≡ self.old.desk }
        ensures taken { (p : ℕ) → IsToWake [] self.old.pending.set p ↔ IsToWake result.processes.items self.new.pending.set p }
        ensures rest { length result.processes.items < MAX_WAKES → HasNoneFrom self.new.pending.set 0 }
    {
        self.pending.take()
    }

    /// What the manager counted since the opening.
    pub(crate) fn totals(&self) -> Totals {
        self.desk.manager().totals()
    }
}

/// Copies the name of a number to the head of these bytes, and returns how many bytes it has. `None` if the number has no name.
fn copy_name(manager: &LockManager, number: u32, bytes: &mut [u8; MAX_NAME]) -> Option<usize>
    ensures named { IfSome result (λ size. (size ≤ length bytes.new) × (name_of manager.now.names number ≡ Some (take size bytes.new))) }
    ensures none { IfNone result (name_of manager.now.names number ≡ None) }
{
    manager.keeps_laws();
    let Some(name) = manager.name(number) else {
        return None;
    };
    bytes[..name.len()].copy_from_slice(name);
    Some(name.len())
}

/// Whether a transaction has ended.
fn is_done(answer: &Result<Unlocked, Refusal>) -> bool
    ensures { IsTrue result ↔ (answer.now ≡ Ok Unlocked.Done) }
{
    matches!(answer, Ok(Unlocked::Done))
}

/// Returns what the answer to an unlock means.
fn done(answer: Result<Unlocked, Refusal>) -> Result<(), LockError>
    ensures { result ≡ told_of answer }
{
    match answer {
        Ok(Unlocked::Done) => Ok(()),
        Ok(Unlocked::NotLetGo) => Err(LockError::NotActive),
        Err(refusal) => Err(LockError::of_refusal(refusal)),
    }
}
