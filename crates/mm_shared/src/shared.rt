//! The table that threads share.
ghost use Rattle.std.specs.Prelude.{◌≡◌, ◌≤◌, Ok, vec_capacity};
ghost use Rattle.mm_arena.specs.declared.key.Key.{Key};
ghost use Rattle.mm_board.specs.Views.{label_at, NoneFalls};
ghost use Rattle.mm_label.specs.Label.{Label};
ghost use Rattle.mm_rules.specs.Event.{Begin, Acquire, Release, Finish, Transmit, Detect, Abort, GiveUp, Settle};
ghost use Rattle.mm_counts.specs.Shares.{all_parts, CountsEvent};

use crate::inside::Inside;
use crate::pass::Pass;
use mm_board::{Board, Name};
use mm_mutex::YieldingMutex;
use mm_table::{Acquired, Detected, Key, Refusal, Released, Settled, State, Transmitted};
use std::fmt;
use std::fmt::{Debug, Formatter};
use std::marker::Model;
use std::sync::Wait;
use std::sync::ledger::Ledger;

/// A lock table that threads share by reference: an `Inside` behind one lock, and beside it the board on which its labels and holders are
/// read without the lock.
///
/// A contract sees it as its number of processes. Each event and each read takes the lock, makes the one call of its name on the value
/// behind it, and lets go: it may wait for the lock, and its cost is said from then on. The contract of such a call says what it does to
/// the pass. It cannot say what it found behind the lock, or did there; what holds there at any time is said by the type `Inside`.
pub struct SharedTable<N: Name, A: Ledger, V: Ledger, B: Ledger> {
    pub(crate) board: Board<N>,
    processes: u32,
    lock: YieldingMutex<Inside<N, A, V, B>>,
}

// By hand, so that a crate that drops a shared table proves nothing of how its parts are dropped.
impl<N: Name, A: Ledger, V: Ledger, B: Ledger> Drop for SharedTable<N, A, V, B> {
    fn drop(self) {
        drop(self.into_inside());
    }
}

impl<N: Name, A: Ledger, V: Ledger, B: Ledger> Model for SharedTable<N, A, V, B> {
    ghost use Rattle.std.specs.Prelude.{◌≡◌, ℕ};
    ghost use Rattle.mm_counts.specs.Shares.{all_parts};

    ghost Value = { ℕ };

    ghost view = { λ t. t.processes };

    ghost invariant = { λ t. (t.board ≡ t.processes) × (A.parts ≡ all_parts) × (V.parts ≡ all_parts) × (B.parts ≡ all_parts) };
}

impl<N: Name, A: Ledger, V: Ledger, B: Ledger> SharedTable<N, A, V, B> {
    pub(crate) fn new(
        board: Board<N>,
        inside: Inside<N, A, V, B>,
        processes: u32,
    ) -> SharedTable<N, A, V, B>
        requires board { board ≡ processes }
        requires parts { (A.parts ≡ all_parts) × (V.parts ≡ all_parts) × (B.parts ≡ all_parts) }
        ensures { result ≡ processes }
    {
        SharedTable {
            board,
            processes,
            lock: YieldingMutex::new(inside),
        }
    }

    /// Does nothing. Its contract is how many parts each ledger of a shared table has.
    pub(crate) fn ledgers_have_all_parts(&self)
        ensures { (A.parts ≡ all_parts) × (V.parts ≡ all_parts) × (B.parts ≡ all_parts) }
    {
        let _ = &self.processes;
    }

    /// Returns the value behind the lock, which nobody else can take any more.
    pub(crate) fn into_inside(self) -> Inside<N, A, V, B> {
        let SharedTable {
            board: _,
            processes: _,
            lock,
        } = self;
        lock.into_inner()
    }

    /// Returns how many processes the table has. Constant time, and takes no lock.
    pub fn processes(&self) -> u32
        ensures { result ≡ self.now }
    {
        self.processes
    }

    /// `Table::begin`: starts a transaction in the first free process, and returns its key.
    ///
    /// Refused as `CountsExhausted` or `Full`. Constant time.
    pub fn begin<R: Wait>(&self, rt: &R, pass: &mut Pass<N, A, V, B>) -> Result<Key, Refusal>
        ensures counts { CountsEvent Begin result pass.old pass.new }
    {
        self.lock.take(rt).inside().begin(&self.board, pass)
    }

    /// `Table::acquire`: grants a free resource; for an owned one the transaction waits, last in its queue, with a fresh label.
    /// If it waits, the pass has seen that label on the board afterwards.
    ///
    /// Refused as `CountsExhausted`, `Stale`, `NoResource`, `Waiting`, `AlreadyOwns` or `LabelsExhausted`. Constant time.
    // In place: the call most made, and a granted one does less than a call from here would cost.
    #[inline(always)]
    pub fn acquire<R: Wait>(
        &self,
        rt: &R,
        pass: &mut Pass<N, A, V, B>,
        key: Key,
        resource: u32,
    ) -> Result<Acquired, Refusal>
        ensures counts { CountsEvent (Acquire key resource) result pass.old pass.new }
        ensures seen { (holder : Key) (label : Label) → result ≡ Ok (Acquired.Waits holder label) → label_at pass.new.seen.labels key.process ≡ label }
        ensures rises { NoneFalls pass.old.seen.labels pass.new.seen.labels }
    {
        self.lock
            .take(rt)
            .inside()
            .acquire(&self.board, pass, key, resource)
    }

    /// `Table::release`: hands the resource over to its longest waiter, or frees it.
    ///
    /// Refused as `CountsExhausted`, `Stale`, `NoResource`, `Waiting`, `NotOwner` or `LabelsExhausted`. `O(waiters of the resource)`.
    pub fn release<R: Wait>(
        &self,
        rt: &R,
        pass: &mut Pass<N, A, V, B>,
        key: Key,
        resource: u32,
    ) -> Result<Released, Refusal>
        ensures counts { CountsEvent (Release key resource) result pass.old pass.new }
    {
        self.lock
            .take(rt)
            .inside()
            .release(&self.board, pass, key, resource)
    }

    /// `release`, which also lists the processes to wake: `wake` then has, in place of what it had, all processes whose labels, wait, holder or
    /// verdict the call changed, each once, in ascending order;
    /// none if the call is refused. `wake` has room for each process, and no memory is taken.
    ///
    /// Refused as `release` is. `O(waiters of the resource)`.
    pub fn release_waking<R: Wait>(
        &self,
        rt: &R,
        pass: &mut Pass<N, A, V, B>,
        key: Key,
        resource: u32,
        wake: &mut Vec<u32>,
    ) -> Result<Released, Refusal>
        requires room { self.now ≤ vec_capacity wake.old }
        ensures counts { CountsEvent (Release key resource) result pass.old pass.new }
        ensures room { self.now ≤ vec_capacity wake.new }
    {
        let mut guard = self.lock.take(rt);
        let inside = guard.inside();
        let answer = inside.release(&self.board, pass, key, resource);
        inside.swap_changed(&self.board, wake);
        answer
    }

    /// `Table::finish`: ends the transaction, hands over all that it owns, and frees its process.
    ///
    /// Refused as `CountsExhausted`, `Stale`, `Waiting` or `LabelsExhausted`. `O(its resources + their waiters)`.
    pub fn finish<R: Wait>(
        &self,
        rt: &R,
        pass: &mut Pass<N, A, V, B>,
        key: Key,
    ) -> Result<(), Refusal>
        ensures counts { CountsEvent (Finish key) result pass.old pass.new }
    {
        self.lock.take(rt).inside().finish(&self.board, pass, key)
    }

    /// `finish`, which also lists the processes to wake: `wake` then has, in place of what it had, all processes whose labels, wait, holder or
    /// verdict the call changed, each once, in ascending order;
    /// none if the call is refused. `wake` has room for each process, and no memory is taken.
    ///
    /// Refused as `finish` is. `O(its resources + their waiters)`.
    pub fn finish_waking<R: Wait>(
        &self,
        rt: &R,
        pass: &mut Pass<N, A, V, B>,
        key: Key,
        wake: &mut Vec<u32>,
    ) -> Result<(), Refusal>
        requires room { self.now ≤ vec_capacity wake.old }
        ensures counts { CountsEvent (Finish key) result pass.old pass.new }
        ensures room { self.now ≤ vec_capacity wake.new }
    {
        let mut guard = self.lock.take(rt);
        let inside = guard.inside();
        let answer = inside.finish(&self.board, pass, key);
        inside.swap_changed(&self.board, wake);
        answer
    }

    /// `Table::transmit`: the waiting transaction takes over its holder's public label if that is greater.
    /// If it does, the pass has seen that label on the board afterwards.
    ///
    /// Refused as `CountsExhausted`, `Stale` or `NotWaiting`. Constant time.
    pub fn transmit<R: Wait>(
        &self,
        rt: &R,
        pass: &mut Pass<N, A, V, B>,
        key: Key,
    ) -> Result<Transmitted, Refusal>
        ensures counts { CountsEvent (Transmit key) result pass.old pass.new }
        ensures seen { (label : Label) → result ≡ Ok (Transmitted.Raised label) → label_at pass.new.seen.labels key.process ≡ label }
        ensures rises { NoneFalls pass.old.seen.labels pass.new.seen.labels }
    {
        self.lock.take(rt).inside().transmit(&self.board, pass, key)
    }

    /// `Table::detect`: gives the waiting transaction a verdict if its two labels and its holder's public one are one label. The pass
    /// counts a new verdict, and not one that stands already.
    ///
    /// Refused as `CountsExhausted`, `Stale` or `NotWaiting`. Constant time.
    pub fn detect<R: Wait>(
        &self,
        rt: &R,
        pass: &mut Pass<N, A, V, B>,
        key: Key,
    ) -> Result<Detected, Refusal>
        ensures counts { CountsEvent (Detect key) result pass.old pass.new }
    {
        self.lock.take(rt).inside().detect(&self.board, pass, key)
    }

    /// `Table::abort`: ends a transaction with a verdict, as `finish` ends an active one. The pass counts the abort.
    ///
    /// Refused as `CountsExhausted`, `Stale`, `NoVerdict` or `LabelsExhausted`. `O(its resources + their waiters)`.
    pub fn abort<R: Wait>(
        &self,
        rt: &R,
        pass: &mut Pass<N, A, V, B>,
        key: Key,
    ) -> Result<(), Refusal>
        ensures counts { CountsEvent (Abort key) result pass.old pass.new }
    {
        self.lock.take(rt).inside().abort(&self.board, pass, key)
    }

    /// `abort`, which also lists the processes to wake: `wake` then has, in place of what it had, all processes whose labels, wait, holder or
    /// verdict the call changed, each once, in ascending order;
    /// none if the call is refused. `wake` has room for each process, and no memory is taken.
    ///
    /// Refused as `abort` is. `O(its resources + their waiters)`.
    pub fn abort_waking<R: Wait>(
        &self,
        rt: &R,
        pass: &mut Pass<N, A, V, B>,
        key: Key,
        wake: &mut Vec<u32>,
    ) -> Result<(), Refusal>
        requires room { self.now ≤ vec_capacity wake.old }
        ensures counts { CountsEvent (Abort key) result pass.old pass.new }
        ensures room { self.now ≤ vec_capacity wake.new }
    {
        let mut guard = self.lock.take(rt);
        let inside = guard.inside();
        let answer = inside.abort(&self.board, pass, key);
        inside.swap_changed(&self.board, wake);
        answer
    }

    /// `Table::give_up`: the transaction, which has no verdict and whose two labels are equal, waits no longer. It keeps its labels, and
    /// all others keep their places.
    ///
    /// Refused as `CountsExhausted`, `Stale`, `NotWaiting`, `UnderVerdict` or `Carried`. Constant time.
    pub fn give_up<R: Wait>(
        &self,
        rt: &R,
        pass: &mut Pass<N, A, V, B>,
        key: Key,
    ) -> Result<(), Refusal>
        ensures counts { CountsEvent (GiveUp key) result pass.old pass.new }
    {
        self.lock.take(rt).inside().give_up(&self.board, pass, key)
    }

    /// `Table::settle`: transmits and detects for all that wait, until neither has anything left to do. The pass counts the new
    /// verdicts.
    ///
    /// Refused as `CountsExhausted`. It costs what `Table::settle` costs.
    pub fn settle<R: Wait>(&self, rt: &R, pass: &mut Pass<N, A, V, B>) -> Result<Settled, Refusal>
        ensures counts { CountsEvent Settle result pass.old pass.new }
    {
        self.lock.take(rt).inside().settle(&self.board, pass)
    }

    /// `settle`, which also lists the processes to wake: `wake` then has, in place of what it had, all processes whose labels, wait, holder or
    /// verdict the call changed, each once, in ascending order;
    /// none if the call is refused. `wake` has room for each process, and no memory is taken.
    ///
    /// Refused as `settle` is. It costs what `Table::settle` costs.
    pub fn settle_waking<R: Wait>(
        &self,
        rt: &R,
        pass: &mut Pass<N, A, V, B>,
        wake: &mut Vec<u32>,
    ) -> Result<Settled, Refusal>
        requires room { self.now ≤ vec_capacity wake.old }
        ensures counts { CountsEvent Settle result pass.old pass.new }
        ensures room { self.now ≤ vec_capacity wake.new }
    {
        let mut guard = self.lock.take(rt);
        let inside = guard.inside();
        let answer = inside.settle(&self.board, pass);
        inside.swap_changed(&self.board, wake);
        answer
    }

    /// `Table::state`: what the transaction does, and its two labels.
    ///
    /// Refused as `Stale`. Changes nothing and is not counted. Constant time.
    pub fn state<R: Wait>(
        &self,
        rt: &R,
        pass: &mut Pass<N, A, V, B>,
        key: Key,
    ) -> Result<State, Refusal>
        ensures { pass.new ≡ pass.old }
    {
        self.lock.take(rt).inside().state(&self.board, pass, key)
    }

    /// `Table::owner`: the key that owns the resource; `None` if it is free.
    ///
    /// Refused as `NoResource`. Changes nothing and is not counted. Constant time.
    pub fn owner<R: Wait>(
        &self,
        rt: &R,
        pass: &mut Pass<N, A, V, B>,
        resource: u32,
    ) -> Result<Option<Key>, Refusal>
        ensures { pass.new ≡ pass.old }
    {
        self.lock
            .take(rt)
            .inside()
            .owner(&self.board, pass, resource)
    }

    /// `Table::tenant`: the live key of the process; `None` if it has none, or is not one of the table's.
    ///
    /// Changes nothing and is not counted. Constant time.
    pub fn tenant<R: Wait>(&self, rt: &R, pass: &mut Pass<N, A, V, B>, process: u32) -> Option<Key>
        ensures { pass.new ≡ pass.old }
    {
        self.lock
            .take(rt)
            .inside()
            .tenant(&self.board, pass, process)
    }
}

impl<N: Name, A: Ledger, V: Ledger, B: Ledger> Debug for SharedTable<N, A, V, B> {
    fn fmt<W: fmt::Write>(&self, f: &mut Formatter<W>) -> fmt::Result {
        f.debug_struct("SharedTable")
            .field("processes", &self.processes)
            .finish()
    }
}
