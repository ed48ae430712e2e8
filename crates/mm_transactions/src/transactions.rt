//! The transactions.
ghost use Rattle.std.specs.Prelude.{◌≡◌, ◌≢◌, ◌<◌, ◌≤◌, [], None, length, replicate, slice_set, slice_index, IsTrue, IsFalse, IfOk, IfSome, IfNone, MatchOption};
ghost use Rattle.mm_rules.specs.TableState.{waited_for};
ghost use Rattle.mm_transactions.specs.Transactions.{opening, is_live, tenant_of, told, key_of, begun, freed, verdict_of};

use crate::Transaction;
use crate::transaction::Entry;
use mm_arena::{Arena, Key, MAX_CAPACITY, Memory};
use mm_links::Link;
use mm_queue::Lists;
use std::alloc::Global;
use std::marker::Model;

/// The live transactions, each under its key, and for each resource the queue of those that wait for it. All of the memory is taken
/// when it is made.
pub struct Transactions {
    pub(crate) slots: Arena<Entry>,
    /// By process: the number of the arrival of its latest wait. No call reads it; what contracts see of the waits is in its order.
    pub(crate) arrivals: Vec<u64>,
    /// By resource: those that wait for it, in order of arrival.
    pub(crate) queues: Lists,
    /// The number of the latest arrival.
    pub(crate) latest: u64,
    /// How many wait.
    pub(crate) waiting: u32,
}

// Written out, so that a crate that drops them proves nothing of how their parts are dropped.
impl Drop for Transactions {
    fn drop(self) {
        let Transactions {
            slots: _,
            arrivals: _,
            queues: _,
            latest: _,
            waiting: _,
        } = self;
    }
}

impl Model for Transactions {
    ghost use Rattle.mm_transactions.specs.Transactions.{Transactions};
    ghost use Rattle.mm_transactions.specs.private.Layout.{seen, IsConsistent};

    ghost Value = { Transactions };

    ghost view = { λ t. seen t.arrivals.items t.slots t.queues t.latest };

    ghost invariant = { λ t. IsConsistent t.arrivals.items t.slots t.queues t.latest t.waiting };
}

impl Transactions {
    /// No transaction yet, for this many processes and resources, in `O(processes + resources)`. A key has a generation of at most
    /// `generation_limit`. It takes memory four times, and no later call takes any.
    ///
    /// `Err` only if that memory is refused.
    pub fn new(
        alloc: Global,
        processes: u32,
        resources: u32,
        generation_limit: u32,
    ) -> Result<Transactions, Memory>
        requires some_processes { 1 ≤ processes }
        requires processes_in_range { processes ≤ MAX_CAPACITY }
        requires some_resources { 1 ≤ resources }
        requires some_generation { 1 ≤ generation_limit }
        ensures { IfOk result (λ made. made ≡ opening processes resources generation_limit) }
    {
        Ok(Transactions {
            slots: Arena::new(alloc, processes, generation_limit)?,
            arrivals: no_arrivals(alloc, processes)?,
            queues: Lists::new_wide(alloc, resources, processes)?,
            latest: 0,
            waiting: 0,
        })
    }

    /// A new transaction in the first free process, in constant time. `None` exactly if no process is free, and then nothing changes.
    #[inline]
    pub fn begin(&mut self) -> Option<Key>
        ensures { MatchOption result
            ((self.old.free ≡ []) × (self.new ≡ self.old))
            (λ key. (self.old.free ≢ []) × (key ≡ key_of self.old (slice_index self.old.free 0)) × (self.new ≡ begun self.old)) }
    {
        let entry = Entry {
            waits_for: Link::NONE,
            has_verdict: false,
        };
        let Ok(key) = self.slots.insert(entry) else {
            return None;
        };
        Some(key)
    }

    /// Ends a live transaction that neither waits nor has a verdict, in constant time. Its process is the first to be given again, under
    /// the next generation; at the last generation it is retired.
    #[inline]
    pub fn end(&mut self, key: Key)
        requires live { IsTrue (is_live self.old key) }
        requires active { waited_for self.old.waits key.process ≡ None }
        requires no_verdict { IsFalse (verdict_of self.old key.process) }
        ensures { self.new ≡ freed self.old key.process }
    {
        self.slots.remove_live(key);
    }

    /// Returns whether the key is live, in constant time.
    #[inline]
    pub fn contains(&self, key: Key) -> bool
        ensures live { result ≡ is_live self.now key }
        ensures in_range { IsTrue result → key.process < length self.now.live }
    {
        self.slots.contains(key)
    }

    /// Returns the live key of a process, in constant time. A process that has none waits for nothing.
    #[inline]
    pub fn tenant(&self, process: u32) -> Option<Key>
        ensures tenant { result ≡ tenant_of self.now process }
        ensures key { IfSome result (λ key. IsTrue (is_live self.now key) × (key.process ≡ process) × (process < length self.now.live)) }
        ensures idle { IfNone result (waited_for self.now.waits process ≡ None) }
    {
        self.slots.key_at(process)
    }

    /// Returns what is known of a live transaction, in constant time. `None` exactly if the key is not live.
    #[inline]
    pub fn get(&self, key: Key) -> Option<Transaction>
        ensures told { result ≡ told self.now key }
        ensures in_range { IfSome result (λ transaction. IfSome transaction.waits_for (λ resource. resource < self.now.resources)) }
    {
        let entry = self.slots.get(key)?;
        Some(Transaction {
            waits_for: entry.waits_for.get(),
            has_verdict: entry.has_verdict,
        })
    }

    /// Gives a live transaction a verdict, or takes it away, in constant time.
    #[inline]
    pub fn set_verdict(&mut self, key: Key, has_verdict: bool)
        requires { IsTrue (is_live self.old key) }
        ensures { self.new ≡ record self.old { verdicts = slice_set self.old.verdicts key.process has_verdict } }
    {
        self.slots.value_mut(key).has_verdict = has_verdict;
    }
}

/// Returns the number 0 for each process, since nobody waited yet, in `O(processes)`. `Err` only if that memory is refused.
fn no_arrivals(alloc: Global, processes: u32) -> Result<Vec<u64>, Memory>
    ensures { IfOk result (λ made. made.items ≡ replicate processes 0) }
{
    let mut arrivals = Vec::with_capacity(alloc, processes as usize).map_err(|_| Memory)?;
    for _ in 0..processes {
        arrivals.push_reserved(0);
    }
    Ok(arrivals)
}
