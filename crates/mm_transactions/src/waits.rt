//! Who waits for what, and the queue of each resource.
ghost use Rattle.std.specs.Option.{option_map};
ghost use Rattle.std.specs.Prelude.{◌≡◌, ◌≢◌, ◌<◌, ◌++◌, ◌∷◌, [], None, not, filter, map, IsTrue, IsNone};
ghost use Rattle.mm_rules.specs.TableState.{waited_for};
ghost use Rattle.mm_transactions.specs.Transactions.{is_live, queue_of, first_key, without_wait, WaitsAreLawful};
ghost use Rattle.mm_transactions.specs.private.Walk.{IsNextWaiter};

use crate::{Transactions, Waiters};
use mm_arena::Key;
use mm_links::Link;

impl Transactions {
    /// A live transaction that does not wait starts to wait for a resource, last in its queue, in constant time. `arrival` is greater
    /// than at each earlier one.
    #[inline]
    pub fn start_wait(&mut self, key: Key, resource: u32, arrival: u64)
        requires live { IsTrue (is_live self.old key) }
        requires resource { resource < self.old.resources }
        requires idle { waited_for self.old.waits key.process ≡ None }
        requires latest { self.old.latest < arrival }
        ensures { self.new ≡ record self.old { waits = self.old.waits ++ record { key = key; resource = resource } ∷ []; latest = arrival } }
    {
        let entry = self.slots.value_mut(key);
        entry.waits_for = Link::to(resource);
        self.arrivals[key.process as usize] = arrival;
        self.queues.push_back(resource, key);
        self.latest = arrival;
        self.waiting += 1;
    }

    /// A live transaction that waits stops waiting, in constant time. The others keep their places.
    #[inline]
    pub fn end_wait(&mut self, key: Key)
        requires live { IsTrue (is_live self.old key) }
        requires waiting { waited_for self.old.waits key.process ≢ None }
        ensures { self.new ≡ without_wait self.old key.process }
    {
        self.slots.value_mut(key).waits_for = Link::NONE;
        self.queues.take_out(key);
        self.waiting -= 1;
    }

    /// Returns the longest waiter for a resource, in constant time. `None` if nobody waits for it.
    #[inline]
    pub fn first_waiter(&self, resource: u32) -> Option<Key>
        requires { resource < self.now.resources }
        ensures { result ≡ first_key (queue_of self.now.waits resource) }
    {
        if self.waiting == 0 {
            return None;
        }
        self.first_queued(resource)
    }

    /// Returns whether nobody waits, in constant time.
    #[inline]
    pub fn nobody_waits(&self) -> bool
        ensures { IsTrue result → self.now.waits ≡ [] }
    {
        self.waiting == 0
    }

    /// `first_waiter`, by a look at the queue even if nobody waits for any resource.
    #[inline]
    fn first_queued(&self, resource: u32) -> Option<Key>
        requires { resource < self.now.resources }
        ensures { result ≡ first_key (queue_of self.now.waits resource) }
    {
        self.queues.front(resource)
    }

    /// Does nothing. Its contract is what holds of the waits of any transactions that a caller can hold.
    #[inline]
    pub fn keeps_laws(&self)
        ensures { WaitsAreLawful self.now }
    {
        let _ = &self.slots;
    }

    /// Returns the processes that wait for a resource, in order of arrival. Constant time; so is each step of the walk.
    #[inline]
    pub fn waiters(&self, resource: u32) -> Waiters<'_>
        requires { resource < self.now.resources }
        ensures { result ≡ map (λ w. w.key.process) (queue_of self.now.waits resource) }
    {
        self.keeps_laws();
        let first = self.first_queued(resource);
        Waiters {
            transactions: self,
            resource,
            next: process_of(first),
        }
    }

    /// Returns the process that waits next after a waiting one for the same resource, in constant time. `None` for the last of a queue.
    #[inline]
    pub(crate) fn next_waiter(&self, process: u32) -> Option<u32>
        requires { waited_for self.now.waits process ≢ None }
        ensures { IsNextWaiter self.now.waits process result }
    {
        self.queues.next_process(process)
    }
}

/// Returns the process of a key, if there is one.
#[inline]
fn process_of(key: Option<Key>) -> Option<u32>
    ensures { result ≡ option_map (λ k. k.process) key }
{
    Some(key?.process)
}
