//! Who waits for what a process owns.
ghost use Rattle.std.specs.Prelude.{◌≡◌, ◌<◌, length};
ghost use Rattle.mm_rules.specs.TableState.{waiters_of};
ghost use Rattle.mm_settle_lemmas.specs.Steps.Added.{AddsAll};
ghost use Rattle.mm_settle_lemmas.specs.Steps.Marked.{AddsWaiters};

use super::Records;
use mm_bit_set::BitSet;

impl Records {
    /// Adds all that wait for what `holder` owns. `O(its resources + their waiters)`.
    #[inline(always)]
    pub(super) fn add_waiters(&self, holder: u32, set: &mut BitSet)
        requires holder { holder < self.now.config.processes }
        requires sized { length set.old ≡ self.now.config.processes }
        ensures { AddsWaiters self.now holder set.old set.new }
    {
        let mut next = self.owned.first(holder);
        while let Some(resource) = next {
            self.add_queue(resource, set);
            next = self.owned.next(resource);
        }
    }

    /// Adds all that wait for `resource`. `O(waiters of the resource)`.
    fn add_queue(&self, resource: u32, set: &mut BitSet)
        requires resource { resource < self.now.config.resources }
        requires sized { length set.old ≡ self.now.config.processes }
        ensures { AddsAll (waiters_of self.now resource) set.old set.new }
    {
        self.transactions.keeps_laws();
        for process in self.transactions.waiters(resource) {
            set.add(process);
        }
    }
}
