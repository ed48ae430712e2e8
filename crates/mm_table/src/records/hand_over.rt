//! A resource goes from its owner to the longest waiter.
ghost use Rattle.std.specs.Prelude.{◌≡◌, ◌<◌, IsTrue, None, Some, length, slice_set};
ghost use Rattle.std.specs.List.{list_all};
ghost use Rattle.mm_rules.specs.TableState.{waiters_of};
ghost use Rattle.mm_rules.specs.Change.{block_fits, hand_over, hand_over_fits};
ghost use Rattle.mm_rules.specs.Event.{release_answer};
ghost use Rattle.mm_rules.specs.Stages.{blocked_on, NoneIs};
ghost use Rattle.mm_transactions.specs.Transactions.{first_key};
ghost use Rattle.mm_settle_lemmas.specs.Steps.Added.{AddsAll};

use super::Records;
use crate::{Key, Released};
use mm_bit_set::BitSet;

impl Records {
    /// Hands a resource over, adds all that waited for it to the touched, and returns what becomes of it.
    /// `O(waiters of the resource)`.
    #[inline(always)]
    pub(super) fn hand_over(&mut self, resource: u32, touched: &mut BitSet) -> Released
        requires resource { resource < self.old.config.resources }
        requires fits { IsTrue (hand_over_fits self.old resource) }
        requires sized { length touched.old ≡ self.old.config.processes }
        ensures answer { result ≡ release_answer (waiters_of self.old resource) }
        ensures state { self.new ≡ hand_over self.old resource }
        ensures touched { AddsAll (waiters_of self.old resource) touched.old touched.new }
    {
        let Some(first) = self.transactions.first_waiter(resource) else {
            self.free(resource);
            return Released::Free;
        };
        self.hand_over_to(first, resource, touched);
        Released::To(first)
    }

    /// Hands a resource over to its longest waiter. It stands apart, so that one that nobody waits for is freed in few instructions.
    #[inline(never)]
    fn hand_over_to(&mut self, first: Key, resource: u32, touched: &mut BitSet)
        requires resource { resource < self.old.config.resources }
        requires first { first_key (waiters_of self.old resource) ≡ Some first }
        requires fits { IsTrue (hand_over_fits self.old resource) }
        requires sized { length touched.old ≡ self.old.config.processes }
        ensures state { self.new ≡ hand_over self.old resource }
        ensures touched { AddsAll (waiters_of self.old resource) touched.old touched.new }
    {
        self.transactions.keeps_laws();
        self.free(resource);
        self.activate(first);
        self.grant(first, resource);
        touched.add(first.process);
        self.block_queue(resource, first.process, touched);
    }

    /// Returns whether the limit allows each label that the hand-over of `resource` makes. Constant time while the greatest label
    /// is below the limit; `O(waiters of the resource)` from there on.
    pub(super) fn hand_over_fits(&self, resource: u32) -> bool
        requires { resource < self.now.config.resources }
        ensures { result ≡ hand_over_fits self.now resource }
    {
        if self.all_labels_fit() {
            return true;
        }
        self.transactions.keeps_laws();
        let mut waiters = self.transactions.waiters(resource);
        let Some(first) = waiters.next() else {
            return true;
        };
        for process in waiters {
            if self.label_against(process, first).is_none() {
                return false;
            }
        }
        true
    }

    /// Blocks on `holder` all that wait for `resource`, and adds them to the touched. `O(waiters of the resource)`.
    fn block_queue(&mut self, resource: u32, holder: u32, touched: &mut BitSet)
        requires holder { holder < self.old.config.processes }
        requires resource { resource < self.old.config.resources }
        requires fits { IsTrue (list_all (λ w. block_fits self.old w.key.process holder) (waiters_of self.old resource)) }
        requires apart { NoneIs holder (waiters_of self.old resource) }
        requires sized { length touched.old ≡ self.old.config.processes }
        ensures state { self.new ≡ blocked_on self.old holder (waiters_of self.old resource) }
        ensures touched { AddsAll (waiters_of self.old resource) touched.old touched.new }
    {
        self.transactions.keeps_laws();
        let shown = self.labels.public(holder);
        self.labels
            .block_each(self.transactions.waiters(resource), shown, touched);
    }

    /// Takes a resource from its owner, if it has one.
    fn free(&mut self, resource: u32)
        requires { resource < self.old.config.resources }
        ensures { self.new ≡ record self.old { owners = slice_set self.old.owners resource None } }
    {
        self.owned.remove(resource);
    }
}
