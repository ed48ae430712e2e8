//! A transaction ends: all that it owns is handed over, and its process is freed.
ghost use Rattle.std.specs.Prelude.{◌≡◌, ◌<◌, ◌≤◌, ◌↔◌, ℕ, List, Bool, [], IsTrue, None, Some, IsFalse, fold, length, vec_capacity, OnOk};
ghost use Rattle.mm_lists.specs.Members.{Among, NoRepeat};
ghost use Rattle.mm_rules.specs.TableState.{owner_of, wait_of, is_live, has_verdict, resources_of};
ghost use Rattle.mm_rules.specs.Change.{hand_over, free_slot, vacate, vacate_fits};
ghost use Rattle.mm_rules.specs.Event.{Gives, allowed, finished, finish_tests};
ghost use Rattle.mm_rules.specs.Laws.{Laws};
ghost use Rattle.mm_settle_lemmas.specs.Touched.{Touches};
ghost use Rattle.mm_settle_lemmas.specs.Steps.Vacating.{IsVacating};

use super::Records;
use crate::{Key, Refusal};
use mm_bit_set::BitSet;

impl Records {
    /// Hands over all that the transaction owns, frees its process, and adds those that this changes to the touched.
    /// `O(its resources + their waiters)`.
    #[inline(always)]
    pub fn finish(&mut self, key: Key, touched: &mut BitSet) -> Result<(), Refusal>
        requires laws { Laws self.old }
        requires sized { length touched.old ≡ self.old.config.processes }
        ensures step { Gives (finished self.old key) result self.new }
        ensures touched { Touches self.old self.new touched.old touched.new }
    {
        self.may_finish(key)?;
        self.vacate(key, touched);
        self.count();
        Ok(())
    }

    /// `finish`, which also lists what the transaction owned, in place of what `resources` held.
    #[inline(always)]
    pub fn finish_listing(
        &mut self,
        key: Key,
        resources: &mut Vec<u32>,
        touched: &mut BitSet,
    ) -> Result<(), Refusal>
        requires laws { Laws self.old }
        requires sized { length touched.old ≡ self.old.config.processes }
        requires room { self.old.config.resources ≤ vec_capacity resources.old }
        ensures step { Gives (finished self.old key) result self.new }
        ensures touched { Touches self.old self.new touched.old touched.new }
        ensures listed { OnOk result ((r : ℕ) → Among r resources.new.items ↔ (owner_of self.old r ≡ Some key)) }
        ensures once { OnOk result (NoRepeat resources.new.items) }
        ensures room { vec_capacity resources.new ≡ vec_capacity resources.old }
    {
        self.may_finish(key)?;
        self.owned_by_live(key, resources);
        self.vacate(key, touched);
        self.count();
        Ok(())
    }

    /// The tests of `finish`, in their order.
    fn may_finish(&self, key: Key) -> Result<(), Refusal>
        ensures tests { result ≡ allowed (finish_tests self.now key) }
        ensures live { OnOk result (IsTrue (is_live self.now key)) }
        ensures active { OnOk result (wait_of self.now key.process ≡ None) }
        ensures fits { OnOk result (IsTrue (vacate_fits self.now key.process)) }
    {
        let transaction = self.may_call(key)?;
        if transaction.waits_for.is_some() {
            return Err(Refusal::Waiting);
        }
        if !self.vacate_fits(key.process) {
            return Err(Refusal::LabelsExhausted);
        }
        Ok(())
    }

    /// Hands over all that a live transaction owns, and frees its process. The order in which it hands over makes no difference.
    #[inline(always)]
    pub(super) fn vacate(&mut self, key: Key, touched: &mut BitSet)
        requires laws { Laws self.old }
        requires live { IsTrue (is_live self.old key) }
        requires active { wait_of self.old key.process ≡ None }
        requires fits { IsTrue (vacate_fits self.old key.process) }
        requires sized { length touched.old ≡ self.old.config.processes }
        ensures state { self.new ≡ vacate self.old key.process }
        ensures touched { IsVacating self.old key.process self.new touched.old touched.new }
    {
        self.hand_over_all(key.process, touched);
        self.free_slot(key);
    }

    /// Returns whether the limit allows each label that is made when `process` hands over all that it owns.
    #[inline]
    pub(super) fn vacate_fits(&self, process: u32) -> bool
        requires { process < self.now.config.processes }
        ensures { result ≡ vacate_fits self.now process }
    {
        if self.all_labels_fit() {
            return true;
        }
        let mut next = self.owned.first(process);
        while let Some(resource) = next {
            if !self.hand_over_fits(resource) {
                return false;
            }
            next = self.owned.next(resource);
        }
        true
    }

    /// Hands over all that `process` owns, and adds all that waited for it to the touched.
    #[inline(always)]
    fn hand_over_all(&mut self, process: u32, touched: &mut BitSet)
        requires laws { Laws self.old }
        requires process { process < self.old.config.processes }
        requires active { wait_of self.old process ≡ None }
        requires fits { IsTrue (vacate_fits self.old process) }
        requires sized { length touched.old ≡ self.old.config.processes }
        ensures state { self.new ≡ fold hand_over self.old (resources_of self.old process) }
        ensures touched { IsVacating self.old process self.new touched.old touched.new }
    {
        if self.transactions.nobody_waits() {
            self.free_all(process);
        } else {
            self.hand_over_each(process, touched);
        }
    }

    /// Frees all that `process` owns. Nobody waits.
    #[inline(always)]
    fn free_all(&mut self, process: u32)
        requires laws { Laws self.old }
        requires process { process < self.old.config.processes }
        requires none { self.old.waits ≡ [] }
        ensures state { self.new ≡ fold hand_over self.old (resources_of self.old process) }
        ensures touched { (set : List Bool) → IsVacating self.old process self.new set set }
    {
        self.owned.free_all(process);
    }

    /// Hands over all that `process` owns, one resource after the other, as `hand_over_all`.
    #[inline(never)]
    fn hand_over_each(&mut self, process: u32, touched: &mut BitSet)
        requires laws { Laws self.old }
        requires process { process < self.old.config.processes }
        requires active { wait_of self.old process ≡ None }
        requires fits { IsTrue (vacate_fits self.old process) }
        requires sized { length touched.old ≡ self.old.config.processes }
        ensures state { self.new ≡ fold hand_over self.old (resources_of self.old process) }
        ensures touched { IsVacating self.old process self.new touched.old touched.new }
    {
        let mut next = self.owned.first(process);
        while let Some(resource) = next {
            // Read before the hand-over, which writes the links: so it does not wait for them.
            let following = self.owned.next(resource);
            self.hand_over(resource, touched);
            next = match following {
                Some(_) => following,
                // Nothing is left. A hand-over promises nothing of the order of the list, so this is read again.
                None => self.owned.first(process),
            };
        }
    }

    /// Frees the process of a live transaction that neither waits nor has a verdict.
    fn free_slot(&mut self, key: Key)
        requires live { IsTrue (is_live self.old key) }
        requires active { wait_of self.old key.process ≡ None }
        requires no_verdict { IsFalse (has_verdict self.old key.process) }
        ensures { self.new ≡ free_slot self.old key.process }
    {
        self.transactions.end(key);
    }
}
