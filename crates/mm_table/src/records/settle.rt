//! What all waiting transactions do in turn: sweeps of transmits, and then detects. Only those are looked at that may do either.
ghost use Rattle.std.specs.Prelude.{◌≡◌, ◌<◌, ◌≤◌, Ok, List, Bool, true, false, length, IsFalse};
ghost use Rattle.mm_bit_set.specs.BitSet.{has};
ghost use Rattle.mm_rules.specs.Event.{Step, Settle, counts_exhausted};
ghost use Rattle.mm_rules.specs.Laws.{Laws};
ghost use Rattle.mm_settle_lemmas.specs.Touched.{Touches};
ghost use Rattle.mm_settle_lemmas.specs.Steps.Changed.{AreChanged};
ghost use Rattle.mm_settle_lemmas.specs.Steps.Marked.{AddsWaiters, AreMarked, IsNoneMarked, NoneCan, SameLengths, SetsAreSized};

use super::Records;
use crate::sets::Sets;
use crate::{Refusal, Settled};
use mm_bit_set::BitSet;

impl Records {
    /// Sweeps until no label can be transmitted, and then gives each verdict that is due. Only those are looked at that are among
    /// the changed or wait for one of them, and those that wait for each that is raised.
    ///
    /// Takes all from the changed, and adds each that it raises or convicts to the touched. What the two other sets have before makes no
    /// difference.
    // If a caller settles at one place only, the compiler would copy this into it and then keep the table's counts in memory: a
    // granted lock and a begin beside it then cost a tenth more.
    #[inline(never)]
    pub fn settle(&mut self, sets: &mut Sets) -> Result<Settled, Refusal>
        requires laws { Laws self.old }
        requires changed { AreChanged self.old sets.old.changed }
        requires sized { SetsAreSized self.old sets.old.changed sets.old.pending sets.old.checks }
        requires touched { length sets.old.touched ≡ self.old.config.processes }
        ensures step { Step Settle self.old result self.new }
        ensures changed { AreChanged self.new sets.new.changed }
        ensures sized { SetsAreSized self.new sets.new.changed sets.new.pending sets.new.checks }
        ensures touched { Touches self.old self.new sets.old.touched sets.new.touched }
    {
        if self.counts_exhausted() {
            return Err(Refusal::CountsExhausted);
        }
        if self.load(&mut sets.changed, &mut sets.pending) {
            return Ok(self.settle_pending(&mut sets.pending, &mut sets.checks, &mut sets.touched));
        }
        self.count();
        Ok(Settled {
            raises: 0,
            verdicts: 0,
        })
    }

    /// Takes all from the changed. Each of them, and all that wait for one of them, are pending. Returns whether anybody changed.
    fn load(&self, changed: &mut BitSet, pending: &mut BitSet) -> bool
        requires laws { Laws self.now }
        requires changed { AreChanged self.now changed.old }
        requires changed_sized { length changed.old ≡ self.now.config.processes }
        requires pending_sized { length pending.old ≡ self.now.config.processes }
        ensures marked { (checks : List Bool) → length checks ≡ self.now.config.processes → AreMarked self.now pending.new checks }
        ensures none { IsNoneMarked changed.new }
        ensures quiet { IsFalse result → NoneCan self.now }
        ensures changed_sized { SameLengths changed.old changed.new }
    {
        let mut from = 0;
        while let Some(process) = changed.take_next(from) {
            self.load_one(process, pending);
            from = process + 1;
        }
        from != 0
    }

    /// The process and all that wait for it are pending.
    fn load_one(&self, process: u32, pending: &mut BitSet)
        requires process { process < self.now.config.processes }
        requires sized { length pending.old ≡ self.now.config.processes }
        ensures process { has pending.new process ≡ true }
        ensures waiters { AddsWaiters self.now process pending.old pending.new }
    {
        pending.add(process);
        self.add_waiters(process, pending);
    }

    /// `settle`, if those that may transmit are pending and those that may newly detect are pending or to be checked.
    fn settle_pending(
        &mut self,
        pending: &mut BitSet,
        checks: &mut BitSet,
        touched: &mut BitSet,
    ) -> Settled
        requires counts { counts_exhausted self.old ≡ false }
        requires marked { AreMarked self.old pending.old checks.old }
        requires touched { length touched.old ≡ self.old.config.processes }
        ensures step { Step Settle self.old (Ok result) self.new }
        ensures quiet { NoneCan self.new }
        ensures pending { SameLengths pending.old pending.new }
        ensures checks { SameLengths checks.old checks.new }
        ensures touched { Touches self.old self.new touched.old touched.new }
    {
        let raises = self.sweep_all(pending, checks, touched);
        let verdicts = self.detect_all(checks, touched);
        self.count();
        Settled { raises, verdicts }
    }
}
