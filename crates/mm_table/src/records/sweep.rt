//! Sweeps of transmits, which look at those alone that may transmit.
ghost use Rattle.std.specs.Prelude.{◌≡◌, ◌<◌, length};
ghost use Rattle.mm_rules.specs.Change.{can_transmit, transmit};
ghost use Rattle.mm_rules.specs.Laws.{Laws};
ghost use Rattle.mm_rules.specs.Stages.{IsSwept};
ghost use Rattle.mm_settle_lemmas.specs.Steps.Marked.{AreMarked, IsNoneMarked};
ghost use Rattle.mm_settle_lemmas.specs.Steps.Pass.{IsTurn, IsPassed};
ghost use Rattle.mm_settle_lemmas.specs.Steps.Settling.{IsSettling};

use super::Records;
use mm_bit_set::BitSet;

impl Records {
    /// One turn of a sweep: if the process transmits, it is touched and those that wait for it are pending; else it is left to
    /// check. Returns whether it did.
    fn turn(
        &mut self,
        process: u32,
        pending: &mut BitSet,
        checks: &mut BitSet,
        touched: &mut BitSet,
    ) -> bool
        requires laws { Laws self.old }
        requires process { process < self.old.config.processes }
        requires pending { length pending.old ≡ self.old.config.processes }
        requires checks { length checks.old ≡ self.old.config.processes }
        requires touched { length touched.old ≡ self.old.config.processes }
        ensures raised { result ≡ can_transmit self.old process }
        ensures state { self.new ≡ transmit self.old process }
        ensures sets { IsTurn self.old process result pending.old checks.old pending.new checks.new }
        ensures touched { IsSettling self.old self.new touched.old touched.new }
    {
        let raised = self.transmit_at(process);
        if raised {
            touched.add(process);
            self.add_waiters(process, pending);
        } else {
            checks.add(process);
        }
        raised
    }

    /// One sweep: each of the pending in turn, in ascending order. Returns how many labels were raised.
    fn sweep(&mut self, pending: &mut BitSet, checks: &mut BitSet, touched: &mut BitSet) -> u64
        requires marked { AreMarked self.old pending.old checks.old }
        requires touched { length touched.old ≡ self.old.config.processes }
        ensures passed { IsPassed self.old result pending.new checks.new self.new }
        ensures touched { IsSettling self.old self.new touched.old touched.new }
    {
        let mut raises = 0;
        let mut from = 0;
        while let Some(process) = pending.take_next(from) {
            if self.turn(process, pending, checks, touched) {
                raises += 1;
            }
            from = process + 1;
        }
        raises
    }

    /// Sweeps until one raises nothing. Returns how many labels were raised.
    pub(super) fn sweep_all(
        &mut self,
        pending: &mut BitSet,
        checks: &mut BitSet,
        touched: &mut BitSet,
    ) -> u64
        requires marked { AreMarked self.old pending.old checks.old }
        requires touched { length touched.old ≡ self.old.config.processes }
        ensures swept { IsSwept self.old result self.new }
        ensures none { IsNoneMarked pending.new }
        ensures marked { AreMarked self.new pending.new checks.new }
        ensures touched { IsSettling self.old self.new touched.old touched.new }
    {
        let mut raises = 0;
        loop {
            let more = self.sweep(pending, checks, touched);
            if more == 0 {
                return raises;
            }
            raises += more;
        }
    }
}
