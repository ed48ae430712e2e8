//! A transaction under a verdict takes back its wait, and ends.
ghost use Rattle.std.specs.Prelude.{◌≡◌, ◌≤◌, ◌<◌, ◌^◌, IsTrue, OnOk, length};
ghost use Rattle.mm_rules.specs.TableState.{is_live, has_verdict, is_waiting};
ghost use Rattle.mm_rules.specs.Change.{vacate_fits, take_back};
ghost use Rattle.mm_rules.specs.Event.{Gives, allowed, aborted, abort_tests};
ghost use Rattle.mm_rules.specs.Laws.{Laws};
ghost use Rattle.mm_settle_lemmas.specs.Touched.{Touches};

use super::Records;
use crate::{Key, Refusal};
use mm_bit_set::BitSet;

impl Records {
    /// Takes back the wait of a transaction with a verdict, hands over all that it owns, frees its process, and adds those that this
    /// changes to the touched. `O(its resources + their waiters)`.
    pub fn abort(&mut self, key: Key, touched: &mut BitSet) -> Result<(), Refusal>
        requires laws { Laws self.old }
        requires sized { length touched.old ≡ self.old.config.processes }
        ensures step { Gives (aborted self.old key) result self.new }
        ensures touched { Touches self.old self.new touched.old touched.new }
    {
        self.may_abort(key)?;
        self.take_back(key);
        touched.add(key.process);
        self.vacate(key, touched);
        self.count();
        Ok(())
    }

    /// The tests of `abort`, in their order.
    fn may_abort(&self, key: Key) -> Result<(), Refusal>
        ensures tests { result ≡ allowed (abort_tests self.now key) }
        ensures live { OnOk result (IsTrue (is_live self.now key)) }
        ensures verdict { OnOk result (IsTrue (has_verdict self.now key.process)) }
        ensures fits { OnOk result (IsTrue (vacate_fits self.now key.process)) }
    {
        let transaction = self.may_call(key)?;
        if !transaction.has_verdict {
            return Err(Refusal::NoVerdict);
        }
        if !self.vacate_fits(key.process) {
            return Err(Refusal::LabelsExhausted);
        }
        Ok(())
    }

    /// Takes back the wait and the verdict of a transaction with a verdict, counts an abort, and adds the transaction to the touched.
    pub fn let_go_on(&mut self, key: Key, touched: &mut BitSet)
        requires laws { Laws self.old }
        requires live { IsTrue (is_live self.old key) }
        requires verdict { IsTrue (has_verdict self.old key.process) }
        requires count { self.old.totals.verdicts ≤ 2 ^ 62 }
        requires sized { length touched.old ≡ self.old.config.processes }
        ensures state { self.new ≡ take_back self.old key.process }
        ensures touched { Touches self.old self.new touched.old touched.new }
    {
        self.take_back(key);
        touched.add(key.process);
    }

    /// Takes back the wait and the verdict of a transaction that waits, and counts an abort. Constant time.
    fn take_back(&mut self, key: Key)
        requires live { IsTrue (is_live self.old key) }
        requires waiting { IsTrue (is_waiting self.old key.process) }
        requires count { self.old.totals.aborts < 2 ^ 62 }
        ensures { self.new ≡ take_back self.old key.process }
    {
        self.activate(key);
        self.transactions.set_verdict(key, false);
        self.totals.aborts += 1;
    }
}
