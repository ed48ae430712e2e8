//! A waiting transaction without a verdict takes back its wait, and goes on.
ghost use Rattle.std.specs.Prelude.{◌≡◌, ◌<◌, IsTrue, OnOk, length};
ghost use Rattle.mm_rules.specs.TableState.{is_live, is_waiting};
ghost use Rattle.mm_rules.specs.Event.{Gives, allowed, given_up, give_up_tests};
ghost use Rattle.mm_settle_lemmas.specs.Touched.{Touches};

use super::Records;
use crate::{Key, Refusal};
use mm_bit_set::BitSet;

impl Records {
    /// Takes back the wait of a transaction without a verdict whose two labels are equal, and adds it to the touched. Constant time.
    pub fn give_up(&mut self, key: Key, touched: &mut BitSet) -> Result<(), Refusal>
        requires sized { length touched.old ≡ self.old.config.processes }
        ensures step { Gives (given_up self.old key) result self.new }
        ensures touched { Touches self.old self.new touched.old touched.new }
    {
        self.may_give_up(key)?;
        self.activate(key);
        touched.add(key.process);
        self.count();
        Ok(())
    }

    /// The tests of `give_up`, in their order.
    fn may_give_up(&self, key: Key) -> Result<(), Refusal>
        ensures tests { result ≡ allowed (give_up_tests self.now key) }
        ensures live { OnOk result (IsTrue (is_live self.now key)) }
        ensures in_range { OnOk result (key.process < self.now.config.processes) }
        ensures waiting { OnOk result (IsTrue (is_waiting self.now key.process)) }
    {
        let transaction = self.may_call_waiting(key)?;
        if transaction.has_verdict {
            return Err(Refusal::UnderVerdict);
        }
        let labels = self.labels.of(key.process);
        if labels.private != labels.public {
            return Err(Refusal::Carried);
        }
        Ok(())
    }
}
