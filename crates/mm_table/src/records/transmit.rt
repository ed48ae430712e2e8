//! A waiting transaction takes over its holder's greater label.
ghost use Rattle.std.specs.Prelude.{◌≡◌, ◌<◌, IsTrue, length};
ghost use Rattle.mm_rules.specs.TableState.{is_live};
ghost use Rattle.mm_rules.specs.Change.{greater_label, can_transmit, transmit};
ghost use Rattle.mm_rules.specs.Event.{Gives, transmitted};
ghost use Rattle.mm_rules.specs.Laws.{Laws};
ghost use Rattle.mm_settle_lemmas.specs.Touched.{Touches};

use super::Records;
use crate::{Key, Refusal, Transmitted};
use mm_bit_set::BitSet;
use mm_label::Label;

impl Records {
    /// The waiting transaction takes over its holder's public label if that is greater, and is then added to the touched.
    /// Constant time.
    pub fn transmit(&mut self, key: Key, touched: &mut BitSet) -> Result<Transmitted, Refusal>
        requires laws { Laws self.old }
        requires sized { length touched.old ≡ self.old.config.processes }
        ensures step { Gives (transmitted self.old key) result self.new }
        ensures touched { Touches self.old self.new touched.old touched.new }
    {
        self.may_call_waiting(key)?;
        let answer = match self.raise(key) {
            Some(label) => {
                touched.add(key.process);
                Transmitted::Raised(label)
            }
            None => Transmitted::Still,
        };
        self.count();
        Ok(answer)
    }

    /// The process takes over its holder's public label if it has a holder and that is greater. Returns whether it did.
    pub(super) fn transmit_at(&mut self, process: u32) -> bool
        ensures raised { result ≡ can_transmit self.old process }
        ensures state { self.new ≡ transmit self.old process }
    {
        let Some(key) = self.tenant(process) else {
            return false;
        };
        self.raise(key).is_some()
    }

    /// A live transaction takes over its holder's public label if that is greater. Returns the label that it takes over.
    fn raise(&mut self, key: Key) -> Option<Label>
        requires live { IsTrue (is_live self.old key) }
        requires process { key.process < self.old.config.processes }
        ensures label { result ≡ greater_label self.old key.process }
        ensures state { self.new ≡ transmit self.old key.process }
    {
        let label = self.greater_label(key)?;
        self.show(key.process, label);
        Some(label)
    }

    /// Returns the public label of the holder of a live transaction, if it is greater than its own.
    fn greater_label(&self, key: Key) -> Option<Label>
        requires { IsTrue (is_live self.now key) }
        ensures { result ≡ greater_label self.now key.process }
    {
        let shown = self.holder_label(key)?;
        let own = self.labels.public(key.process);
        (own < shown).then_some(shown)
    }
}
