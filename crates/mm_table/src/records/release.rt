//! A transaction releases one resource.
ghost use Rattle.std.specs.Prelude.{◌≡◌, ◌<◌, IsTrue, OnOk, length};
ghost use Rattle.mm_rules.specs.Change.{hand_over_fits};
ghost use Rattle.mm_rules.specs.Event.{Gives, allowed, released, release_tests};
ghost use Rattle.mm_rules.specs.Laws.{Laws};
ghost use Rattle.mm_settle_lemmas.specs.Touched.{Touches};

use super::Records;
use crate::{Key, Refusal, Released};
use mm_bit_set::BitSet;

impl Records {
    /// Hands a resource over, and adds those that this changes to the touched. `O(waiters of the resource)`.
    pub fn release(
        &mut self,
        key: Key,
        resource: u32,
        touched: &mut BitSet,
    ) -> Result<Released, Refusal>
        requires laws { Laws self.old }
        requires sized { length touched.old ≡ self.old.config.processes }
        ensures step { Gives (released self.old key resource) result self.new }
        ensures touched { Touches self.old self.new touched.old touched.new }
    {
        self.may_release(key, resource)?;
        let answer = self.hand_over(resource, touched);
        self.count();
        Ok(answer)
    }

    /// The tests of `release`, in their order.
    fn may_release(&self, key: Key, resource: u32) -> Result<(), Refusal>
        ensures tests { result ≡ allowed (release_tests self.now key resource) }
        ensures resource { OnOk result (resource < self.now.config.resources) }
        ensures fits { OnOk result (IsTrue (hand_over_fits self.now resource)) }
    {
        self.may_use(key, resource)?;
        if !self.owns(key.process, resource) {
            return Err(Refusal::NotOwner);
        }
        if !self.hand_over_fits(resource) {
            return Err(Refusal::LabelsExhausted);
        }
        Ok(())
    }
}
