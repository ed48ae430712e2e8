//! The changes that several events are made of: a grant, and the end of a wait.
ghost use Rattle.std.specs.Prelude.{◌≡◌, ◌<◌, IsTrue, None, Some, slice_set};
ghost use Rattle.mm_rules.specs.TableState.{is_live, is_waiting, owner_of};
ghost use Rattle.mm_rules.specs.Change.{activate};

use super::Records;
use crate::Key;
use mm_tagged_lists::Spot;

impl Records {
    /// Makes the key the owner of a free resource.
    pub(crate) fn grant(&mut self, key: Key, resource: u32)
        requires resource { resource < self.old.config.resources }
        requires key { key.process < self.old.config.processes }
        requires free { owner_of self.old resource ≡ None }
        ensures { self.new ≡ record self.old { owners = slice_set self.old.owners resource (Some key) } }
    {
        let spot = Spot {
            list: key.process,
            tag: key.generation,
        };
        self.owned.push(spot, resource);
    }

    /// Takes away the wait of a live transaction that waits.
    pub(super) fn activate(&mut self, key: Key)
        requires live { IsTrue (is_live self.old key) }
        requires waiting { IsTrue (is_waiting self.old key.process) }
        ensures { self.new ≡ activate self.old key.process }
    {
        self.transactions.end_wait(key);
    }
}
