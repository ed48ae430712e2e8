//! The end of a transaction that does not wait.
ghost use Rattle.std.specs.Prelude.{◌≡◌, Err, IfErr, OnOk, OnErr};
ghost use Rattle.mm_manager.specs.Permit.{may_ask};
ghost use Rattle.mm_manager.specs.private.Handed.{HandsAllOver, IsSound, IsUntouched};

use crate::named::NamedTable;
use crate::permit::why_not_asked;
use crate::{Key, Refusal};

impl NamedTable {
    /// Ends a transaction that does not wait.
    // In place, as all is that an end does if nobody waits.
    #[inline(always)]
    pub fn commit(&mut self, key: Key) -> Result<(), Refusal>
        requires { IsSound self.old }
        ensures handed { OnOk result (HandsAllOver key self.old self.new) }
        ensures untouched { OnErr result (IsUntouched self.old self.new) }
        ensures refused { IfErr result (λ refusal. may_ask self.old.table.table key ≡ Err refusal) }
        ensures sound { IsSound self.new }
    {
        if !self.try_finish(key) {
            return Err(why_not_asked(self.table.table(), key));
        }
        Ok(())
    }
}
