//! A name that is handed over whichever it is, so that a transaction of many names can end by parts.
ghost use Rattle.std.specs.Prelude.{◌≡◌, ◌⊎◌, ℕ, Some, Ok, Err, IfErr, OnOk, OnErr};
ghost use Rattle.mm_manager.specs.Permit.{may_ask};
ghost use Rattle.mm_manager.specs.private.Handed.{HandsOver, IsSound, IsUntouched};
ghost use Rattle.mm_names.specs.Names.{name_of, IsLawful as IsLawfulNames};
ghost use Rattle.mm_rules.specs.TableState.{owner_of};
ghost use Rattle.mm_manager.specs.Calls.{UnlockAnyRefused};
ghost use Rattle.mm_manager.specs.private.Numbers.{bare};

use crate::named::NamedTable;
use crate::numbers::not_released;
use crate::{Key, Refusal};

impl NamedTable {
    /// Hands over one of the names that the transaction owns.
    pub fn unlock_any(&mut self, key: Key) -> Result<(), Refusal>
        requires { IsSound self.old }
        ensures handed { OnOk result ((n : ℕ) × (owner_of self.old.table.table n ≡ Some key) × HandsOver key n self.old self.new) }
        ensures untouched { OnErr result (IsUntouched self.old self.new) }
        ensures refused { IfErr result (λ refusal. UnlockAnyRefused (bare self.old.table.table self.old.names) key refusal) }
        ensures distinct { IsLawfulNames self.old.names }
        ensures sound { IsSound self.new }
    {
        self.names.keeps_laws();
        match self.table.table().any_owned(key) {
            Some(number) => self.release_number(key, number),
            None => Err(not_released(self.table.table(), key)),
        }
    }
}
