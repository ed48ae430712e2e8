//! A name that is handed over before its owner ends.
ghost use Rattle.std.specs.Prelude.{◌≡◌, ◌⊎◌, ℕ, Some, Ok, Err, IfErr, OnOk, OnErr, IsSome};
ghost use Rattle.mm_manager.specs.Permit.{may_ask};
ghost use Rattle.mm_manager.specs.private.Handed.{HandsOver, IsSound, IsUntouched};
ghost use Rattle.mm_names.specs.Names.{name_of, IsLawful as IsLawfulNames};
ghost use Rattle.mm_rules.specs.TableState.{owner_of};
ghost use Rattle.mm_manager.specs.Refused.{UnlockRefused};
ghost use Rattle.mm_manager.specs.private.Numbers.{bare};

use crate::named::NamedTable;
use crate::numbers::{named_number, not_released};
use crate::{Key, Refusal};

impl NamedTable {
    /// Hands over a name.
    pub fn unlock(&mut self, key: Key, name: &[u8]) -> Result<(), Refusal>
        requires { IsSound self.old }
        ensures handed { OnOk result ((n : ℕ) × (name_of self.old.names n ≡ Some name.now) × (owner_of self.old.table.table n ≡ Some key) × HandsOver key n self.old self.new) }
        ensures untouched { OnErr result (IsUntouched self.old self.new) }
        ensures refused { IfErr result (λ refusal. UnlockRefused (bare self.old.table.table self.old.names) key name.now refusal) }
        ensures distinct { IsLawfulNames self.old.names }
        ensures sound { IsSound self.new }
    {
        self.names.keeps_laws();
        let number = named_number(self.table.table(), &self.names, key, name)?;
        self.release_number(key, number)
    }

    /// Hands over a number that has a name.
    pub(crate) fn release_number(&mut self, key: Key, number: u32) -> Result<(), Refusal>
        requires sound { IsSound self.old }
        requires named { IsSome (name_of self.old.names number) }
        ensures owned { OnOk result (owner_of self.old.table.table number ≡ Some key) }
        ensures handed { OnOk result (HandsOver key number self.old self.new) }
        ensures untouched { OnErr result (IsUntouched self.old self.new) }
        ensures refused { IfErr result (λ refusal. (may_ask self.old.table.table key ≡ Err refusal)
            ⊎ ((may_ask self.old.table.table key ≡ Ok tt) × (refusal ≡ Refusal.NotOwner) × ¬ (owner_of self.old.table.table number ≡ Some key))) }
        ensures sound { IsSound self.new }
    {
        self.table.is_at_rest();
        match self.release(key, number) {
            Some(_) => Ok(()),
            None => Err(not_released(self.table.table(), key)),
        }
    }
}
