//! A name that nobody owns, for any live transaction.
ghost use Rattle.std.specs.Prelude.{◌≡◌, Ok, IfOk, IfErr, OnOk, OnErr};
ghost use Rattle.mm_manager.specs.Calls.{AdoptsNumber};
ghost use Rattle.mm_manager.specs.Permit.{may_adopt, may_name, may_own};
ghost use Rattle.mm_manager.specs.Refused.{AdoptRefused};
ghost use Rattle.mm_manager.specs.private.Handed.{IsSound};
ghost use Rattle.mm_manager.specs.private.Numbers.{bare, AreNumbered};

use crate::named::NamedTable;
use crate::numbers::{entry_of, owner_of};
use crate::permit::may_own;
use crate::try_lock::tried;
use crate::{Key, Refusal, TryLock};

impl NamedTable {
    /// Makes any live transaction the owner of a name that nobody owns.
    pub fn adopt(&mut self, key: Key, name: &[u8]) -> Result<TryLock, Refusal>
        requires { IsSound self.old }
        ensures adopted { IfOk result (λ answer. AdoptsNumber self.old.table.table self.old.names key name.now answer self.new.table.table self.new.names) }
        ensures may { OnOk result (may_adopt self.old.table.table self.old.names.name_bytes key name.now ≡ Ok tt) }
        ensures refused { IfErr result (λ refusal. AdoptRefused (bare self.old.table.table self.old.names) key name.now refusal) }
        ensures table { OnErr result (self.new.table.table ≡ self.old.table.table) }
        ensures names { OnErr result (self.new.names ≡ self.old.names) }
        ensures sound { IsSound self.new }
    {
        self.table.is_at_rest();
        may_own(self.table.table(), key)?;
        self.adopt_live(key, name)
    }

    /// Makes a transaction that may own one name more the owner of a name that nobody owns.
    fn adopt_live(&mut self, key: Key, name: &[u8]) -> Result<TryLock, Refusal>
        requires numbered { AreNumbered self.old.table.table self.old.names }
        requires may { may_own self.old.table.table key ≡ Ok tt }
        ensures adopted { IfOk result (λ answer. AdoptsNumber self.old.table.table self.old.names key name.now answer self.new.table.table self.new.names) }
        ensures named { OnOk result (may_name self.old.names.name_bytes name.now ≡ Ok tt) }
        ensures refused { IfErr result (λ refusal. AdoptRefused (bare self.old.table.table self.old.names) key name.now refusal) }
        ensures table { OnErr result (self.new.table.table ≡ self.old.table.table) }
        ensures names { OnErr result (self.new.names ≡ self.old.names) }
        ensures numbered { AreNumbered self.new.table.table self.new.names }
    {
        self.table.is_at_rest();
        let entry = entry_of(&mut self.names, name)?;
        if let Some(holder) = owner_of(self.table.table(), entry.number) {
            return Ok(tried(holder, key));
        }
        self.table.adopt(key, entry.number);
        Ok(TryLock::Granted)
    }
}
