//! Starts a transaction.
ghost use Rattle.std.specs.Prelude.{◌≡◌, Ok, Err, IfOk, IfErr, OnOk, OnErr};
ghost use Rattle.mm_manager.specs.Permit.{may_begin};
ghost use Rattle.mm_manager.specs.private.Handed.{IsSound};
ghost use Rattle.mm_rules.specs.Event.{Begin, Step};

use crate::named::NamedTable;
use crate::permit::may_count;
use crate::{Key, Refusal};

impl NamedTable {
    /// Starts a transaction.
    #[inline(always)]
    pub fn begin(&mut self) -> Result<Key, Refusal>
        requires { IsSound self.old }
        ensures begun { IfOk result (λ key. Step Begin self.old.table.table (Ok key) self.new.table.table) }
        ensures may { OnOk result (may_begin self.old.table.table ≡ Ok tt) }
        ensures same { OnErr result (self.new.table.table ≡ self.old.table.table) }
        ensures refused { IfErr result (λ refusal. may_begin self.old.table.table ≡ Err refusal) }
        ensures names { self.new.names ≡ self.old.names }
        ensures sound { IsSound self.new }
    {
        self.table.is_at_rest();
        may_count(self.table.table())?;
        match self.table.begin() {
            Ok(key) => Ok(key),
            Err(_) => Err(Refusal::TransactionsFull),
        }
    }
}
