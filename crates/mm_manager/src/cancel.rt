//! A wait that is taken back.
ghost use Rattle.std.specs.Prelude.{◌≡◌, Ok, Err, IfErr, OnOk, OnErr};
ghost use Rattle.mm_settled.specs.Calls.{MadeWithdrawal};
ghost use Rattle.mm_manager.specs.Permit.{may_cancel};
ghost use Rattle.mm_manager.specs.private.Handed.{IsSound};
ghost use Rattle.mm_manager.specs.private.Room.{HasReserve};

use crate::named::NamedTable;
use crate::permit::may_cancel;
use crate::{Key, Refusal};
use mm_settled::SettledTable;

impl NamedTable {
    /// Takes back the wait of a transaction.
    pub fn cancel(&mut self, key: Key) -> Result<(), Refusal>
        requires { IsSound self.old }
        ensures made { OnOk result (MadeWithdrawal key self.old.table.table self.new.table.table) }
        ensures names { self.new.names ≡ self.old.names }
        ensures table { OnErr result (self.new.table.table ≡ self.old.table.table) }
        ensures refused { IfErr result (λ refusal. may_cancel self.old.table.table key ≡ Err refusal) }
        ensures sound { IsSound self.new }
    {
        self.table.is_at_rest();
        may_cancel(self.table.table(), key)?;
        take_back(&mut self.table, key);
        Ok(())
    }
}

/// Takes back the wait of a transaction that waits.
pub fn take_back(table: &mut SettledTable, key: Key)
    requires may { may_cancel table.old.table key ≡ Ok tt }
    requires left { HasReserve table.old.table }
    ensures made { MadeWithdrawal key table.old.table table.new.table }
    ensures left { HasReserve table.new.table }
{
    table.is_at_rest();
    let Ok(()) = table.withdraw(key) else {
        unreachable!();
    };
}
