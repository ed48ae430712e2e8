//! A request for a name that is refused if somebody owns it.
ghost use Rattle.std.specs.Prelude.{◌≡◌, Ok, IfOk, IfErr, OnOk, OnErr, ◌<◌};
ghost use Rattle.mm_manager.specs.Calls.{Tries};
ghost use Rattle.mm_manager.specs.Permit.{may_ask, may_request, event_limit, may_name};
ghost use Rattle.mm_manager.specs.private.Handed.{IsSound};
ghost use Rattle.mm_manager.specs.private.Room.{HasReserve};
ghost use Rattle.mm_manager.specs.private.Numbers.{bare, AreNumbered};
ghost use Rattle.mm_manager.specs.private.Requests.{TryRefusedByNames, tried_by};

use crate::lock::lock_number;
use crate::named::NamedTable;
use crate::numbers::{entry_of, owner_of};
use crate::permit::{may_ask, may_count};
use crate::{Key, Refusal, TryLock};

impl NamedTable {
    /// Asks for a name that nobody owns.
    pub fn try_lock(&mut self, key: Key, name: &[u8]) -> Result<TryLock, Refusal>
        requires { IsSound self.old }
        ensures tried { IfOk result (λ answer. Tries self.old.table.table self.old.names key name.now answer self.new.table.table self.new.names) }
        ensures may { OnOk result (may_request self.old.table.table self.old.names.name_bytes key name.now ≡ Ok tt) }
        ensures refused { IfErr result (λ refusal. TryRefusedByNames (bare self.old.table.table self.old.names) key name.now refusal) }
        ensures table { OnErr result (self.new.table.table ≡ self.old.table.table) }
        ensures names { OnErr result (self.new.names ≡ self.old.names) }
        ensures sound { IsSound self.new }
    {
        self.table.is_at_rest();
        may_ask(self.table.table(), key)?;
        may_count(self.table.table())?;
        self.try_request(key, name)
    }

    /// Asks the table for the number of a name that nobody owns. The transaction may ask.
    fn try_request(&mut self, key: Key, name: &[u8]) -> Result<TryLock, Refusal>
        requires numbered { AreNumbered self.old.table.table self.old.names }
        requires may { may_ask self.old.table.table key ≡ Ok tt }
        requires counted { self.old.table.table.totals.accepted < event_limit }
        requires left { HasReserve self.old.table.table }
        ensures tried { IfOk result (λ answer. Tries self.old.table.table self.old.names key name.now answer self.new.table.table self.new.names) }
        ensures named { OnOk result (may_name self.old.names.name_bytes name.now ≡ Ok tt) }
        ensures refused { IfErr result (λ refusal. TryRefusedByNames (bare self.old.table.table self.old.names) key name.now refusal) }
        ensures table { OnErr result (self.new.table.table ≡ self.old.table.table) }
        ensures names { OnErr result (self.new.names ≡ self.old.names) }
        ensures numbered { AreNumbered self.new.table.table self.new.names }
    {
        self.table.is_at_rest();
        let entry = entry_of(&mut self.names, name)?;
        if let Some(holder) = owner_of(self.table.table(), entry.number) {
            return Ok(tried(holder, key));
        }
        lock_number(&mut self.table, key, entry.number);
        Ok(TryLock::Granted)
    }
}

/// Returns what a try, or an adoption, is told of a name that the holder owns.
pub fn tried(holder: Key, key: Key) -> TryLock
    ensures { result ≡ tried_by holder key }
{
    if holder == key {
        TryLock::Held
    } else {
        TryLock::Busy { holder }
    }
}
