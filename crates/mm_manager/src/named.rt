//! A table whose resources have names, and how its names are handed over.
use crate::Key;
use crate::numbers::{forget_ended, forget_released};
use mm_names::Names;
use mm_settled::{Released, SettledTable};

/// A table, and the names of its resources. A number has a name exactly while it has an owner.
#[derive(Drop)]
pub struct NamedTable {
    pub table: SettledTable,
    pub names: Names,
}

impl NamedTable {
    ghost use Rattle.std.specs.Prelude.{◌≡◌, Ok, Some, None, true, IsSome, IfSome, IfNone, OnSome};
    ghost use Rattle.std.specs.Bool.{OnTrue, OnFalse};
    ghost use Rattle.mm_names.specs.Names.{name_of};
    ghost use Rattle.mm_rules.specs.TableState.{is_live, owner_of, wait_of};
    ghost use Rattle.mm_rules.specs.Event.{Release, Finish};
    ghost use Rattle.mm_settled.specs.Calls.{Made};
    ghost use Rattle.mm_manager.specs.Permit.{may_ask};
    ghost use Rattle.mm_manager.specs.private.Handed.{Follows, IsSound};

    /// `SettledTable::release` of a number that has a name: it keeps the name exactly if somebody owns it then. Returns `None` exactly if
    /// the transaction may not ask or does not own the number, and then nothing changes.
    pub fn release(&mut self, key: Key, number: u32) -> Option<Released>
        requires sound { IsSound self.old }
        requires named { IsSome (name_of self.old.names number) }
        ensures made { IfSome result (λ answer. Made (Release key number) self.old.table.table answer self.new.table.table) }
        ensures follows { OnSome result (Follows key.process self.old self.new) }
        ensures refused { IfNone result ((may_ask self.old.table.table key ≡ Ok tt) → ¬ (owner_of self.old.table.table number ≡ Some key)) }
        ensures table { IfNone result (self.new.table.table ≡ self.old.table.table) }
        ensures same { IfNone result (self.new.names ≡ self.old.names) }
    {
        self.table.is_at_rest();
        let Ok(answer) = self.table.release(key, number) else {
            return None;
        };
        forget_released(&mut self.names, number, answer);
        Some(answer)
    }

    /// `SettledTable::finish` of a live transaction that does not wait: each of its names keeps its number exactly if somebody owns it then.
    #[inline(always)]
    pub fn finish(&mut self, key: Key)
        requires sound { IsSound self.old }
        requires live { is_live self.old.table.table key ≡ true }
        requires idle { wait_of self.old.table.table key.process ≡ None }
        ensures made { Made (Finish key) self.old.table.table tt self.new.table.table }
        ensures follows { Follows key.process self.old self.new }
    {
        let is_ended = self.try_finish(key);
        if !is_ended {
            unreachable!();
        }
    }

    /// `finish`, if the transaction is live and does not wait. Returns `false` exactly if it is not so, and then nothing changes.
    #[inline(always)]
    pub fn try_finish(&mut self, key: Key) -> bool
        requires sound { IsSound self.old }
        ensures made { OnTrue result (Made (Finish key) self.old.table.table tt self.new.table.table) }
        ensures follows { OnTrue result (Follows key.process self.old self.new) }
        ensures refused { OnFalse result (is_live self.old.table.table key ≡ true → ¬ (wait_of self.old.table.table key.process ≡ None)) }
        ensures table { OnFalse result (self.new.table.table ≡ self.old.table.table) }
        ensures same { OnFalse result (self.new.names ≡ self.old.names) }
    {
        self.table.is_at_rest();
        let Ok(()) = self.table.finish(key) else {
            return false;
        };
        forget_ended(&self.table, &mut self.names);
        true
    }
}
