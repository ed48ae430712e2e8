//! A request for a name.
ghost use Rattle.std.specs.Prelude.{◌≡◌, Some, None, Ok, true, IfOk, IfErr, OnOk, IsSome, ◌≢◌, ◌≤◌, ◌<◌, ◌^◌, ◌↔◌, false};
ghost use Rattle.mm_manager.specs.Permit.{may_ask, event_limit, may_wait};
ghost use Rattle.mm_manager.specs.private.Handed.{IsSound};
ghost use Rattle.mm_manager.specs.Totals.{all_of};
ghost use Rattle.mm_manager.specs.private.Room.{HasLabels, HasReserve, LabelsAreCounted};
ghost use Rattle.std.specs.Bool.{OnTrue, OnFalse};
ghost use Rattle.mm_arena.specs.declared.key.Key.{Key as KeyValue};
ghost use Rattle.mm_names.specs.Names.{name_of};
ghost use Rattle.mm_rules.specs.TableState.{owner_of};
ghost use Rattle.mm_settled.specs.Calls.{Locks};
ghost use Rattle.mm_settled.specs.declared.reply.Locked.TheVariants as locked;
ghost use Rattle.mm_manager.specs.private.Numbers.{AreNumbered};
ghost use Rattle.mm_manager.specs.private.Requests.{Requested, AnswersNamed, AnswersNew, may_ask_more};

use crate::named::NamedTable;
use crate::numbers::{entry_of, owner_of};
use crate::permit::{may_ask, may_count, may_wait, refused_first, why_refused};
use crate::{Key, Lock, Refusal, Totals};
use mm_names::Entry;
use mm_settled::{Locked, SettledTable, Table};

impl NamedTable {
    /// Asks the table for the number of a name, which the name has already, or gets. Nobody owns a number whose name is new, so the table
    /// is asked at once, and what would refuse the request is looked for only if the table refuses it. If `is_active`, the transaction is
    /// known to be active, and its key is not tested.
    // In place, as all of a request is that is granted: what is told of it then stays in registers.
    #[inline(always)]
    pub fn lock(
        &mut self,
        totals: &Totals,
        key: Key,
        name: &[u8],
        is_active: bool,
    ) -> Result<Lock, Refusal>
        requires sound { IsSound self.old }
        requires counted { all_of totals.now ≤ self.old.table.table.totals.accepted }
        requires labels { LabelsAreCounted self.old.table.table totals.now }
        requires known { OnTrue is_active (may_ask self.old.table.table key ≡ Ok tt) }
        ensures requested { Requested self.old.table.table self.old.names totals.now key name.now result self.new.table.table self.new.names }
        ensures numbered { AreNumbered self.new.table.table self.new.names }
    {
        self.table.is_at_rest();
        match entry_of(&mut self.names, name) {
            Ok(Entry { number, is_new }) if is_new => self.request_new(key, number, is_active),
            Ok(Entry { number, .. }) => request_named(&mut self.table, totals, key, number),
            Err(refusal) => Err(refused_first(self.table.table(), key, refusal)),
        }
    }

    /// Asks the table for a number whose name is new. If that is refused, the number has no name again.
    #[inline(always)]
    fn request_new(&mut self, key: Key, number: u32, is_active: bool) -> Result<Lock, Refusal>
        requires known { OnTrue is_active (may_ask self.old.table.table key ≡ Ok tt) }
        requires in_range { number < self.old.table.table.config.resources }
        requires left { HasReserve self.old.table.table }
        requires free { owner_of self.old.table.table number ≡ None }
        requires named { IsSome (name_of self.old.names number) }
        ensures answers { AnswersNew self.old.table.table key number self.old.names result self.new.table.table self.new.names }
    {
        if is_granted(&mut self.table, key, number, is_active) {
            return Ok(Lock::Granted);
        }
        self.names.forget(number);
        Err(why_refused(self.table.table(), key))
    }
}

/// Asks the table for a number that nobody owns, and tells whether the transaction owns it then.
#[inline(always)]
fn is_granted(table: &mut SettledTable, key: Key, number: u32, is_active: bool) -> bool
    requires known { OnTrue is_active (may_ask table.old.table key ≡ Ok tt) }
    requires in_range { number < table.old.table.config.resources }
    requires left { HasReserve table.old.table }
    requires free { owner_of table.old.table number ≡ None }
    ensures granted { OnTrue result ((may_ask_more table.old.table key ≡ Ok tt) × Locks table.old.table key number (Ok locked.Granted) table.new.table) }
    ensures refused { OnFalse result ((may_ask_more table.old.table key ≢ Ok tt) × (table.new.table ≡ table.old.table)) }
{
    table.is_at_rest();
    if may_ask_now(table.table(), key, is_active).is_err() {
        return false;
    }
    table.grant_free(key, number);
    true
}

/// Returns whether a transaction may ask for something, and an event may be counted.
#[inline(always)]
fn may_ask_now(table: &Table, key: Key, is_active: bool) -> Result<(), Refusal>
    requires { OnTrue is_active (may_ask table.now key ≡ Ok tt) }
    ensures { result ≡ may_ask_more table.now key }
{
    if !is_active {
        may_ask(table, key)?;
    }
    may_count(table)
}

/// Asks the table for a number that has a name.
#[inline(never)]
fn request_named(
    table: &mut SettledTable,
    totals: &Totals,
    key: Key,
    number: u32,
) -> Result<Lock, Refusal>
    requires in_range { number < table.old.table.config.resources }
    requires left { HasReserve table.old.table }
    requires counted { all_of totals.now ≤ table.old.table.totals.accepted }
    requires labels { LabelsAreCounted table.old.table totals.now }
    ensures { AnswersNamed table.old.table totals.now key number result table.new.table }
{
    table.is_at_rest();
    may_ask(table.table(), key)?;
    may_count(table.table())?;
    if is_held(table.table(), totals, key, number)? {
        return Ok(Lock::Held);
    }
    match lock_number(table, key, number) {
        Locked::Granted => Ok(Lock::Granted),
        Locked::Waits { holder } => Ok(Lock::Waits { holder }),
        Locked::Deadlock { holder } => Ok(Lock::Deadlock { holder }),
    }
}

/// Returns whether the transaction owns a number. Refused if another one does, and there may be no label left for one more wait.
fn is_held(table: &Table, totals: &Totals, key: Key, number: u32) -> Result<bool, Refusal>
    requires { all_of totals.now < 2 ^ 64 }
    ensures held { IfOk result (λ held. (held ≡ true) ↔ (owner_of table.now number ≡ Some key)) }
    ensures label { OnOk result ((h : KeyValue) → owner_of table.now number ≡ Some h → h ≢ key → may_wait table.now totals.now ≡ true) }
    ensures refused { IfErr result (λ refusal. (refusal ≡ Refusal.LabelsFull) × (may_wait table.now totals.now ≡ false) × ((h : KeyValue) × (h ≢ key) × (owner_of table.now number ≡ Some h))) }
{
    match owner_of(table, number) {
        None => Ok(false),
        Some(owner) => is_owner(table, totals, key, owner),
    }
}

/// Returns whether the owner is the transaction. Refused if it is not, and there may be no label left for one more wait.
fn is_owner(table: &Table, totals: &Totals, key: Key, owner: Key) -> Result<bool, Refusal>
    requires { all_of totals.now < 2 ^ 64 }
    ensures held { IfOk result (λ held. (held ≡ true) ↔ (owner ≡ key)) }
    ensures label { OnOk result (owner ≢ key → may_wait table.now totals.now ≡ true) }
    ensures refused { IfErr result (λ refusal. (refusal ≡ Refusal.LabelsFull) × (may_wait table.now totals.now ≡ false) × (owner ≢ key)) }
{
    if owner == key {
        return Ok(true);
    }
    if !may_wait(table, totals) {
        return Err(Refusal::LabelsFull);
    }
    Ok(false)
}

/// Asks the table for a number that another transaction owns, or nobody. There is room for that, so it is not refused.
pub fn lock_number(table: &mut SettledTable, key: Key, number: u32) -> Locked
    requires in_range { number < table.old.table.config.resources }
    requires may { may_ask table.old.table key ≡ Ok tt }
    requires counted { table.old.table.totals.accepted < event_limit }
    requires left { HasReserve table.old.table }
    requires another { ¬ (owner_of table.old.table number ≡ Some key) }
    requires label { (h : KeyValue) → owner_of table.old.table number ≡ Some h → HasLabels table.old.table }
    ensures locks { Locks table.old.table key number (Ok result) table.new.table }
{
    table.is_at_rest();
    let Ok(answer) = table.acquire(key, number) else {
        unreachable!();
    };
    answer
}
