//! A number has a name exactly while it has an owner.
ghost use Rattle.std.specs.Prelude.{◌≡◌, ◌⊎◌, ◌↔◌, ℕ, [], Ok, Err, None, Some, fold, IfOk, IfErr, OnOk, OnErr, IsSome, IsTrue};
ghost use Rattle.mm_lists.specs.Members.{Among};
ghost use Rattle.mm_names.specs.Names.{name_of, with_name, Interns, IsNamed, IsRefusedAsFull};
ghost use Rattle.mm_rules.specs.TableState.{owner_of};
ghost use Rattle.mm_manager.specs.Permit.{may_ask, may_name, may_ask_for};
ghost use Rattle.mm_manager.specs.Refused.{UnlockRefused};
ghost use Rattle.mm_manager.specs.private.Numbers.{forgotten, left_by, bare};

use crate::permit::{may_ask, may_name};
use crate::{Key, Refusal};
use mm_names::{Entry, Names, NamesError};
use mm_settled::{Released, SettledTable, Table};

/// Returns the owner of a number; `None` if it has none, or is not one of the numbers.
pub fn owner_of(table: &Table, number: u32) -> Option<Key>
    ensures { result ≡ owner_of table.now number }
{
    table.keeps_laws();
    table.owner(number).ok()?
}

/// Returns the number of a name, which it has already, or gets, and whether the name is new.
#[inline(always)]
pub fn entry_of(names: &mut Names, name: &[u8]) -> Result<Entry, Refusal>
    ensures interned { IfOk result (λ entry. Interns names.old name.now entry.number names.new) }
    ensures new { IfOk result (λ entry. IsTrue entry.is_new ↔ ¬ IsNamed names.old name.now) }
    ensures allowed { OnOk result (may_name names.old.name_bytes name.now ≡ Ok tt) }
    ensures refused { IfErr result (λ refusal. (may_name names.old.name_bytes name.now ≡ Err refusal) ⊎ ((may_name names.old.name_bytes name.now ≡ Ok tt) × (refusal ≡ Refusal.NamesFull) × IsRefusedAsFull names.old name.now)) }
    ensures same { OnErr result (names.new ≡ names.old) }
{
    match names.enter(name) {
        Ok(Entry { number, is_new }) => Ok(Entry { number, is_new }),
        Err(NamesError::Empty) => Err(Refusal::NameEmpty),
        Err(NamesError::TooLong) => Err(Refusal::NameTooLong),
        Err(NamesError::Full) => Err(Refusal::NamesFull),
    }
}

/// Returns the number of a name. If no number has it, the answer is why the transaction cannot unlock it.
#[inline(always)]
pub fn named_number(table: &Table, names: &Names, key: Key, name: &[u8]) -> Result<u32, Refusal>
    ensures named { IfOk result (λ n. name_of names.now n ≡ Some name.now) }
    ensures refused { IfErr result (λ refusal. UnlockRefused (bare table.now names.now) key name.now refusal) }
{
    match names.find(name) {
        Some(number) => Ok(number),
        None => Err(unnamed(table, names, key, name)),
    }
}

/// Returns why a transaction cannot unlock a name that no number has.
#[inline(never)]
fn unnamed(table: &Table, names: &Names, key: Key, name: &[u8]) -> Refusal
    ensures { (may_ask_for table.now names.now.name_bytes key name.now ≡ Err result)
        ⊎ ((may_ask_for table.now names.now.name_bytes key name.now ≡ Ok tt) × (result ≡ Refusal.NotOwner)) }
{
    match may_ask(table, key) {
        Err(refusal) => refusal,
        Ok(()) => match may_name(names, name) {
            Ok(()) => Refusal::NotOwner,
            Err(refusal) => refusal,
        },
    }
}

/// Returns why a transaction cannot unlock a name that a number has.
#[inline(never)]
pub fn not_released(table: &Table, key: Key) -> Refusal
    ensures { (may_ask table.now key ≡ Err result) ⊎ ((may_ask table.now key ≡ Ok tt) × (result ≡ Refusal.NotOwner)) }
{
    match may_ask(table, key) {
        Ok(()) => Refusal::NotOwner,
        Err(refusal) => refusal,
    }
}

/// Takes its name from a number whose release was answered so, if nobody owns it now.
pub fn forget_released(names: &mut Names, number: u32, answer: Released)
    requires { IsSome (name_of names.old number) }
    ensures { names.new ≡ left_by answer names.old number }
{
    if let Released::Free = answer {
        names.forget(number);
    }
}

/// Takes its name from a number that nobody owns.
fn forget_unowned(table: &Table, names: &mut Names, number: u32)
    ensures { names.new ≡ forgotten table.now names.old number }
{
    if owner_of(table, number).is_none() {
        names.forget(number);
    }
}

/// Takes their names from those of these numbers that nobody owns.
fn forget_each(table: &Table, names: &mut Names, numbers: &[u32])
    ensures { names.new ≡ fold (forgotten table.now) names.old numbers.now }
{
    for number in numbers {
        forget_unowned(table, names, *number);
    }
}

/// Takes its name from a number.
#[inline(always)]
fn forget_one(names: &mut Names, number: u32)
    ensures { names.new ≡ with_name names.old number None }
{
    names.forget(number);
}

/// Takes their names from these numbers.
fn forget_all(names: &mut Names, numbers: &[u32])
    ensures { names.new ≡ fold (λ t n. with_name t n None) names.old numbers.now }
{
    for number in numbers {
        forget_one(names, *number);
    }
}

/// Takes their names from those numbers that the transaction owned that ended last and that nobody owns: from all of them, if the last
/// call granted nothing.
#[inline(always)]
pub fn forget_ended(table: &SettledTable, names: &mut Names)
    requires { table.now.granted ≡ [] → (q : ℕ) → Among q table.now.ended → owner_of table.now.table q ≡ None }
    ensures { names.new ≡ fold (forgotten table.now.table) names.old table.now.ended }
{
    if table.granted().is_empty() {
        forget_all(names, table.ended());
    } else {
        forget_each(table.table(), names, table.ended());
    }
}
