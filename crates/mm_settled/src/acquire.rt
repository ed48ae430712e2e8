//! A request for a lock.
ghost use Rattle.std.specs.Prelude.{◌≡◌, ◌&&◌, false, not, IsFalse, nat_eq, vec_capacity};
ghost use Rattle.mm_rules.specs.Event.{Step, Settle, counts_exhausted};
ghost use Rattle.mm_rules.specs.Laws.{AtRest};
ghost use Rattle.mm_rules.specs.TableState.{TableState};
ghost use Rattle.mm_rules.specs.TakeBack.{HasNoVictim};
ghost use Rattle.mm_rules.specs.declared.reply.Settled.{Settled as SettledValue};
ghost use Rattle.mm_settled.specs.Calls.{has_room, Locks};
ghost use Rattle.mm_settled.specs.private.Told.{GrantsNothing, MayTakeBack, ToldBy, is_owned};

use crate::settle::{has_room, settle};
use crate::{Grant, Key, Locked, Refusal, Table};
use mm_table::Acquired;

/// If no count is this or more, many more events can be counted.
const FAR_BELOW_LIMIT: u64 = 1 << 61;

/// Asks for the resource, and settles the table if the transaction waits. If it closed a cycle by that, it takes back its wait. A refusal
/// empties the list of grants. An accepted request leaves it as it is: the table has accepted an event since it was filled, so it means nothing.
#[inline(always)]
pub fn acquire(
    table: &mut Table,
    granted: &mut Vec<Grant>,
    key: Key,
    resource: u32,
) -> Result<Locked, Refusal>
    requires rest { AtRest table.old }
    requires none { HasNoVictim table.old }
    ensures locks { Locks table.old key resource result table.new }
    ensures none { HasNoVictim table.new }
    ensures nothing { GrantsNothing table.old table.new granted.new.items }
    ensures config { table.new.config ≡ table.old.config }
    ensures rest { AtRest table.new }
    ensures room { vec_capacity granted.new ≡ vec_capacity granted.old }
{
    table.keeps_laws();
    if lacks_room(table, resource) {
        granted.clear();
        return Err(Refusal::CountsExhausted);
    }
    match table.acquire(key, resource) {
        Ok(Acquired::Granted) => Ok(Locked::Granted),
        Ok(Acquired::Waits { holder, .. }) => Ok(settle_waiter(table, key, holder)),
        Err(refusal) => {
            granted.clear();
            Err(refusal)
        }
    }
}

/// Returns whether somebody owns the resource, and a wait for it and the settle after it can no longer be counted. Far below the limit of the
/// counts one test says that they can.
#[inline]
fn lacks_room(table: &Table, resource: u32) -> bool
    ensures { result ≡ (not (has_room table.now) && is_owned table.now resource) }
{
    let totals = table.totals();
    if (totals.accepted >= FAR_BELOW_LIMIT) | (totals.verdicts >= FAR_BELOW_LIMIT) {
        return lacks_room_near_limit(table, resource);
    }
    false
}

/// `lacks_room`, by the limit itself.
#[inline(never)]
fn lacks_room_near_limit(table: &Table, resource: u32) -> bool
    ensures { result ≡ (not (has_room table.now) && is_owned table.now resource) }
{
    !has_room(table) && is_owned(table, resource)
}

/// Returns whether the resource has an owner.
fn is_owned(table: &Table, resource: u32) -> bool
    ensures { result ≡ is_owned table.now resource }
{
    matches!(table.owner(resource), Ok(Some(_)))
}

/// Settles the table once a transaction waits for the holder. If the transaction has a verdict then, it takes back its wait.
#[inline(never)]
fn settle_waiter(table: &mut Table, key: Key, holder: Key) -> Locked
    requires room { counts_exhausted table.old ≡ false }
    requires closer { (s : TableState) (answer : SettledValue) → Step Settle table.old (Ok answer) s → IsFalse (nat_eq answer.verdicts 0) → MayTakeBack s key }
    ensures { (s : TableState) × (answer : SettledValue) × Step Settle table.old (Ok answer) s × ToldBy s answer key holder result table.new }
{
    let settled = settle(table);
    if settled.verdicts == 0 {
        Locked::Waits { holder }
    } else {
        table.take_back(key);
        Locked::Deadlock { holder }
    }
}
