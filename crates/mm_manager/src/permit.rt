//! What a call is refused for before the table is asked.
ghost use Rattle.std.specs.Prelude.{◌≡◌, ◌≢◌, ◌<◌, ◌-◌, ◌/◌, ◌^◌, Ok, Err};
ghost use Rattle.mm_manager.specs.Permit.{first_refusal, counts_left, labels_left, may_ask, may_cancel, may_count, may_name, may_own, may_request, may_wait};
ghost use Rattle.mm_manager.specs.Totals.{all_of};
ghost use Rattle.mm_manager.specs.private.Requests.{may_ask_more};

use crate::{Key, Refusal, Totals};
use mm_limits::COUNT_LIMIT;
use mm_names::Names;
use mm_settled::Table;
use mm_table::Mode;

/// If this many events were counted, no transaction begins, and no name is asked for or adopted. What is left below the table's limit is for the ends
/// of those that are live then.
const EVENT_LIMIT: u64 = COUNT_LIMIT - (1 << 26);

/// Returns whether a transaction may ask for something: its key is live, and it does not wait.
pub fn may_ask(table: &Table, key: Key) -> Result<(), Refusal>
    ensures { result ≡ may_ask table.now key }
{
    let Ok(state) = table.state(key) else {
        return Err(Refusal::NoTransaction);
    };
    match state.mode {
        Mode::Active => Ok(()),
        Mode::Waiting(_) | Mode::Convicted(_) => Err(Refusal::Waiting),
    }
}

/// Returns why a transaction may not ask for anything.
#[inline(never)]
pub fn why_not_asked(table: &Table, key: Key) -> Refusal
    requires { may_ask table.now key ≢ Ok tt }
    ensures { may_ask table.now key ≡ Err result }
{
    let Err(refusal) = may_ask(table, key) else {
        unreachable!();
    };
    refusal
}

/// Returns whether a transaction may take back its wait: its key is live, and it waits.
pub fn may_cancel(table: &Table, key: Key) -> Result<(), Refusal>
    ensures { result ≡ may_cancel table.now key }
{
    let Ok(state) = table.state(key) else {
        return Err(Refusal::NoTransaction);
    };
    match state.mode {
        Mode::Active => Err(Refusal::NotWaiting),
        Mode::Waiting(_) | Mode::Convicted(_) => Ok(()),
    }
}

/// Returns whether a begin or a request may still be counted; ends always may.
pub fn may_count(table: &Table) -> Result<(), Refusal>
    ensures { result ≡ may_count table.now }
{
    if table.totals().accepted < EVENT_LIMIT {
        Ok(())
    } else {
        Err(Refusal::CountsFull)
    }
}

/// Returns whether a transaction may own one name more: its key is live, and an event may still be counted.
pub fn may_own(table: &Table, key: Key) -> Result<(), Refusal>
    ensures { result ≡ may_own table.now key }
{
    if table.state(key).is_err() {
        return Err(Refusal::NoTransaction);
    }
    may_count(table)
}

/// Returns whether a transaction may ask for a name: it may ask, an event may be counted, and these bytes can be a name.
pub fn may_request(table: &Table, names: &Names, key: Key, name: &[u8]) -> Result<(), Refusal>
    ensures { result ≡ may_request table.now names.now.name_bytes key name.now }
{
    may_ask(table, key)?;
    may_count(table)?;
    may_name(names, name)
}

/// Returns how many events can be counted before `CountsFull`.
pub fn counts_left(table: &Table) -> u64
    ensures { result ≡ counts_left table.now }
{
    EVENT_LIMIT.saturating_sub(table.totals().accepted)
}

/// Returns how many requests can meet another owner before `LabelsFull`.
pub fn labels_left(table: &Table, totals: &Totals) -> u64
    requires { all_of totals.now < 2 ^ 64 }
    ensures { result ≡ labels_left table.now totals.now }
{
    (table.config().label_limit / 2).saturating_sub(totals.waits + totals.deadlocks)
}

/// Returns why a request is refused, whatever the name is that it asks for.
#[inline(never)]
pub fn why_refused(table: &Table, key: Key) -> Refusal
    requires { may_ask_more table.now key ≢ Ok tt }
    ensures { may_ask_more table.now key ≡ Err result }
{
    match may_ask(table, key) {
        Err(refusal) => refusal,
        Ok(()) => Refusal::CountsFull,
    }
}

/// Returns the first refusal of a request: of the transaction, of the counts, or else the one that was found.
#[inline(never)]
pub fn refused_first(table: &Table, key: Key, found: Refusal) -> Refusal
    ensures { Err result ≡ first_refusal (may_ask_more table.now key) (Err found) }
{
    if let Err(refusal) = may_ask(table, key) {
        return refusal;
    }
    match may_count(table) {
        Err(refusal) => refusal,
        Ok(()) => found,
    }
}

/// Returns whether there is a label left for one more wait, and for the hand-overs after it.
pub fn may_wait(table: &Table, totals: &Totals) -> bool
    requires { all_of totals.now < 2 ^ 64 }
    ensures { result ≡ may_wait table.now totals.now }
{
    totals.waits + totals.deadlocks < table.config().label_limit / 2
}

/// Returns whether these bytes can be a name.
pub fn may_name(names: &Names, name: &[u8]) -> Result<(), Refusal>
    ensures { result ≡ may_name names.now.name_bytes name.now }
{
    if name.is_empty() {
        return Err(Refusal::NameEmpty);
    }
    if name.len() > names.name_bytes() as usize {
        return Err(Refusal::NameTooLong);
    }
    Ok(())
}
