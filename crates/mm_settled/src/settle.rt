//! A settle that is not refused, and when one is needed.
ghost use Rattle.std.specs.Prelude.{◌≡◌, ◌↔◌, false, IsFalse};
ghost use Rattle.mm_rules.specs.Event.{Step, Settle, counts_exhausted};
ghost use Rattle.mm_settled.specs.Calls.{has_room, NoneWaits};
ghost use Rattle.mm_settled.specs.private.Lists.{ComesToRest};

use crate::Table;
use mm_limits::COUNT_LIMIT;
use mm_table::Settled;

/// Returns whether an event and a settle can be counted.
#[inline]
pub fn has_room(table: &Table) -> bool
    ensures { result ≡ has_room table.now }
{
    let totals = table.totals();
    totals.accepted < COUNT_LIMIT - 1 && totals.verdicts < COUNT_LIMIT
}

/// Settles a table of which one more event can be counted.
pub fn settle(table: &mut Table) -> Settled
    requires { counts_exhausted table.old ≡ false }
    ensures { Step Settle table.old (Ok result) table.new }
{
    let Ok(settled) = table.settle() else {
        return Settled {
            raises: 0,
            verdicts: 0,
        };
    };
    settled
}

/// Settles such a table if one of the woken waits.
pub fn come_to_rest(table: &mut Table, woken: &[u32])
    requires { counts_exhausted table.old ≡ false }
    ensures { ComesToRest table.old woken.now table.new }
{
    if any_waits(table, woken) {
        settle(table);
    }
}

/// Returns whether one of these processes waits.
fn any_waits(table: &Table, processes: &[u32]) -> bool
    ensures { IsFalse result ↔ NoneWaits table.now processes.now }
{
    for process in processes {
        if table.holder(*process).is_some() {
            return true;
        }
    }
    false
}
