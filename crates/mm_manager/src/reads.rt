//! What can be read of a manager.
ghost use Rattle.std.specs.Prelude.{◌≡◌, Some, IsSome};
ghost use Rattle.mm_rules.specs.TableState.{owner_of};
ghost use Rattle.mm_manager.specs.Reads.{HasStatus, wait_at};
ghost use Rattle.mm_manager.specs.private.Reads.{unnamed};

use crate::numbers::owner_of;
use crate::{Key, Refusal, Status, Wait};
use mm_settled::Table;
use mm_table::Mode;

/// Returns what a transaction does.
pub fn status(table: &Table, key: Key) -> Result<Status, Refusal>
    ensures { HasStatus (unnamed table.now) key result }
{
    table.keeps_laws();
    let Ok(state) = table.state(key) else {
        return Err(Refusal::NoTransaction);
    };
    match state.mode {
        Mode::Active => Ok(Status::Active),
        Mode::Waiting(number) | Mode::Convicted(number) => Ok(Status::Waiting {
            number,
            holder: holder(table, number),
        }),
    }
}

/// Returns the owner of a number that is owned.
fn holder(table: &Table, number: u32) -> Key
    requires { IsSome (owner_of table.now number) }
    ensures { owner_of table.now number ≡ Some result }
{
    match owner_of(table, number) {
        Some(key) => key,
        None => unreachable!(),
    }
}

/// For what a process waits, and whose that is.
pub fn wait_at(table: &Table, process: u32) -> Option<Wait>
    ensures { result ≡ wait_at table.now process }
{
    table.keeps_laws();
    let key = table.tenant(process)?;
    let number = match table.state(key).ok()?.mode {
        Mode::Active => return None,
        Mode::Waiting(number) | Mode::Convicted(number) => number,
    };
    let holder = owner_of(table, number)?;
    Some(Wait {
        key,
        number,
        holder,
    })
}
