//! How a lock manager goes on from an abort: it wakes those that wait no longer.
ghost use Rattle.std.specs.Prelude.{◌≡◌, ◌≤◌, ℕ, Some, IsTrue, length, vec_capacity};
ghost use Rattle.mm_lists.specs.Members.{Among};
ghost use Rattle.mm_rules.specs.TableState.{is_waiting};
ghost use Rattle.mm_rules.specs.Event.{Step, Abort};
ghost use Rattle.mm_settle_lemmas.specs.Touched.{changed_processes};
ghost use Rattle.example_calls.specs.Wake.{active_key, active_keys};

use mm_table::{Key, Mode, Refusal, Table};

/// Aborts a transaction under a verdict, and lists in `woken`, in place of what it held, the keys of those to wake, by rising process:
/// of the processes that the abort changed, which stand then in `changed`, those that are live and do not wait. None if the call
/// is refused.
///
/// The caller wakes each of them. Each live transaction that waited before the call and does not wait after it is among them.
/// `changed` and `woken` have room for each process, and no memory is taken.
///
/// Refused as `Table::abort` is.
pub fn abort_and_wake(
    table: &mut Table,
    key: Key,
    changed: &mut Vec<u32>,
    woken: &mut Vec<Key>,
) -> Result<(), Refusal>
    requires room_to_list { table.old.config.processes ≤ vec_capacity changed.old }
    requires room_to_wake { table.old.config.processes ≤ vec_capacity woken.old }
    ensures step { Step (Abort key) table.old result table.new }
    ensures changed { changed.new.items ≡ changed_processes table.old table.new }
    ensures woken { woken.new.items ≡ active_keys table.new (changed_processes table.old table.new) }

    // Whoever waited and is active now is one of those to wake.
    ensures all { (n : ℕ) (k : Key) → IsTrue (is_waiting table.old n) → active_key table.new n ≡ Some k → Among k woken.new.items }
    ensures room_to_list { vec_capacity changed.new ≡ vec_capacity changed.old }
    ensures room_to_wake { vec_capacity woken.new ≡ vec_capacity woken.old }
{
    table.keeps_laws();
    let answer = table.abort_waking(key, changed);
    list_active(table, changed, woken);
    answer
}

/// Lists the keys of those of `processes` that live and wait for nothing, in this order, in place of what `keys` held.
fn list_active(table: &Table, processes: &[u32], keys: &mut Vec<Key>)
    requires { length processes.now ≤ vec_capacity keys.old }
    ensures keys { keys.new.items ≡ active_keys table.now processes.now }
    ensures room { vec_capacity keys.new ≡ vec_capacity keys.old }
{
    keys.clear();
    for process in processes {
        if let Some(key) = active_key(table, *process) {
            keys.push_reserved(key);
        }
    }
}

/// The key of the transaction of this process, if it lives and waits for nothing.
fn active_key(table: &Table, process: u32) -> Option<Key>
    ensures { result ≡ active_key table.now process }
{
    let key = table.tenant(process)?;
    let state = table.state(key).ok()?;
    match state.mode {
        Mode::Active => Some(key),
        Mode::Waiting(_) | Mode::Convicted(_) => None,
    }
}
