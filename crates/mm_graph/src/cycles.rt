//! The cycle of waits that a process is on. This is a search for display.
ghost use Rattle.std.specs.Prelude.{◌≡◌, ◌≤◌, ◌↔◌, IsTrue, vec_capacity};
ghost use Rattle.mm_rules.specs.TableState.{graph_of};
ghost use Rattle.mm_rules.specs.Graph.{Cycle};
ghost use Rattle.mm_rules.specs.Victims.{IsOnCycle};

use mm_table::Table;

/// Returns whether the transaction of this process is on a cycle of waits. If it is, `members` has that cycle in place of what it held: the holder
/// of the process, the holder of that one, and so on, up to the process itself, each once. `members` has room for each process, and no
/// memory is taken.
///
/// It follows the waits, at most one for each process.
pub fn cycle_through(table: &Table, process: u32, members: &mut Vec<u32>) -> bool
    requires { table.now.config.processes ≤ vec_capacity members.old }
    ensures found { IsTrue result → Cycle (graph_of table.now) process members.new.items }
    ensures exact { IsTrue result ↔ IsOnCycle table.now process }
    ensures room { vec_capacity members.new ≡ vec_capacity members.old }
{
    table.keeps_laws();
    let processes = table.config().processes as usize;
    members.clear();
    let mut place = process;
    while members.len() < processes {
        let Some(holder) = table.holder(place) else {
            return false;
        };
        members.push_reserved(holder);
        if holder == process {
            return true;
        }
        place = holder;
    }
    false
}
