//! Replies that list something: the waits that a request ended, and the wait-for graph.
ghost use Rattle.std.specs.Prelude.{◌≡◌, ◌≤◌, ◌+◌, ◌++◌, ℕ, List, length, OnOk, IsOkUnless};
ghost use Rattle.arrayvec.specs.ArrayVec.{array_vec_len};
ghost use Rattle.mm_lines.specs.Output.{Prints, Writes};
ghost use Rattle.mm_manager.specs.Reads.{waits_of};
ghost use Rattle.mm_service.specs.Text.{edge_lines, effect_text, graph_text, told_line, told_text};

use crate::effect::Effect;
use crate::reply::{MAX_NAMED, MAX_REPLY, end_line, name_at, print_edge, print_granted};
use mm_lines::{Fault, OUTPUT_LEN, Output, make_room, print_number};
use mm_manager::{Grant, LockManager};
use std::io::Write;

/// Writes what a request caused for others, a line for each wait that it ended.
pub fn write_effect<W: Write>(
    manager: &LockManager,
    effect: Effect,
    output: &mut Output,
    writer: &mut W,
) -> Result<(), Fault>
    ensures written { (lost : List ℕ) × Writes (W.contents writer.old) (W.contents writer.new) (output.old.items ++ effect_text manager.now effect) lost
        × OnOk result (lost ≡ output.new.items) }
    ensures fault { IsOkUnless result Fault.Write }
{
    match effect {
        Effect::Nothing | Effect::Deadlock { .. } => Ok(()),
        Effect::EndedWaits | Effect::Ended(_) => write_told(manager, output, writer),
    }
}

/// Writes whose waits the last call ended, a line each.
fn write_told<W: Write>(
    manager: &LockManager,
    output: &mut Output,
    writer: &mut W,
) -> Result<(), Fault>
    ensures written { (lost : List ℕ) × Writes (W.contents writer.old) (W.contents writer.new) (output.old.items ++ told_text manager.now) lost
        × OnOk result (lost ≡ output.new.items) }
    ensures fault { IsOkUnless result Fault.Write }
{
    for grant in manager.granted() {
        make_room(output, MAX_NAMED, writer)?;
        print_told(manager, output, *grant);
    }
    Ok(())
}

/// A line about a wait that a grant ended.
pub fn print_told(manager: &LockManager, output: &mut Output, grant: Grant)
    requires { array_vec_len output.old + MAX_NAMED ≤ OUTPUT_LEN }
    ensures { Prints output.old.items (told_line manager.now grant) MAX_NAMED output.new.items }
{
    print_granted(output, grant.key, name_at(manager, grant.resource));
}

/// Writes how many transactions wait, and a line for each of them.
pub fn write_graph<W: Write>(
    manager: &LockManager,
    output: &mut Output,
    writer: &mut W,
) -> Result<(), Fault>
    requires { array_vec_len output.old + MAX_REPLY ≤ OUTPUT_LEN }
    ensures written { (lost : List ℕ) × Writes (W.contents writer.old) (W.contents writer.new) (output.old.items ++ graph_text manager.now) lost
        × OnOk result (lost ≡ output.new.items) }
    ensures fault { IsOkUnless result Fault.Write }
{
    print_number(output, b"graph ", count_waits(manager));
    end_line(output);
    write_edges(manager, output, writer)
}

/// Returns how many transactions wait. `O(transactions)`.
pub fn count_waits(manager: &LockManager) -> u64
    ensures { result ≡ length (waits_of manager.now.table) }
{
    manager.keeps_laws();
    manager.graph().count() as u64
}

/// Writes a line for each wait.
fn write_edges<W: Write>(
    manager: &LockManager,
    output: &mut Output,
    writer: &mut W,
) -> Result<(), Fault>
    ensures written { (lost : List ℕ) × Writes (W.contents writer.old) (W.contents writer.new) (output.old.items ++ edge_lines manager.now (waits_of manager.now.table)) lost
        × OnOk result (lost ≡ output.new.items) }
    ensures fault { IsOkUnless result Fault.Write }
{
    for wait in manager.graph() {
        make_room(output, MAX_NAMED, writer)?;
        print_edge(output, wait.key, name_at(manager, wait.number), wait.holder);
    }
    Ok(())
}
