//! One transmitter on a table that nobody shares, and on a shared one.
ghost use Rattle.std.specs.Prelude.{◌≡◌};

use crate::tests::passes::passes;
use mm_shared::{Config, Key, Name, Pass, Prepared, SharedTable};
use mm_table::{Table, Totals};
use mm_workers::{Desk, Gate, Report, SharedGate, Steps, Transmitter, shared_gates};
use std::alloc::Global;
use std::marker::Brand;
use std::sync::Wait;
use std::sync::ledger::Ledger;
use std::test::Fail;

/// The configuration of the tables: four processes and four resources.
const FOUR: Config = Config {
    processes: 4,
    resources: 4,
    label_limit: 100,
    generation_limit: 9,
};

/// The first key of a process.
fn key(process: u32) -> Key {
    Key {
        process,
        generation: 1,
    }
}

/// So many transactions each own the resource of their process, and then wait for that of the next one, in their order.
fn wait_in_a_ring<S: Steps>(steps: &mut S, count: u32) {
    for _ in 0..count {
        let _ = steps.begin();
    }
    for process in 0..count {
        let _ = steps.acquire(key(process), process);
    }
    for process in 0..count {
        let next = process.wrapping_add(1);
        let _ = steps.acquire(key(process), if next < count { next } else { 0 });
    }
}

/// Runs a transmitter for four processes, and gives back the table.
fn transmit<S: Steps + Drop, G: Gate + Drop>(steps: S, gate: G, turns: u64) -> S {
    let mut transmitter = Transmitter::new(steps, gate, 4, turns);
    transmitter.run();
    transmitter.into_steps()
}

/// A gate that is not over.
fn gate<R: Wait>(rt: &R, alloc: Global) -> Option<SharedGate<'_, R>> {
    shared_gates(rt, alloc, 1, 1).ok()?.pop()
}

/// What a ring of three shows: the public labels, by their counters and processes, and how many verdicts there are.
type Shown = ((u64, u32), (u64, u32), (u64, u32), u64);

/// After no turn, one turn and so on, as docs/ALGORITHM.md shows it.
static TURNS: [Shown; 7] = [
    ((1, 0), (1, 1), (2, 2), 0),
    ((1, 1), (1, 1), (2, 2), 0),
    ((1, 1), (2, 2), (2, 2), 0),
    ((1, 1), (2, 2), (2, 2), 0),
    ((2, 2), (2, 2), (2, 2), 0),
    ((2, 2), (2, 2), (2, 2), 0),
    ((2, 2), (2, 2), (2, 2), 1),
];

/// Whether the table has this label for the transaction of a process.
fn has(table: &Table, process: u32, label: (u64, u32)) -> bool {
    match table.state(key(process)) {
        Ok(state) => (state.public.counter(), state.public.process()) == label,
        Err(_) => false,
    }
}

/// Whether the table shows that.
fn shows(table: &Table, shown: &Shown) -> bool {
    let (first, second, third, verdicts) = *shown;
    table.totals().verdicts == verdicts
        && has(table, 0, first)
        && has(table, 1, second)
        && has(table, 2, third)
}

/// Whether a ring of three shows that after so many turns.
fn goes_round<R: Wait>(rt: &R, alloc: Global, turns: u64, shown: &Shown) -> Option<bool> {
    let gate = gate(rt, alloc)?;
    let mut table = Table::open(alloc, FOUR).ok()?;
    wait_in_a_ring(&mut table, 3);
    let table = transmit(table, gate, turns);
    let is_right = shows(&table, shown);
    drop(table);
    Some(is_right)
}

#[test]
fn a_ring_of_three_on_a_table_alone(rt: HostRuntime) {
    let mut turns: u64 = 0;
    for shown in &TURNS {
        let goes = goes_round(&rt, rt.alloc(), turns, shown) == Some(true);
        passes(&rt, "a_ring_of_three_on_a_table_alone", goes);
        turns = turns.saturating_add(1);
    }
}

/// Two wait for each other, and a transmitter makes four turns. What the table has counted then.
fn four_turns_alone<R: Wait>(rt: &R, alloc: Global) -> Option<Totals> {
    let gate = gate(rt, alloc)?;
    let mut table = Table::open(alloc, FOUR).ok()?;
    wait_in_a_ring(&mut table, 2);
    let table = transmit(table, gate, 4);
    let totals = table.totals();
    drop(table);
    Some(totals)
}

#[test]
fn a_deadlock_on_a_table_alone(rt: HostRuntime) {
    let counted = Totals {
        accepted: 9,
        verdicts: 1,
        aborts: 0,
    };
    let totals = four_turns_alone(&rt, rt.alloc());
    passes(&rt, "a_deadlock_on_a_table_alone", totals == Some(counted));
}

/// Two wait for each other at a desk of a shared table, and a transmitter makes four turns there. Gives back the pass.
fn make_four_turns<N: Name + Drop, A: Ledger + Drop, V: Ledger + Drop, B: Ledger + Drop, R: Wait>(
    rt: &R,
    table: &SharedTable<N, A, V, B>,
    pass: Pass<N, A, V, B>,
    gate: SharedGate<'_, R>,
) -> Pass<N, A, V, B> {
    let mut desk = Desk::new(rt, table, pass);
    wait_in_a_ring(&mut desk, 2);
    transmit(desk, gate, 4).into_pass()
}

/// What the table reports of that.
fn four_turns_at_a_desk<
    N: Name + Drop,
    A: Ledger + Drop,
    V: Ledger + Drop,
    B: Ledger + Drop,
    R: Wait,
>(rt: &R, prepared: Prepared, gate: SharedGate<'_, R>) -> Option<Report>
    requires board { prepared.board ≡ N.board }
    requires accepted { (prepared.accepted.name ≡ A.name) × (prepared.accepted.parts ≡ A.parts) }
    requires verdicts { (prepared.verdicts.name ≡ V.name) × (prepared.verdicts.parts ≡ V.parts) }
    requires aborts { (prepared.aborts.name ≡ B.name) × (prepared.aborts.parts ≡ B.parts) }
{
    let (table, pass) = prepared.open::<N, A, V, B>();
    let pass = make_four_turns(rt, &table, pass, gate);
    table.into_report(pass)
}

/// The first turn takes over the label of the second process, which has its own back then and gets a verdict; the third turn comes to the end;
/// and the fourth finds no verdict for the first process. So three events are accepted after two begins and four acquires.
#[test]
fn a_deadlock_on_a_shared_table(rt: HostRuntime) -> Result<(), Fail> {
    let gate = gate(&rt, rt.alloc()).ok_or("a gate")?;
    let prepared = Prepared::new(rt.alloc(), FOUR)?;
    let report = four_turns_at_a_desk::<Brand, Brand, Brand, Brand, _>(&rt, prepared, gate);
    let counted = Report {
        accepted: 9,
        verdicts: 1,
        aborts: 0,
    };
    passes(&rt, "a_deadlock_on_a_shared_table", report == Some(counted));
    Ok(())
}
