//! One client on a table that nobody shares.

use crate::tests::passes::passes;
use mm_shared::{Config, Key};
use mm_table::{Table, Totals};
use mm_workers::{Client, End, SharedGate, shared_gates};
use mm_workload::WorkStep;
use std::alloc::Global;
use std::sync::Wait;

/// A client's steps and turns, how it ends, how many events the table has counted then, and whether another transaction owns its one resource.
type Case = (&'static [WorkStep], u64, End, u64, bool);

const ACQUIRE: WorkStep = WorkStep::Acquire(0);

static CASES: [Case; 4] = [
    (&[ACQUIRE, WorkStep::Release(0)], 1, End::Finished, 4, false),
    (&[WorkStep::Acquire(5)], 1, End::Refused(2), 2, false),
    (&[ACQUIRE, ACQUIRE], 1, End::Refused(4), 3, false),
    (&[ACQUIRE], 4, End::Spent, 10, true),
];

/// The other transaction.
const OTHER: Key = Key {
    process: 0,
    generation: 1,
};

/// A table with a process for each transaction.
fn table(alloc: Global, is_owned: bool) -> Option<Table> {
    let config = Config {
        processes: 1 + u32::from(is_owned),
        resources: 1,
        label_limit: 9,
        generation_limit: 9,
    };
    let mut table = Table::open(alloc, config).ok()?;
    if is_owned {
        let _ = table.begin();
        let _ = table.acquire(OTHER, 0);
    }
    Some(table)
}

/// Whether the table has counted so many events, and nobody owns the resource but the other transaction.
fn is_left_so(table: &Table, accepted: u64, is_owned: bool) -> bool {
    let totals = Totals {
        accepted,
        verdicts: 0,
        aborts: 0,
    };
    let owner = if is_owned { Some(OTHER) } else { None };
    table.totals() == totals && table.owner(0) == Ok(owner)
}

/// Whether the client ends so on this table.
fn ends_so<R: Wait>(
    table: Table,
    gate: SharedGate<'_, R>,
    work: Vec<WorkStep>,
    case: &Case,
) -> bool {
    let (_, turns, end, accepted, is_owned) = *case;
    let mut client = Client::new(table, gate, work, turns);
    let came = client.run();
    let table = client.into_steps();
    let is_right = came == end && is_left_so(&table, accepted, is_owned);
    drop(table);
    is_right
}

/// The same, and whether it leaves once.
fn is_right<R: Wait>(rt: &R, alloc: Global, case: &Case) -> Option<bool> {
    let mut gates = shared_gates(rt, alloc, 1, 2).ok()?;
    let (gate, other) = (gates.pop()?, gates.pop()?);
    let work = case.0.to_vec(alloc).ok()?;
    let ends = ends_so(table(alloc, case.4)?, gate, work, case);
    Some(ends && other.counts().left == 1)
}

#[test]
fn a_client_on_a_table_alone(rt: HostRuntime) {
    for case in &CASES {
        let is_right = is_right(&rt, rt.alloc(), case) == Some(true);
        passes(&rt, "a_client_on_a_table_alone", is_right);
    }
}
