//! The worked scripts, made on a shared table. A table beside it, whose replies to them the program's tests compare, says what is to be counted.

use crate::tests::call::{call_of, is_told, on_shared};
use crate::tests::same::same;
use crate::tests::shared::{Work, on_a_table};
use mm_script::{Call, make};
use mm_shared::{Config, Name, Pass, Report, SharedTable};
use mm_table::Table;
use std::alloc::Global;
use std::process::Abort;
use std::sync::Wait;
use std::sync::ledger::Ledger;
use std::test::Fail;
use std::thread::Threads;
use test_support::{Row, all_rows};

/// Ends the test unless each process has the same tenant in both tables.
fn has_same_tenants<N: Name, A: Ledger, V: Ledger, B: Ledger, R: Wait + Abort>(
    rt: &R,
    shared: &SharedTable<N, A, V, B>,
    pass: &mut Pass<N, A, V, B>,
    table: &Table,
) {
    for process in 0..shared.processes() {
        same(rt, shared.tenant(rt, pass, process), table.tenant(process));
    }
}

/// Makes the calls of a script on both tables, the first of which opens the table beside the shared one. That one's replies are compared, and after
/// each call the tenants of both.
fn make_all<N: Name, A: Ledger, V: Ledger, B: Ledger, R: Wait + Abort>(
    rt: &R,
    alloc: Global,
    shared: &SharedTable<N, A, V, B>,
    pass: &mut Pass<N, A, V, B>,
    table: &mut Option<Table>,
    row: &Row,
) {
    let mut replies = row.output.lines();
    for line in row.input.lines() {
        let call = call_of(line).expect(rt, "a call");
        let reply = replies.next().expect(rt, "a reply");
        let _beside = make(table, alloc, call);
        if !matches!(call, Call::Totals | Call::Table { .. }) {
            is_told(rt, on_shared(rt, shared, pass, call), reply);
        }
        let table = table.as_ref().expect(rt, "a table");
        has_same_tenants(rt, shared, pass, table);
    }
}

/// What a shared table is to report beside this table.
fn report_of(table: &Table) -> Report {
    let totals = table.totals();
    Report {
        accepted: totals.accepted,
        verdicts: totals.verdicts,
        aborts: totals.aborts,
    }
}

/// Makes the calls of a script on a shared table and on a table beside it. The shared one is to have counted the same at the end.
pub fn beside_a_table<N: Name, A: Ledger, V: Ledger, B: Ledger, R: Wait + Abort>(
    rt: &R,
    alloc: Global,
    shared: &SharedTable<N, A, V, B>,
    pass: &mut Pass<N, A, V, B>,
    row: &Row,
) -> Report {
    let mut table = None;
    make_all(rt, alloc, shared, pass, &mut table, row);
    let report = table.as_ref().map(|table| report_of(table));
    drop(table);
    report.expect(rt, "a table")
}

/// The configuration of the table that a line opens.
fn config_of(line: &str) -> Option<Config> {
    match call_of(line) {
        Some(Call::Table { config, .. }) => Some(config),
        _ => None,
    }
}

/// Opens a shared table for the script, and makes its calls.
fn on_both<R: Threads + Wait + Abort + Sync>(
    rt: &R,
    alloc: Global,
    row: &'static Row,
) -> Result<(), Fail> {
    let first = row.input.lines().next().ok_or("a line")?;
    let config = config_of(first).ok_or("a configuration")?;
    on_a_table(rt, alloc, config, Work::Script(row))
}

/// Those scripts that begin by opening a table and have no malformed line.
#[test]
fn shared_calls_answer_as_those_of_a_table(rt: HostRuntime) -> Result<(), Fail> {
    let [first, second] = all_rows();
    each_on_both(&rt, rt.alloc(), first)?;
    each_on_both(&rt, rt.alloc(), second)
}

fn each_on_both<R: Threads + Wait + Abort + Sync>(
    rt: &R,
    alloc: Global,
    rows: &'static [Row],
) -> Result<(), Fail> {
    for row in rows {
        if row.output.starts_with("ok\n") && !row.output.lines().any(|line| line == "malformed") {
            on_both(rt, alloc, row)?;
        }
    }
    Ok(())
}
