//! A table that threads share. `on_a_table` opens one for each piece of work, under names of its own, lends it, and closes it: so the
//! tests here own no table.
ghost use Rattle.std.specs.Prelude.{◌≡◌};

mod look;
mod threads;

use crate::tests::rows::beside_a_table;
use crate::tests::same::same;
use look::Step;
use mm_shared::{CloseRefused, Config, Name, Pass, Prepared, Refusal, Report, SharedTable};
use std::alloc::Global;
use std::marker::Brand;
use std::process::Abort;
use std::sync::Wait;
use std::sync::ledger::Ledger;
use std::test::Fail;
use std::thread::Threads;
use test_support::Row;
use threads::Pair;

/// How many parts the pass has that is split off at the opening.
const PARTS: u64 = 1000;

/// This many processes and resources, with labels and keys that last for any test.
pub fn config(processes: u32, resources: u32) -> Config {
    Config {
        processes,
        resources,
        label_limit: 1_000_000,
        generation_limit: u32::MAX,
    }
}

/// Makes calls, and looks at the board.
fn make_all<N: Name, A: Ledger, V: Ledger, B: Ledger, R: Wait + Abort>(
    rt: &R,
    alloc: Global,
    table: &SharedTable<N, A, V, B>,
    pass: &mut Pass<N, A, V, B>,
    other: &mut Pass<N, A, V, B>,
    steps: &[Step],
) {
    for step in steps {
        step.make(rt, alloc, table, pass, other);
    }
}

/// What is done with a table, by two passes that have all its parts together.
#[derive(Clone, Copy)]
pub enum Work {
    /// The calls of a script.
    Script(&'static Row),
    /// Calls, looks at the board, and what the table has counted then.
    Steps(&'static [Step], Report),
    /// The same, and then what two threads do, each with a pass.
    Together(&'static [Step], Pair, Report),
}

impl Work {
    /// Does the work, and returns what the table is to have counted.
    fn done<
        N: Name + Send + Sync,
        A: Ledger + Send + Sync,
        V: Ledger + Send + Sync,
        B: Ledger + Send + Sync,
        R: Threads + Wait + Abort + Sync,
    >(
        self,
        rt: &R,
        alloc: Global,
        table: &SharedTable<N, A, V, B>,
        pass: &mut Pass<N, A, V, B>,
        other: &mut Pass<N, A, V, B>,
    ) -> Report {
        match self {
            Work::Script(row) => beside_a_table(rt, alloc, table, pass, row),
            Work::Steps(steps, report) => {
                make_all(rt, alloc, table, pass, other, steps);
                report
            }
            Work::Together(steps, pair, report) => {
                make_all(rt, alloc, table, pass, other, steps);
                pair.run(rt, table, pass, other);
                report
            }
        }
    }
}

/// Closes the table. With one of its two passes alone that is refused, and gives back both the table and the pass.
fn closed<N: Name, A: Ledger, V: Ledger, B: Ledger, R: Wait + Abort>(
    rt: &R,
    table: SharedTable<N, A, V, B>,
    pass: Pass<N, A, V, B>,
    other: Pass<N, A, V, B>,
) -> Option<Report> {
    let Err(
        CloseRefused {
            refusal,
            table,
            mut pass,
        },
    ) = table.close(pass)
    else {
        return None;
    };
    same(rt, refusal, Refusal::SharesMissing);
    pass.join(&table, other);
    table.close(pass).ok()
}

/// Opens the table, does the work with two passes, and closes it.
fn on_named<
    N: Name + Send + Sync,
    A: Ledger + Send + Sync,
    V: Ledger + Send + Sync,
    B: Ledger + Send + Sync,
    R: Threads + Wait + Abort + Sync,
>(rt: &R, alloc: Global, prepared: Prepared, work: Work)
    requires board { prepared.board ≡ N.board }
    requires accepted { (prepared.accepted.name ≡ A.name) × (prepared.accepted.parts ≡ A.parts) }
    requires verdicts { (prepared.verdicts.name ≡ V.name) × (prepared.verdicts.parts ≡ V.parts) }
    requires aborts { (prepared.aborts.name ≡ B.name) × (prepared.aborts.parts ≡ B.parts) }
{
    let (table, mut pass) = prepared.open::<N, A, V, B>();
    let mut other = pass.split(&table, PARTS);
    let done = work.done(rt, alloc, &table, &mut pass, &mut other);
    same(rt, closed(rt, table, pass, other), Some(done));
}

/// Opens a table of this configuration, and does the work on it. Ends the test unless the table is closed with what the work is to make.
pub fn on_a_table<R: Threads + Wait + Abort + Sync>(
    rt: &R,
    alloc: Global,
    config: Config,
    work: Work,
) -> Result<(), Fail> {
    let prepared = Prepared::new(alloc, config)?;
    on_named::<Brand, Brand, Brand, Brand, R>(rt, alloc, prepared, work);
    Ok(())
}
