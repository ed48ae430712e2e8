//! Two threads that take the same two resources in opposite orders, by one shared table. If they meet, a cycle of waits is closed, and
//! one of the two gets a verdict and is aborted; else both finish. It prints what is so either way.
//!
//! - `transaction`: what each thread does.
#![tactic(auto)]

ghost use Rattle.std.specs.Prelude.{◌≡◌, ◌+◌, IfSome};
ghost use Rattle.example_two_threads.specs.Ending.{aborts_of};

mod transaction;

use mm_shared::{CloseRefused, Config, Name, Pass, Prepared, Report};
use std::io;
use std::marker::Brand;
use std::sync::Wait;
use std::sync::ledger::Ledger;
use std::thread::{Threads, join};
use transaction::{Ending, transaction};

/// What came of the two threads.
#[derive(Drop)]
struct Outcome {
    first: Ending,
    second: Ending,
    report: Report,
}

/// Runs both threads, each with a pass of its own, puts the passes together again and closes the table.
fn run_both<
    N: Name + Send + Sync,
    A: Ledger + Send + Sync,
    V: Ledger + Send + Sync,
    B: Ledger + Send + Sync,
    R: Threads + Wait + Sync,
>(rt: &R, prepared: Prepared) -> Option<Outcome>
    requires board { prepared.board ≡ N.board }
    requires accepted { (prepared.accepted.name ≡ A.name) × (prepared.accepted.parts ≡ A.parts) }
    requires verdicts { (prepared.verdicts.name ≡ V.name) × (prepared.verdicts.parts ≡ V.parts) }
    requires aborts { (prepared.aborts.name ≡ B.name) × (prepared.aborts.parts ≡ B.parts) }
    ensures { IfSome result (λ outcome. outcome.report.aborts ≡ aborts_of outcome.first + aborts_of outcome.second) }
{
    let (table, mut pass) = prepared.open::<N, A, V, B>();
    let other = pass.split(&table, 1);
    let shared = &table;
    let (one, two) = join(
        rt,
        || -> (Ending, Pass<N, A, V, B>)
            requires { pass.aborts ≡ 0 }
            ensures { result.1.aborts ≡ aborts_of result.0 }
        { transaction(rt, shared, pass, 0, 1) },
        || -> (Ending, Pass<N, A, V, B>)
            requires { other.aborts ≡ 0 }
            ensures { result.1.aborts ≡ aborts_of result.0 }
        { transaction(rt, shared, other, 1, 0) },
    );
    let (first, mut pass) = one;
    let (second, other) = two;
    pass.join(&table, other);
    match table.close(pass) {
        Ok(report) => Some(Outcome {
            first,
            second,
            report,
        }),
        Err(CloseRefused { .. }) => None,
    }
}

fn main(rt: HostRuntime) -> io::Result<()> {
    let config = Config {
        processes: 2,
        resources: 2,
        label_limit: 1_000_000,
        generation_limit: 9,
    };
    let Ok(prepared) = Prepared::new(rt.alloc(), config) else {
        return println!(rt; "no memory");
    };
    let Some(outcome) = run_both::<Brand, Brand, Brand, Brand, _>(&rt, prepared) else {
        return println!(rt; "a pass was lost");
    };
    let both_ended = outcome.first != Ending::Aborted || outcome.second != Ending::Aborted;
    let counted = outcome.report.verdicts == outcome.report.aborts;
    println!(rt; "at most one aborted: {both_ended}, each verdict led to an abort: {counted}")
}
