//! All workers of a workload, each on a thread of its own.
ghost use Rattle.std.specs.Prelude.{◌≡◌, ◌+◌, ◌≤◌, Err, OnOk, IfOk, IfErr, length, vec_len, count_by};
ghost use Rattle.mm_rules.specs.TableState.{IsInRange};
ghost use Rattle.mm_rules.specs.Event.{Opens};
ghost use Rattle.mm_counts.specs.Shares.{all_parts};
ghost use Rattle.mm_clients.specs.End.{is_aborted};

use crate::desk::Desk;
use crate::divisible::Divisible;
use crate::gather::{gather_clients, gather_transmitters};
use crate::job::{Ended, Stopped};
use crate::jobs::{client_jobs, transmitter_jobs};
use mm_clients::{EarlierEnds, End, Gate, Outcome, TalliedOutcome};
use mm_shared::{Name, Prepared, Refusal};
use mm_thread_jobs::run_jobs;
use mm_workload::Workload;
use std::alloc::{AllocError, Global};
use std::marker::Brand;
use std::sync::Wait;
use std::sync::ledger::Ledger;
use std::thread::Threads;

/// Runs all clients and transmitters of a workload at once, each on a thread of its own, on a table that is opened for them, and waits
/// until all have ended. A client makes its transactions one after another. There is one gate for each worker: those of the clients, in
/// their order, and then those of the transmitters.
///
/// Refused as `BadConfig` or `Memory`, as `Table::open` is; then no worker starts. Also refused as `Memory` if other memory is refused
/// or a thread cannot be started; those that run have ended then. Takes memory: `O(processes + resources + steps + workers)`.
pub fn run_threads<R: Threads + Wait + Sync, G: Gate + Send + Drop>(
    rt: &R,
    alloc: Global,
    workload: &Workload,
    gates: Vec<G>,
) -> Result<Outcome, Refusal>
    requires gates { vec_len gates ≡ length workload.now.clients + workload.now.transmitters }
    ensures each { IfOk result (λ outcome. vec_len outcome.ends ≡ length workload.now.clients) }
    ensures aborts { IfOk result (λ outcome. count_by is_aborted outcome.ends.items + outcome.earlier.aborted ≡ outcome.report.aborts) }
    ensures alone { IfOk result (λ outcome. workload.now.further.shape.transactions ≡ 1 → (outcome.earlier.finished ≡ 0) × (outcome.earlier.aborted ≡ 0)) }
    ensures in_range { OnOk result (IsInRange workload.now.config) }
    ensures refused { IfErr result (λ refusal. Opens workload.now.config (Err refusal)) }
{
    match run_tallied(rt, alloc, workload, gates) {
        Ok(TalliedOutcome { outcome, tally: _ }) => Ok(outcome),
        Err(refusal) => Err(refusal),
    }
}

/// `run_threads`, which also returns what the workers counted of the replies to their calls.
pub fn run_tallied<R: Threads + Wait + Sync, G: Gate + Send + Drop>(
    rt: &R,
    alloc: Global,
    workload: &Workload,
    gates: Vec<G>,
) -> Result<TalliedOutcome, Refusal>
    requires gates { vec_len gates ≡ length workload.now.clients + workload.now.transmitters }
    ensures each { IfOk result (λ ran. vec_len ran.outcome.ends ≡ length workload.now.clients) }
    ensures aborts { IfOk result (λ ran. count_by is_aborted ran.outcome.ends.items + ran.outcome.earlier.aborted ≡ ran.outcome.report.aborts) }
    ensures alone { IfOk result (λ ran. workload.now.further.shape.transactions ≡ 1 → (ran.outcome.earlier.finished ≡ 0) × (ran.outcome.earlier.aborted ≡ 0)) }
    ensures in_range { OnOk result (IsInRange workload.now.config) }
    ensures refused { IfErr result (λ refusal. Opens workload.now.config (Err refusal)) }
{
    let prepared = Prepared::new(alloc, workload.config())?;
    match run_on::<Brand, Brand, Brand, Brand, R, G>(rt, alloc, prepared, workload, gates) {
        Ok(ran) => Ok(ran),
        Err(_) => Err(Refusal::Memory),
    }
}

/// Runs them on the table that was prepared.
fn run_on<
    N: Name + Send + Sync,
    A: Ledger + Send + Sync,
    V: Ledger + Send + Sync,
    B: Ledger + Send + Sync,
    R: Threads + Wait + Sync,
    G: Gate + Send + Drop,
>(
    rt: &R,
    alloc: Global,
    prepared: Prepared,
    workload: &Workload,
    gates: Vec<G>,
) -> Result<TalliedOutcome, AllocError>
    requires board { prepared.board ≡ N.board }
    requires accepted { (prepared.accepted.name ≡ A.name) × (prepared.accepted.parts ≡ A.parts) }
    requires verdicts { (prepared.verdicts.name ≡ V.name) × (prepared.verdicts.parts ≡ V.parts) }
    requires aborts { (prepared.aborts.name ≡ B.name) × (prepared.aborts.parts ≡ B.parts) }
    requires gates { vec_len gates ≡ length workload.now.clients + workload.now.transmitters }
    ensures each { IfOk result (λ ran. vec_len ran.outcome.ends ≡ length workload.now.clients) }
    ensures aborts { IfOk result (λ ran. count_by is_aborted ran.outcome.ends.items + ran.outcome.earlier.aborted ≡ ran.outcome.report.aborts) }
    ensures alone { IfOk result (λ ran. workload.now.further.shape.transactions ≡ 1 → (ran.outcome.earlier.finished ≡ 0) × (ran.outcome.earlier.aborted ≡ 0)) }
{
    let (table, pass) = prepared.open::<N, A, V, B>();
    let mut desk = Desk::new(rt, &table, pass);
    let ended = ends_of(rt, alloc, &mut desk, workload, gates);
    let tally = desk.tally();
    let pass = desk.into_pass();
    let report = table.into_report(pass);
    let (ends, earlier) = ended?;
    match report {
        Some(report) => Ok(TalliedOutcome {
            outcome: Outcome {
                ends,
                earlier,
                report,
            },
            tally,
        }),
        None => unreachable!(),
    }
}

/// Runs them on this table, and lists how each client ended, with the ends of its transactions before. All parts are back then.
fn ends_of<S: Divisible + Send + Drop, R: Threads + Wait + Sync, G: Gate + Send + Drop>(
    rt: &R,
    alloc: Global,
    table: &mut S,
    workload: &Workload,
    gates: Vec<G>,
) -> Result<(Vec<End>, EarlierEnds), AllocError>
    requires gates { vec_len gates ≡ length workload.now.clients + workload.now.transmitters }
    requires all { ((S.shares table.old).parts ≡ all_parts) × ((S.shares table.old).aborts ≡ 0) }
    ensures each { IfOk result (λ ended. vec_len ended.0 ≡ length workload.now.clients) }
    ensures parts { OnOk result ((S.shares table.new).parts ≡ all_parts) }
    ensures aborts { IfOk result (λ ended. count_by is_aborted ended.0.items + ended.1.aborted ≡ (S.shares table.new).aborts) }
    ensures alone { IfOk result (λ ended. workload.now.further.shape.transactions ≡ 1 → (ended.1.finished ≡ 0) × (ended.1.aborted ≡ 0)) }
{
    let mut ends = Vec::with_capacity(alloc, workload.clients().len())?;
    let (ended, stopped) = run_workers(rt, alloc, table, workload, gates)?;
    let earlier = gather_clients(table, ended, &mut ends);
    gather_transmitters(table, stopped);
    checked_ends(workload, ends, earlier)
}

/// Returns the ends and these earlier ones. Never fails: the value that a thread returns carries only its type, so the proof needs this check
/// that there are no earlier ends if each client makes one transaction.
fn checked_ends(
    workload: &Workload,
    ends: Vec<End>,
    earlier: EarlierEnds,
) -> Result<(Vec<End>, EarlierEnds), AllocError>
    ensures same { IfOk result (λ own. (own.0 ≡ ends) × (own.1 ≡ earlier)) }
    ensures alone { IfOk result (λ own. workload.now.further.shape.transactions ≡ 1 → (own.1.finished ≡ 0) × (own.1.aborted ≡ 0)) }
{
    if workload.stream_of(1).count() == 0 && earlier != EarlierEnds::NONE {
        return Err(AllocError);
    }
    Ok((ends, earlier))
}

/// Gives each worker a part of the table, runs them all, and waits for them.
fn run_workers<S: Divisible + Send + Drop, R: Threads + Wait + Sync, G: Gate + Send + Drop>(
    rt: &R,
    alloc: Global,
    table: &mut S,
    workload: &Workload,
    mut gates: Vec<G>,
) -> Result<(Vec<Ended<S>>, Vec<Stopped<S>>), AllocError>
    requires gates { vec_len gates ≡ length workload.now.clients + workload.now.transmitters }
    requires all { ((S.shares table.old).parts ≡ all_parts) × ((S.shares table.old).aborts ≡ 0) }
    ensures each { IfOk result (λ done. vec_len done.0 ≡ length workload.now.clients) }
    ensures parts { IfOk result (λ done. (S.shares table.new).parts + vec_len done.0 + vec_len done.1 ≡ all_parts) }
    ensures aborts { (S.shares table.new).aborts ≡ 0 }
{
    let transmitter_gates = gates.split_off(workload.clients().len())?;
    let clients = client_jobs(alloc, table, workload, gates)?;
    let transmitters = transmitter_jobs(alloc, table, workload, transmitter_gates)?;
    run_jobs(rt, alloc, clients, transmitters)
}
