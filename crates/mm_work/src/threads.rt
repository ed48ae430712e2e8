//! The workers of a workload, each on a thread of its own, and perhaps one more thread, which tells how far they are.
ghost use Rattle.std.specs.Prelude.{◌≡◌, ◌≤◌, ◌+◌, Err, IfOk, IfErr, length, vec_len};
ghost use Rattle.mm_rules.specs.Event.{Opens};

use mm_rules::Refusal;
use mm_run_report::{print_outcome, print_workload};
use mm_workers::{SharedGate, TalliedOutcome, run_tallied, shared_gates};
use mm_workload::Workload;
use std::alloc::Global;
use std::io::Eprint;
use std::sync::Wait;
use std::sync::atomic::AtomicBool;
use std::sync::atomic::Ordering::SeqCst;
use std::thread;
use std::thread::{Scope, Threads};
use std::time::{Clock, Duration, Instant};

/// Runs all workers of the workload. Refused as the table is, or as `Memory` if a thread cannot be started.
pub fn run<R: Threads + Wait + Sync>(
    rt: &R,
    alloc: Global,
    work: &Workload,
) -> Result<TalliedOutcome, Refusal>
    ensures each { IfOk result (λ ran. vec_len ran.outcome.ends ≡ length work.now.clients) }
    ensures refused { IfErr result (λ refusal. Opens work.now.config (Err refusal)) }
{
    let gates = gates_of(rt, alloc, work, 0)?;
    run_tallied(rt, alloc, work, gates)
}

/// The same, and prints on standard error what is run, how far it is, and how it ended.
pub fn run_told<R: Clock + Eprint + Threads + Wait + Sync>(
    rt: &R,
    alloc: Global,
    name: &str,
    work: &Workload,
) -> Result<TalliedOutcome, Refusal>
    ensures each { IfOk result (λ ran. vec_len ran.outcome.ends ≡ length work.now.clients) }
    ensures refused { IfErr result (λ refusal. Opens work.now.config (Err refusal)) }
{
    print_workload(rt, name, work);
    let begun = Instant::now(rt).ok();
    let ran = run_watched(rt, alloc, work)?;
    print_outcome(rt, begun, &ran.outcome);
    Ok(ran)
}

/// Runs all workers of the workload beside a thread that watches them. A run that cannot be watched is run all the same.
fn run_watched<R: Clock + Eprint + Threads + Wait + Sync>(
    rt: &R,
    alloc: Global,
    work: &Workload,
) -> Result<TalliedOutcome, Refusal>
    ensures each { IfOk result (λ ran. vec_len ran.outcome.ends ≡ length work.now.clients) }
    ensures refused { IfErr result (λ refusal. Opens work.now.config (Err refusal)) }
{
    let mut gates = gates_of(rt, alloc, work, 1)?;
    let Some(gate) = gates.pop() else {
        return Err(Refusal::Memory);
    };
    let watch = Watch {
        gate,
        clients: work.clients().len(),
        is_over: AtomicBool::new(false),
    };
    thread::scope(
        thread::scope_env(),
        rt,
        |scope| -> Result<TalliedOutcome, Refusal>
            requires { vec_len gates ≡ length work.now.clients + work.now.transmitters }
            ensures { (IfOk result (λ ran. vec_len ran.outcome.ends ≡ length work.entry.now.clients)) × (IfErr result (λ refusal. Opens work.entry.now.config (Err refusal))) }
        { run_beside(scope, rt, alloc, work, gates, &watch) },
    )
}

/// Returns a gate for each worker of the workload, and this many more. The numbers of the table are tested first, so it is refused as `Memory` only
/// if these are in range.
fn gates_of<'a, R: Wait>(
    rt: &'a R,
    alloc: Global,
    work: &Workload,
    more: u32,
) -> Result<Vec<SharedGate<'a, R>>, Refusal>
    requires few { more ≤ 1 }
    ensures each { IfOk result (λ gates. vec_len gates ≡ length work.now.clients + work.now.transmitters + more) }
    ensures refused { IfErr result (λ refusal. Opens work.now.config (Err refusal)) }
{
    if !work.config().is_in_range() {
        return Err(Refusal::BadConfig);
    }
    let clients = work.clients().len() as u32;
    let workers = clients + work.transmitters() + more;
    match shared_gates(rt, alloc, clients, workers) {
        Ok(gates) => Ok(gates),
        Err(_) => Err(Refusal::Memory),
    }
}

/// Runs all workers of the workload, and the watch until they have ended.
fn run_beside<'s, 'e, R: Clock + Eprint + Threads + Wait + Sync>(
    scope: &'s Scope<'s, &'e ()>,
    rt: &'e R,
    alloc: Global,
    work: &Workload,
    gates: Vec<SharedGate<'e, R>>,
    watch: &'e Watch<'e, R>,
) -> Result<TalliedOutcome, Refusal>
    requires { vec_len gates ≡ length work.now.clients + work.now.transmitters }
    ensures each { IfOk result (λ ran. vec_len ran.outcome.ends ≡ length work.now.clients) }
    ensures refused { IfErr result (λ refusal. Opens work.now.config (Err refusal)) }
{
    let _watcher = scope.spawn(move || watch.run(rt));
    let ran = run_tallied(rt, alloc, work, gates);
    watch.is_over.store(true, SeqCst);
    ran
}

/// What a thread prints of a run while it goes on. If that cannot be written, it is left out, and the run goes on.
#[derive(Drop)]
struct Watch<'a, R: Wait> {
    gate: SharedGate<'a, R>,
    clients: usize,
    is_over: AtomicBool,
}

impl<'a, R: Clock + Eprint + Wait> Watch<'a, R> {
    /// Prints every second how many clients have ended, until the run is over.
    fn run(&self, rt: &R) {
        for round in 1..u64::MAX {
            if self.is_over.load(SeqCst) {
                return;
            }
            thread::sleep(rt, Duration::from_millis(10));
            if round % 100 == 0 {
                self.print(rt, round / 100);
            }
        }
    }

    fn print(&self, rt: &R, seconds: u64) {
        let ended = self.gate.counts().left;
        let _ = eprintln!(rt;
            "after {seconds} s: clients ended {ended} of {}",
            self.clients
        );
    }
}
