//! A run by threads with gates that count the looks of transmitters: each has all turns of the workload, each client leaves once, and each call is
//! reported.

use crate::tests::passes::passes;
use mm_workers::{Counts, Gate, Outcome, SharedGate, run_threads, shared_gates};
use mm_workload::Workload;
use std::alloc::{AllocError, Global};
use std::sync::Wait;
use std::thread::Threads;

/// Two clients that never wait for each other, and three transmitters of five turns each.
const APART: &str =
    r#"{"processes":2,"resources":2,"label_limit":9,"generation_limit":9,"transmitters":3,"turns":5,"clients":[[["acquire",0],["release",0]],[["acquire",1]]]}"#;

/// A gate that counts no arrival but each look whether all clients have left, and says that they have not.
#[derive(Drop)]
struct WatchedGate<'a, R: Wait> {
    gate: SharedGate<'a, R>,
}

impl<'a, R: Wait> Gate for WatchedGate<'a, R> {
    fn arrive(&mut self) {}

    fn may_pass(&mut self, arrivals: u32) -> bool {
        self.gate.may_pass(arrivals)
    }

    fn leave(&mut self) {
        self.gate.leave();
    }

    fn over(&mut self) -> bool {
        self.gate.arrive();
        false
    }
}

/// A watched gate for each of these.
fn watched_gates<'a, R: Wait>(
    alloc: Global,
    gates: Vec<SharedGate<'a, R>>,
) -> Result<Vec<WatchedGate<'a, R>>, AllocError> {
    let mut watched = Vec::new(alloc);
    for gate in gates {
        watched.push(WatchedGate { gate })?;
    }
    Ok(watched)
}

/// Runs the workload at such gates. Returns what came of it, and what the gates counted.
fn ran<R: Threads + Wait + Sync>(
    rt: &R,
    alloc: Global,
    workload: &Workload,
) -> Option<(Outcome, Counts)> {
    let mut gates = shared_gates(rt, alloc, 2, 6).ok()?;
    let last = gates.pop()?;
    let gates = watched_gates(alloc, gates).ok()?;
    if gates.len() != workload.clients().len() + workload.transmitters() as usize {
        return None;
    }
    let outcome = run_threads(rt, alloc, workload, gates).ok()?;
    Some((outcome, last.counts()))
}

/// Both clients finish, three times five looks are counted, and each client has left once.
fn is_so(outcome: &Outcome, counts: Counts) -> bool {
    let counted = Counts {
        arrived: 15,
        left: 2,
    };
    counts == counted && outcome.counted().finished == 2 && outcome.report.accepted == 7
}

#[test]
fn each_transmitter_has_all_turns_and_each_call_is_reported(rt: HostRuntime) {
    let workload = Workload::read(rt.alloc(), APART.as_bytes()).expect(&rt, "a workload");
    let ran = ran(&rt, rt.alloc(), &workload);
    drop(workload);
    let runs_so = ran.is_some_and(|ran| is_so(&ran.0, ran.1));
    passes(
        &rt,
        "each_transmitter_has_all_turns_and_each_call_is_reported",
        runs_so,
    );
}
