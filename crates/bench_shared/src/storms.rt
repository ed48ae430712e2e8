//! Storms, each run by threads of its own.
ghost use Rattle.std.specs.Prelude.{◌≤◌};

use crate::clock::{nanoseconds_since, now};
use mm_workers::{End, Outcome, run_threads, shared_gates};
use mm_workload::{Workload, storm};
use std::alloc::Global;
use std::sync::Wait;
use std::thread::Threads;
use std::time::Clock;

/// How many transmitters each storm has.
const TRANSMITTERS: u32 = 2;

/// What came of storms.
#[derive(Clone, Copy)]
pub struct Storms {
    /// How long they ran, from the opening of each table to its end.
    pub nanoseconds: u64,
    /// How many clients finished.
    pub finished: u64,
    /// How many clients were aborted.
    pub aborted: u64,
}

impl Storms {
    /// One storm more.
    fn add(&mut self, nanoseconds: u64, outcome: &Outcome) {
        self.nanoseconds = self.nanoseconds.wrapping_add(nanoseconds);
        for end in &outcome.ends {
            match end {
                End::Finished => self.finished = self.finished.wrapping_add(1),
                End::Aborted => self.aborted = self.aborted.wrapping_add(1),
                End::Spent | End::Refused(_) => {}
            }
        }
    }
}

/// Runs a workload on a table that is opened for it. `None` if memory is refused.
fn run_workload<R: Threads + Wait + Sync>(
    rt: &R,
    alloc: Global,
    workload: &Workload,
) -> Option<Outcome> {
    let clients = workload.clients().len() as u32;
    let workers = clients + workload.transmitters();
    let gates = shared_gates(rt, alloc, clients, workers).ok()?;
    run_threads(rt, alloc, workload, gates).ok()
}

/// Runs a storm, and adds what came of it. `None` if memory is refused.
fn run_storm<R: Threads + Wait + Clock + Sync>(
    rt: &R,
    alloc: Global,
    workload: &Workload,
    storms: &mut Storms,
) -> Option<()> {
    let start = now(rt);
    let outcome = run_workload(rt, alloc, workload)?;
    storms.add(nanoseconds_since(rt, start), &outcome);
    drop(outcome);
    Some(())
}

/// Makes the storm of this seed, which takes no part of the time, and runs it. `None` if memory is refused.
fn run_seed<R: Threads + Wait + Clock + Sync>(
    rt: &R,
    alloc: Global,
    seed: u64,
    clients: u32,
    storms: &mut Storms,
) -> Option<()>
    requires { (1 ≤ clients) × (clients ≤ 64) }
{
    let workload = storm(alloc, seed, clients, TRANSMITTERS).ok()?;
    let ran = run_storm(rt, alloc, &workload, storms);
    drop(workload);
    ran
}

/// Runs the storms of seeds 1 to `count`, one after another, each with this many clients. `None` if memory is refused.
pub fn run_storms<R: Threads + Wait + Clock + Sync>(
    rt: &R,
    alloc: Global,
    clients: u32,
    count: u32,
) -> Option<Storms>
    requires { (1 ≤ clients) × (clients ≤ 64) }
{
    let mut storms = Storms {
        nanoseconds: 0,
        finished: 0,
        aborted: 0,
    };
    for place in 0..count {
        run_seed(rt, alloc, u64::from(place) + 1, clients, &mut storms)?;
    }
    Some(storms)
}
