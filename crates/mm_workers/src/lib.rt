//! All workers of a workload at once, each on a thread of its own, on a table that they share.
//!
//! - `shared_gate`: `SharedGate`, a gate for threads.
//! - `desk`: `Desk`, a shared table with a pass, as the workers of `mm_clients` call it.
//! - `divisible`: a table of which each worker has a part.
//! - `job`: what a worker's thread takes along, and what it gives back.
//! - `run`: `run_threads`, all workers of a workload at once. `jobs` makes a job for each, which `mm_thread_jobs` runs, and `gather` joins their
//!   parts of the table.
#![tactic(auto)]

mod desk;
mod divisible;
mod gather;
mod job;
mod jobs;
mod run;
mod shared_gate;

pub use desk::Desk;
pub use mm_clients::{
    Client, ClientEnds, EarlierEnds, End, EndCounts, Gate, Hint, HintKind, Outcome, Steps,
    TalliedOutcome, Tally, Transmitter,
};
pub use mm_shared::Report;
pub use run::{run_tallied, run_threads};
pub use shared_gate::{Counts, SharedGate, shared_gates};
