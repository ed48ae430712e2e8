//! Jobs of two kinds at once, each on a thread of its own.
//!
//! - `job`: `Job`, what a thread does, and what it gives back.
//! - `run`: `run_jobs`, which starts all threads and waits for them. `crew`: the threads of one kind.
#![tactic(auto)]

mod crew;
mod job;
mod run;

pub use job::Job;
pub use run::run_jobs;
