//! What the program runs for its user: scripts, and workloads on threads. Their names stand here in one place.
//!
//! - `script`: runs of scripts, as the program makes them. `run_script` itself is in `mm_script`.
//! - `work`: runs of workloads, those of a file and generated ones.
//! - `threads`: the workers of a run, each on a thread of its own, and perhaps one thread more, which tells how far they are.
#![tactic(auto)]

mod script;
mod threads;
mod work;

pub use mm_script::{ScriptFault, run_script};
pub use mm_workers::{
    Client, ClientEnds, Counts, Desk, EarlierEnds, End, EndCounts, Gate, Hint, HintKind, Outcome,
    Report, SharedGate, Steps, TalliedOutcome, Tally, Transmitter, run_tallied, run_threads,
    shared_gates,
};
pub use mm_workload::{
    Config, FaultPlace, StepFault, StormOptions, StormShape, TransactionStream, WorkFault,
    WorkStep, Workload, shaped_storm, storm,
};
pub use script::{run_plain_script, run_verbose_script};
pub use work::{run_bytes, run_storm};
