//! Workloads: a table's numbers, and what clients and transmitters are to do on it. Plain data, with no threads.
//!
//! - `step`: what a client does next.
//! - `workload`: `Workload`, whose numbers are in their ranges.
//! - `limits`: the greatest numbers of a workload.
//! - `fault`: why there is no workload, and where it is malformed.
//! - `reading`: a workload from the bytes of a JSON file.
//! - `storms`: a workload from a seed. `shape`: how many resources it has, how many of them a client acquires, and how many transactions it
//!   makes. `stream`: the transactions that follow its first one.
#![tactic(auto)]

mod fault;
mod limits;
mod reading;
mod shape;
mod step;
mod storms;
mod stream;
mod workload;

pub use fault::{FaultPlace, StepFault, WorkFault};
pub use limits::MAX_BYTES;
pub use mm_rules::Config;
pub use shape::{StormOptions, StormShape};
pub use step::WorkStep;
pub use storms::{shaped_storm, storm};
pub use stream::TransactionStream;
pub use workload::Workload;
