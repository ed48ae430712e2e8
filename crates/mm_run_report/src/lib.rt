//! Reports a workload run: two summary lines, an exit status, progress, and a report as JSON. It is made from the
//! outcome that the workers report, and needs no threads.
//!
//! - `work_end`: what came of a workload. `progress`: what is printed meanwhile for a person. `telling`: the lines and the report, or why there
//!   are none. `file`: the bytes of a file, and what is told of one.
//! - `report`: `RunReport`, and how it is made. `source`: from what the workload was made.
#![tactic(auto)]

mod file;
mod progress;
mod report;
mod source;
mod telling;
mod work_end;

pub use file::{FileBytes, is_same_file, read_file, tell};
pub use progress::{print_outcome, print_workload};
pub use report::{Numbers, Run, RunReport, text_of};
pub use source::Source;
pub use telling::{RunOptions, seconds_since, tell_end, tell_fault};
pub use work_end::{WorkEnd, print_fault};
