//! A lock service: requests, one a line, to a lock manager, and the replies to them, from any reader to any writer. It has no threads.
//!
//! - `line`: what a line is.
//! - `requests`: the words of the requests. `forms`: the request that the words of a line make.
//! - `calls`: makes a request, and writes its reply and what it caused for others. `effect`: what it comes to beside its reply.
//! - `cycle`: the reply to a lock, and the cycle of waits that a request would have closed, as it is told.
//! - `holds`: the names that a transaction owns. `lists`: the wait-for graph, and what a request caused.
//! - `reply`: how replies are printed.
//! - `lock_service`: `LockService`, what callers open and run.
//! - `laws`: the cycle that is told is one.
//!
//! Lines are read and cut, and replies written, by `serve` of `mm_lines`.
#![tactic(auto)]

mod calls;
mod cycle;
mod effect;
mod forms;
mod holds;
mod laws;
mod line;
mod lists;
mod lock_service;
pub mod reply;
mod requests;

pub use calls::make;
pub use cycle::{MAX_PAIRS, Walk, print_pair, write_cycle};
pub use effect::Effect;
pub use forms::is_name;
pub use holds::{MAX_PART, Numbers, write_holds};
pub use laws::cycle_is_told;
pub use line::{Asked, Line, MAX_REQUEST, Named, Request, request_line};
pub use lists::{count_waits, print_told};
pub use lock_service::LockService;
pub use mm_lines::Fault as ServiceFault;
pub use mm_manager::{ManagerConfig, OpenError};
pub use requests::{KeyRequest, NameRequest};
