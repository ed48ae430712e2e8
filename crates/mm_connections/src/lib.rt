//! A lock service that keeps its clients apart: requests of numbered connections, one a line, to a lock manager, and the replies and events for
//! each of them. It has no threads.
//!
//! - `line`: what a line says. `request`: what a connection asks for. `forms`: the requests that only connections have.
//! - `begun`: which connection began each transaction. `counts`: how many each has.
//! - `permission`: what a connection may ask for.
//! - `served`: serves a connection. `make`: makes a request. `names`: a request of several names. `reads`: what a connection reads.
//! - `events`: tells connections what a request caused.
//! - `parts`: a transaction of many names ends, a part of it by a line.
//! - `hang_up`: a connection hangs up, a part of it by a line.
//! - `options`, `service`: `ConnectionService`, what callers open and run.
//! - `laws`: connections are apart.
#![tactic(auto)]

mod begun;
mod counts;
mod events;
mod forms;
mod hang_up;
mod laws;
mod line;
mod make;
mod names;
mod options;
mod parts;
mod permission;
mod reads;
mod request;
mod served;
mod service;

pub use laws::{
    hang_up_ends, hang_up_ends_last, hang_up_leaves_none, last_parts_end, lines_are_apart,
    parts_end_nobody, runs_are_apart,
};
pub use mm_service::{ManagerConfig, OpenError, ServiceFault};
pub use options::ConnectionOptions;
pub use service::ConnectionService;
