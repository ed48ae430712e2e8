//! Examples of callers of a table, of a board and of names, with their proofs.
//!
//! - `counts`: what becomes of a table whose counts come to their limit.
//! - `settled`: asks for a lock, and handles each of the three answers.
//! - `names`: gives names numbers for as long as somebody uses them.
//! - `rest`: settles a table, and cites the law of what it is then.
//! - `wake`: aborts a transaction, and lists the processes to wake.
//! - `watch`: opens a board, stores labels, and returns what two readers see.
#![tactic(auto)]

mod counts;
mod names;
mod rest;
mod settled;
mod wake;
mod watch;

pub use counts::{
    last_event_is_counted, last_verdict_is_counted, refused_at_limit, refused_only_at_limit,
    settle_passes_limit,
};
pub use names::NamesInUse;
pub use rest::settle_to_rest;
pub use settled::{Next, lock_or_roll_back};
pub use wake::abort_and_wake;
pub use watch::{Watched, watch_labels};
