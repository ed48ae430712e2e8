//! A table of exclusive locks that is at rest between its calls: each request for a lock is answered at once and finally, and one that would close
//! a cycle of waits is refused as a deadlock.
//!
//! - `settled`: `SettledTable`, with one method for each call.
//! - `reply`: what a request is told, and what a grant is.
//! - `parts`: a table and the lists that its calls fill.
//! - `acquire`, `withdraw`, `ends`: the calls, over these.
//! - `lists`: the grants of a call, and how that is found.
//! - `settle`: a settle that is not refused, and when one is needed.
#![tactic(auto)]

mod acquire;
mod ends;
mod lists;
mod parts;
mod reply;
mod settle;
mod settled;
mod withdraw;

pub use mm_table::{Config, Key, Refusal, Released, Table};
pub use reply::{Grant, Locked};
pub use settled::SettledTable;
