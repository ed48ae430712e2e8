//! Queues of keys, in which each process stands at most once.
//!
//! - `ends`: the two ends of a list.
//! - `standing`: what is kept of a key that stands in a list.
//! - `lists`: `Lists`.
#![tactic(auto)]

mod ends;
mod lists;
mod standing;

pub use lists::Lists;
