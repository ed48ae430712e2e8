//! Labels: pairs of a counter and a process, each kept in one word.
//!
//! Labels are ordered by counter and then by process, and so are their words as numbers.
//! A contract sees a label as the pair, the record `Label` of `specs/Label.antt`.
#![tactic(auto)]

mod label;
mod laws;

pub use label::{COUNTER_RANGE, Label, PROCESS_RANGE, fresh, fresh_in_range};
pub use laws::{fresh_is_above, words_keep_the_order};
