//! A table of exclusive locks for transactions, which finds and breaks deadlocks by labels and searches for no cycle.
//!
//! The rules that it keeps, and the plain data of calls, are those of mm_rules.
//!
//! - `table`: `Table`, with one method for each event and each read.
//! - `laws`: facts about all tables, as the contracts of functions that do nothing: those of mm_rules and of mm_settle_lemmas.
//! - `records`: how a table is kept. Nothing else depends on it.
//! - `labels`: the labels of all processes, for `records`.
//! - `sets`: the sets of processes that a table works with.
#![tactic(auto)]

mod labels;
pub mod laws;
mod records;
mod sets;
mod table;

pub use mm_rules::{
    Acquired, Config, Detected, Key, Label, Mode, Refusal, Released, Settled, State, Totals,
    Transmitted,
};
pub use table::Table;
