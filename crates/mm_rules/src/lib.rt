//! The rules of a table of exclusive locks, which finds and breaks deadlocks by labels, apart from how a table is kept.
//!
//! - `config`, `refusal`, `reply`: the plain data of calls; keys are those of mm_arena, labels those of mm_label.
//! - `laws`: facts about all tables, as the contracts of functions that do nothing.
//!
//! The rules themselves are definitions, in `specs/`.
#![tactic(auto)]

mod config;
pub mod laws;
mod refusal;
mod reply;

pub use config::Config;
pub use mm_arena::Key;
pub use mm_label::Label;
pub use refusal::Refusal;
pub use reply::{Acquired, Detected, Mode, Released, Settled, State, Totals, Transmitted};
