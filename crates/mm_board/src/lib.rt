//! A board: for each process a label and a holder, which one publisher stores and any number of readers load. No call waits.
//!
//! A load gives what stood there at that moment; `README.md` says what that means and what it does not.
//!
//! - `board`: `RawBoard`, a board before it has a name, and `Board`, the words that all threads share.
//! - `publisher`: `Publisher`, the one who stores.
//! - `reader`: `Reader`, who loads.
//! - `waiter`: the walk along the processes for one that has a holder.
//! - `holder`: `Waiter`, a process that has a holder, and the word that keeps one.
//! - `hint`: what a look at the board suggests to who may transmit or detect.
//! - `views`: what contracts know of the publisher and of a reader.
//! - `rule`: the rule that holds between any two steps, and the names of boards.
//! - `steps`: the kinds of step.
#![tactic(auto)]

mod board;
mod hint;
mod holder;
mod publisher;
mod reader;
mod rule;
mod steps;
mod views;
mod waiter;

pub use board::{Board, MAX_PROCESSES, RawBoard};
pub use hint::{Hint, HintKind};
pub use holder::Waiter;
pub use mm_arena::Memory;
pub use publisher::Publisher;
pub use reader::Reader;
pub use rule::{BoardRule, Name};
pub use views::{Published, Seen, View};
