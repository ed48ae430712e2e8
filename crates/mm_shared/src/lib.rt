//! A lock table that threads share: a `Table` of mm_table behind one lock, with a board of mm_board, on which its labels and holders are
//! read without the lock, and three ledgers that count what each thread's calls did.
//!
//! - `prepared`: `Prepared`, a table, a board and three ledgers that have no names yet.
//! - `pass`: `Pass`, what a thread has of the ledgers and has seen of the board.
//! - `inside`: `Inside`, the value behind the lock.
//! - `publish`: what is stored on the board after an event.
//! - `shared`: `SharedTable`, whose events and reads take the lock.
//! - `look`: its calls that read the board, and take no lock.
//! - `close`: the end of a shared table.
#![tactic(auto)]

mod close;
mod inside;
mod look;
mod pass;
mod prepared;
mod publish;
mod shared;

pub use close::CloseRefused;
pub use inside::Inside;
pub use mm_board::{Hint, HintKind, Name};
pub use mm_counts::Report;
pub use mm_table::{
    Acquired, Config, Detected, Key, Label, Mode, Refusal, Released, Settled, State, Transmitted,
    laws,
};
pub use pass::{ALL_PARTS, Pass};
pub use prepared::Prepared;
pub use shared::SharedTable;
