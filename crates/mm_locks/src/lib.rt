//! Locks by name that threads share: a request for a name returns when the name is owned, or with `Deadlock`. A thread that waits sleeps. A name
//! that nobody waits for is locked and given back without a mutex.
//!
//! - `locks`: `Locks`, what threads share.
//! - `session`: `Session`, from which a thread begins its transactions; `asks` and `ends`: what it has the desk do.
//! - `transaction`: `Transaction`, which locks names, and gives all back at its end; `patience`: with a time; `several`: several names at once.
//! - `again`: work that is done again after a deadlock, and `backoff`: the pauses before that.
//! - `error`: why a call is refused; `opening`: the numbers with which locks are opened, and why they are not.
//! - `tokens`: what is given out if a name is owned.
//! - `hall`: the desk behind the lock, with the processes that it is to wake; `owner`: who owns a name there; `history`: what is told of it.
//! - `wakes`: the processes that a call is to wake once the lock is free, and `parkers`: where the thread of each transaction sleeps.
//! - `deadline`: how long a thread is to wait.
#![tactic(auto)]

mod again;
mod asks;
mod backoff;
mod deadline;
mod ends;
mod error;
mod hall;
mod history;
mod locks;
mod opening;
mod owner;
mod parkers;
mod patience;
mod session;
mod several;
mod tokens;
mod transaction;
mod wakes;

pub use again::{Repeat, run};
pub use error::LockError;
pub use locks::Locks;
pub use mm_manager::{ManagerConfig, Totals};
pub use opening::{LocksConfig, OpenError};
pub use session::Session;
pub use several::GrantedUpTo;
pub use tokens::Granted;
pub use transaction::Transaction;
