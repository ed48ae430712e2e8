//! A lock manager: exclusive locks on names, for transactions. A request is answered at once and finally.
//!
//! - `config`, `refusal`, `reply`: the plain data of calls.
//! - `permit`: what a call is refused for before the table is asked.
//! - `numbers`: a number has a name exactly while it has an owner.
//! - `named`: a table whose resources have names.
//! - `open`: the table and the names of a manager that is opened.
//! - `begin`, `lock`, `try_lock`, `adopt`, `unlock`, `unlock_any`, `commit`, `abort`, `cancel`: the calls, over these.
//! - `manager`: `LockManager`, with one method for each call.
//! - `reads`: what can be read of a manager.
//! - `graph`: the wait-for graph. `transactions`: the live transactions.
//! - `totals`: what is counted.
#![tactic(auto)]

mod abort;
mod adopt;
mod begin;
mod cancel;
mod commit;
mod config;
mod graph;
mod lock;
mod manager;
mod named;
mod numbers;
mod open;
mod permit;
mod reads;
mod refusal;
mod reply;
mod totals;
mod transactions;
mod try_lock;
mod unlock;
mod unlock_any;

pub use config::ManagerConfig;
pub use graph::Graph;
pub use manager::LockManager;
pub use mm_settled::{Grant, Key};
pub use refusal::{OpenError, Refusal};
pub use reply::{Lock, Status, TryLock, Wait};
pub use totals::Totals;
pub use transactions::Transactions;
