//! The live transactions of a table: what each waits for, whether it has a verdict, and the queue of each resource.
//!
//! - `transaction`: what is kept of one.
//! - `transactions`: `Transactions`, with the calls by which transactions begin and end, and with the reads.
//! - `waits`: its calls by which a transaction starts and stops waiting, and the queues.
//! - `waiters`: a walk through a queue.
#![tactic(auto)]

mod transaction;
mod transactions;
mod waiters;
mod waits;

pub use transaction::Transaction;
pub use transactions::Transactions;
pub use waiters::Waiters;
