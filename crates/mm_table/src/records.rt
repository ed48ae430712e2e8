//! How a table is kept.
//!
//! By what a caller does: `open`, `begin`, `acquire`, `release`, `finish`, `abort`, `give_up`, `transmit`, `detect`, `settle`, `read`.
//! Each of these files has the event with its tests and the changes that it is made of. The others serve these:
//!
//! - `call`: what every event tests first, and how an accepted one is counted.
//! - `changes`, `labelling`: the changes that several events are made of, and those of labels.
//! - `hand_over`: how a resource goes to the longest waiter.
//! - `sweep`, `waiters`: the sweeps of a settle, and who is looked at next after a raise.
use crate::labels::Labels;
use crate::{Config, Totals};
use mm_tagged_lists::CountedLists;
use mm_transactions::Transactions;
use std::marker::Model;

mod abort;
mod acquire;
mod begin;
mod call;
mod changes;
mod detect;
mod finish;
mod give_up;
mod hand_over;
mod labelling;
mod open;
mod read;
mod release;
mod settle;
mod sweep;
mod transmit;
mod waiters;
mod withdraw;

/// How a table is kept. Each event is one step by its definition. Most events ask for the laws of the state before; that they hold after
/// it is for `Table` to say.
#[derive(Drop)]
pub struct Records {
    config: Config,
    /// What each waits for, and the queue of each resource.
    transactions: Transactions,
    labels: Labels,
    /// The resources of each process. The list of a process has its number, and the tag is the generation of the key that owns the resource.
    owned: CountedLists,
    totals: Totals,
}

impl Model for Records {
    ghost use Rattle.mm_rules.specs.TableState.{TableState};
    ghost use Rattle.mm_table.specs.private.Records.{state_of_records, IsConsistent};

    ghost Value = { TableState };

    ghost view = { state_of_records };

    ghost invariant = { IsConsistent };
}
