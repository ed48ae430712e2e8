//! A table that nobody shares, as a worker calls it.
ghost use Rattle.std.specs.Prelude.{[], ◌≡◌, IfSome};
ghost use Rattle.mm_board.specs.Views.{new_seen};
ghost use Rattle.mm_clients.specs.Hints.{IsHintOf};

use crate::steps::Steps;
use mm_board::{Hint, HintKind};
use mm_table::{Acquired, Detected, Key, Refusal, Released, Settled, Table, Transmitted};
use std::cmp::Ordering;

/// The three counts are those of the table; there are no parts, and no board was seen.
impl Steps for Table {
    ghost shares = { λ table. record { parts = 0; accepted = table.totals.accepted; verdicts = table.totals.verdicts; aborts = table.totals.aborts; seen = new_seen [] } };

    fn begin(&mut self) -> Result<Key, Refusal> {
        Table::begin(self)
    }

    fn acquire(&mut self, key: Key, resource: u32) -> Result<Acquired, Refusal> {
        Table::acquire(self, key, resource)
    }

    fn release(&mut self, key: Key, resource: u32) -> Result<Released, Refusal> {
        Table::release(self, key, resource)
    }

    fn finish(&mut self, key: Key) -> Result<(), Refusal> {
        Table::finish(self, key)
    }

    fn transmit(&mut self, key: Key) -> Result<Transmitted, Refusal> {
        Table::transmit(self, key)
    }

    fn detect(&mut self, key: Key) -> Result<Detected, Refusal> {
        Table::detect(self, key)
    }

    fn abort(&mut self, key: Key) -> Result<(), Refusal> {
        Table::abort(self, key)
    }

    fn give_up(&mut self, key: Key) -> Result<(), Refusal> {
        Table::give_up(self, key)
    }

    fn settle(&mut self) -> Result<Settled, Refusal> {
        Table::settle(self)
    }

    fn tenant(&mut self, process: u32) -> Option<Key> {
        Table::tenant(self, process)
    }

    fn scan(&mut self, from: u32) -> Option<Hint> {
        for process in from..self.config().processes {
            if let Some(hint) = look(self, process) {
                return Some(hint);
            }
        }
        None
    }
}

/// Looks at one process. `None` if it waits for nobody, or if the holder's public label is below its own. Constant time.
fn look(table: &Table, process: u32) -> Option<Hint>
    ensures process { IfSome result (λ hint. hint.process ≡ process) }
    ensures hint { IfSome result (IsHintOf table.now) }
{
    let holder = table.holder(process)?;
    table.keeps_laws(); // by which who waits is a process of the table
    let own = table.public_label(process);
    let its = table.public_label(holder);
    let kind = match own.cmp(&its) {
        Ordering::Less => HintKind::Raise,
        Ordering::Equal => HintKind::Equal,
        Ordering::Greater => return None,
    };
    Some(Hint {
        process,
        holder,
        kind,
    })
}
