//! The live transactions of a manager.
ghost use Rattle.std.specs.Prelude.{◌≡◌};
ghost use Rattle.std.specs.Iterator.{YieldsFirst, item_count};

use crate::Key;
use mm_settled::Table;
use std::iter::FusedIterator;
use std::marker::Model;

/// The live transactions of a [`LockManager`](crate::LockManager), by rising slot. A contract sees the list of those that are left.
#[derive(Drop)]
pub struct Transactions<'a> {
    pub(crate) table: &'a Table,
    /// The slots below this one are done.
    pub(crate) next: u32,
}

impl<'a> Model for Transactions<'a> {
    ghost use Rattle.std.specs.Prelude.{List};
    ghost use Rattle.mm_arena.specs.declared.key.Key.{Key};
    ghost use Rattle.mm_manager.specs.Reads.{live_from};

    ghost Value = { List Key };

    ghost view = { λ transactions. live_from transactions.table.now transactions.next };
}

/// `next` takes constant time, and more for each slot that it passes and that has no transaction.
impl<'a> Iterator for Transactions<'a> {
    type Item = Key;

    ghost next_gives = { YieldsFirst (λ left. left) };

    ghost remaining = { item_count (λ left. left) };

    fn next(&mut self) -> Option<Key> {
        while self.next < self.table.config().processes {
            let slot = self.next;
            self.next += 1;
            if let Some(key) = self.table.tenant(slot) {
                return Some(key);
            }
        }
        None
    }
}

impl<'a> FusedIterator for Transactions<'a> {}
