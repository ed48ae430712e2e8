//! The wait-for graph of a manager.
ghost use Rattle.std.specs.Prelude.{◌≡◌};
ghost use Rattle.std.specs.Iterator.{YieldsFirst, item_count};

use crate::Wait;
use crate::reads::wait_at;
use mm_settled::Table;
use std::iter::FusedIterator;
use std::marker::Model;

/// The waits of a [`LockManager`](crate::LockManager), by rising process. A contract sees the list of those that are left.
#[derive(Drop)]
pub struct Graph<'a> {
    pub(crate) table: &'a Table,
    /// The processes below this one are done.
    pub(crate) next: u32,
}

impl<'a> Model for Graph<'a> {
    ghost use Rattle.std.specs.Prelude.{List};
    ghost use Rattle.mm_manager.specs.declared.reply.Wait.{Wait};
    ghost use Rattle.mm_manager.specs.Reads.{waits_from};

    ghost Value = { List Wait };

    ghost view = { λ graph. waits_from graph.table.now graph.next };
}

/// `next` takes constant time, and more for each process that it passes and that does not wait.
impl<'a> Iterator for Graph<'a> {
    type Item = Wait;

    ghost next_gives = { YieldsFirst (λ left. left) };

    ghost remaining = { item_count (λ left. left) };

    fn next(&mut self) -> Option<Wait> {
        while self.next < self.table.config().processes {
            let process = self.next;
            self.next += 1;
            if let Some(wait) = wait_at(self.table, process) {
                return Some(wait);
            }
        }
        None
    }
}

impl<'a> FusedIterator for Graph<'a> {}
