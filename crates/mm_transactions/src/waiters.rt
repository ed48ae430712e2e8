//! A walk through the queue of a resource.
ghost use Rattle.std.specs.Iterator.{YieldsFirst, item_count};

use crate::Transactions;
use std::iter::FusedIterator;
use std::marker::Model;

/// The processes that wait for a resource, in order of arrival. A contract sees the list of those that are left.
#[derive(Drop)]
pub struct Waiters<'a> {
    pub(crate) transactions: &'a Transactions,
    pub(crate) resource: u32,
    /// The process of the first of those that are left.
    pub(crate) next: Option<u32>,
}

impl<'a> Model for Waiters<'a> {
    ghost use Rattle.std.specs.Prelude.{List, ℕ};
    ghost use Rattle.mm_transactions.specs.private.Walk.{processes_from, StandsAt};

    ghost Value = { List ℕ };

    ghost view = { λ walk. processes_from walk.transactions.now.waits walk.resource walk.next };

    ghost invariant = { λ walk. StandsAt walk.transactions.now.waits walk.resource walk.next };
}

/// `next` takes constant time.
impl<'a> Iterator for Waiters<'a> {
    type Item = u32;

    ghost next_gives = { YieldsFirst (λ left. left) };

    ghost remaining = { item_count (λ left. left) };

    #[inline]
    fn next(&mut self) -> Option<u32> {
        let process = self.next?;
        self.next = self.transactions.next_waiter(process);
        Some(process)
    }
}

impl<'a> FusedIterator for Waiters<'a> {}
