//! How many transactions each connection has.
ghost use Rattle.std.specs.Prelude.{◌≡◌, replicate, IfOk, slice_set};
ghost use Rattle.mm_connections.specs.Counts.{after_end, count_at, one_fewer};

use mm_manager::Refusal;
use std::alloc::{AllocError, Global};
use std::marker::Model;

/// By connection how many of its transactions are live. All of the memory is taken when it is made.
#[derive(Drop)]
pub struct Counts {
    counts: Vec<u32>,
}

impl Model for Counts {
    ghost use Rattle.std.specs.Prelude.{List, ℕ};

    ghost Value = { List ℕ };

    ghost view = { λ c. c.counts.items };
}

impl Counts {
    /// Makes counts of this many connections that have no transaction.
    pub fn new(alloc: Global, connections: u32) -> Result<Counts, AllocError>
        ensures { IfOk result (λ counts. counts ≡ replicate connections 0) }
    {
        let counts = vec![in alloc; 0; connections as usize]?;
        Ok(Counts { counts })
    }

    /// Returns how many transactions a connection has.
    pub fn of(&self, connection: u32) -> u32
        ensures { result ≡ count_at self.now connection }
    {
        match self.counts.get(connection as usize) {
            Some(&count) => count,
            None => 0,
        }
    }

    /// Counts one fewer.
    pub fn remove(&mut self, connection: u32)
        ensures { self.new ≡ one_fewer self.old connection }
    {
        let count = self.of(connection);
        self.set(connection, count.saturating_sub(1));
    }

    /// Counts one fewer, if the end of a transaction was not refused.
    pub fn count_end(&mut self, connection: u32, answer: &Result<(), Refusal>)
        ensures { self.new ≡ after_end answer.now self.old connection }
    {
        match answer {
            Ok(()) => self.remove(connection),
            Err(_) => {}
        }
    }

    /// Sets the count of a connection.
    pub fn set(&mut self, connection: u32, count: u32)
        ensures { self.new ≡ slice_set self.old connection count }
    {
        if let Some(kept) = self.counts.get_mut(connection as usize) {
            *kept = count;
        }
    }
}
