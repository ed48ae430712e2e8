//! A shared table, as a worker with a pass calls it.
ghost use Rattle.std.specs.Prelude.{◌≡◌};

use crate::divisible::Divisible;
use mm_clients::{Steps, Tally};
use mm_shared::{
    Acquired, Detected, Hint, Key, Name, Pass, Refusal, Released, Settled, SharedTable, Transmitted,
};
use std::marker::Model;
use std::sync::Wait;
use std::sync::ledger::Ledger;

/// A shared table and a pass of it, at which one worker works. A contract sees it as the pass.
///
/// Each call but `scan` takes the lock of the table. The waits and the raises that the replies tell are counted beside the pass.
#[derive(Drop)]
pub struct Desk<'a, N: Name, A: Ledger, V: Ledger, B: Ledger, R: Wait> {
    rt: &'a R,
    table: &'a SharedTable<N, A, V, B>,
    pass: Pass<N, A, V, B>,
    tally: Tally,
}

impl<'a, N: Name, A: Ledger, V: Ledger, B: Ledger, R: Wait> Model for Desk<'a, N, A, V, B, R> {
    ghost use Rattle.mm_counts.specs.Shares.{Shares};

    ghost Value = { Shares };

    ghost view = { λ desk. desk.pass };
}

impl<'a, N: Name, A: Ledger, V: Ledger, B: Ledger, R: Wait> Desk<'a, N, A, V, B, R> {
    /// Returns a desk at this table, with this pass. Constant time.
    pub fn new(
        rt: &'a R,
        table: &'a SharedTable<N, A, V, B>,
        pass: Pass<N, A, V, B>,
    ) -> Desk<'a, N, A, V, B, R>
        ensures { result ≡ pass }
    {
        Desk {
            rt,
            table,
            pass,
            tally: Tally::NONE,
        }
    }

    /// Returns what was counted of the replies. Constant time.
    pub fn tally(&self) -> Tally {
        self.tally
    }

    /// Gives the pass back, with what was counted at the desk. Constant time.
    pub fn into_pass(self) -> Pass<N, A, V, B>
        ensures { result ≡ self.entry }
    {
        let Desk {
            rt: _,
            table: _,
            pass,
            tally: _,
        } = self;
        pass
    }
}

impl<'a, N: Name, A: Ledger, V: Ledger, B: Ledger, R: Wait> Steps for Desk<'a, N, A, V, B, R> {
    ghost shares = { λ desk. desk };

    fn begin(&mut self) -> Result<Key, Refusal> {
        self.table.begin(self.rt, &mut self.pass)
    }

    fn acquire(&mut self, key: Key, resource: u32) -> Result<Acquired, Refusal> {
        let reply = self.table.acquire(self.rt, &mut self.pass, key, resource);
        if let Ok(Acquired::Waits { .. }) = reply {
            self.tally.waits = self.tally.waits.saturating_add(1);
        }
        reply
    }

    fn release(&mut self, key: Key, resource: u32) -> Result<Released, Refusal> {
        self.table.release(self.rt, &mut self.pass, key, resource)
    }

    fn finish(&mut self, key: Key) -> Result<(), Refusal> {
        self.table.finish(self.rt, &mut self.pass, key)
    }

    fn transmit(&mut self, key: Key) -> Result<Transmitted, Refusal> {
        let reply = self.table.transmit(self.rt, &mut self.pass, key);
        if let Ok(Transmitted::Raised(_)) = reply {
            self.tally.raises = self.tally.raises.saturating_add(1);
        }
        reply
    }

    fn detect(&mut self, key: Key) -> Result<Detected, Refusal> {
        self.table.detect(self.rt, &mut self.pass, key)
    }

    fn abort(&mut self, key: Key) -> Result<(), Refusal> {
        self.table.abort(self.rt, &mut self.pass, key)
    }

    fn give_up(&mut self, key: Key) -> Result<(), Refusal> {
        self.table.give_up(self.rt, &mut self.pass, key)
    }

    fn settle(&mut self) -> Result<Settled, Refusal> {
        let reply = self.table.settle(self.rt, &mut self.pass);
        if let Ok(settled) = reply {
            self.tally.raises = self.tally.raises.saturating_add(settled.raises);
        }
        reply
    }

    fn tenant(&mut self, process: u32) -> Option<Key> {
        self.table.tenant(self.rt, &mut self.pass, process)
    }

    fn scan(&mut self, from: u32) -> Option<Hint> {
        self.table.scan(&mut self.pass, from)
    }
}

impl<'a, N: Name, A: Ledger, V: Ledger, B: Ledger, R: Wait> Divisible for Desk<'a, N, A, V, B, R> {
    fn split(&mut self) -> Desk<'a, N, A, V, B, R> {
        let part = self.pass.split(self.table, 1);
        Desk::new(self.rt, self.table, part)
    }

    fn join(&mut self, other: Desk<'a, N, A, V, B, R>) {
        self.tally.add(other.tally);
        self.pass.join(self.table, other.into_pass());
    }

    fn processes(&self) -> u32 {
        self.table.processes()
    }
}
