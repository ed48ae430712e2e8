//! The calls of a shared table by one thread. They have no clauses, so a function that makes many of them has a short proof, and knows nothing
//! of what they did.

use mm_shared::{
    Acquired, Detected, Key, Name, Pass, Refusal, Released, Settled, SharedTable, Transmitted,
};
use std::sync::Wait;
use std::sync::ledger::Ledger;

/// What a thread calls.
pub trait Calls {
    fn begin(&mut self) -> Result<Key, Refusal>;

    fn acquire(&mut self, key: Key, resource: u32) -> Result<Acquired, Refusal>;

    fn release(&mut self, key: Key, resource: u32) -> Result<Released, Refusal>;

    fn finish(&mut self, key: Key) -> Result<(), Refusal>;

    fn transmit(&mut self, key: Key) -> Result<Transmitted, Refusal>;

    fn detect(&mut self, key: Key) -> Result<Detected, Refusal>;

    fn abort(&mut self, key: Key) -> Result<(), Refusal>;

    fn settle(&mut self) -> Result<Settled, Refusal>;

    fn processes(&self) -> u32;

    /// Reads the label of a process on the board, and returns its counter; 0 if there is no such process.
    fn peek(&mut self, process: u32) -> u64;

    /// Looks for a hint among all processes, and returns whether there is one.
    fn scan(&mut self) -> bool;
}

/// A shared table and a pass of it, at which one thread calls.
#[derive(Drop)]
pub struct Seat<'a, N: Name, A: Ledger, V: Ledger, B: Ledger, R: Wait> {
    rt: &'a R,
    table: &'a SharedTable<N, A, V, B>,
    pass: Pass<N, A, V, B>,
}

impl<'a, N: Name, A: Ledger, V: Ledger, B: Ledger, R: Wait> Seat<'a, N, A, V, B, R> {
    pub fn new(
        rt: &'a R,
        table: &'a SharedTable<N, A, V, B>,
        pass: Pass<N, A, V, B>,
    ) -> Seat<'a, N, A, V, B, R> {
        Seat { rt, table, pass }
    }

    /// Gives the pass back.
    pub fn into_pass(self) -> Pass<N, A, V, B> {
        let Seat {
            rt: _,
            table: _,
            pass,
        } = self;
        pass
    }
}

// In place: else a measurement would time one call more.
impl<'a, N: Name, A: Ledger, V: Ledger, B: Ledger, R: Wait> Calls for Seat<'a, N, A, V, B, R> {
    #[inline(always)]
    fn begin(&mut self) -> Result<Key, Refusal> {
        self.table.begin(self.rt, &mut self.pass)
    }

    #[inline(always)]
    fn acquire(&mut self, key: Key, resource: u32) -> Result<Acquired, Refusal> {
        self.table.acquire(self.rt, &mut self.pass, key, resource)
    }

    #[inline(always)]
    fn release(&mut self, key: Key, resource: u32) -> Result<Released, Refusal> {
        self.table.release(self.rt, &mut self.pass, key, resource)
    }

    #[inline(always)]
    fn finish(&mut self, key: Key) -> Result<(), Refusal> {
        self.table.finish(self.rt, &mut self.pass, key)
    }

    #[inline(always)]
    fn transmit(&mut self, key: Key) -> Result<Transmitted, Refusal> {
        self.table.transmit(self.rt, &mut self.pass, key)
    }

    #[inline(always)]
    fn detect(&mut self, key: Key) -> Result<Detected, Refusal> {
        self.table.detect(self.rt, &mut self.pass, key)
    }

    #[inline(always)]
    fn abort(&mut self, key: Key) -> Result<(), Refusal> {
        self.table.abort(self.rt, &mut self.pass, key)
    }

    #[inline(always)]
    fn settle(&mut self) -> Result<Settled, Refusal> {
        self.table.settle(self.rt, &mut self.pass)
    }

    #[inline(always)]
    fn processes(&self) -> u32 {
        self.table.processes()
    }

    #[inline(always)]
    fn peek(&mut self, process: u32) -> u64 {
        if process < self.table.processes() {
            self.table.peek(&mut self.pass, process).counter()
        } else {
            0
        }
    }

    #[inline(always)]
    fn scan(&mut self) -> bool {
        self.table.scan(&mut self.pass, 0).is_some()
    }
}
