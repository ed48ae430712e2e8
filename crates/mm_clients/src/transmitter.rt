//! A transmitter passes labels on, and detects deadlocks.
ghost use Rattle.std.specs.Prelude.{◌≡◌};

use crate::gate::Gate;
use crate::steps::Steps;
use mm_board::{Hint, HintKind};
use mm_table::{Detected, Transmitted};
use std::marker::Model;
use std::thread;

/// A worker that looks for a process whose label may be raised or whose verdict may be due, and transmits or detects for the transaction
/// that uses it, again and again, until all clients have left or its turns are used up. A turn is one such look. It never aborts.
///
/// A contract sees it as its table.
#[derive(Drop)]
pub struct Transmitter<S: Steps + Drop, G: Gate + Drop> {
    table: S,
    gate: G,
    processes: u32,
    turns: u64,
}

impl<S: Steps + Drop, G: Gate + Drop> Model for Transmitter<S, G> {
    ghost Value = { S };

    ghost view = { λ transmitter. transmitter.table };
}

impl<S: Steps + Drop, G: Gate + Drop> Transmitter<S, G> {
    /// Returns a transmitter on this table, which has this many processes. Constant time.
    pub fn new(table: S, gate: G, processes: u32, turns: u64) -> Transmitter<S, G>
        ensures { result ≡ table }
    {
        Transmitter {
            table,
            gate,
            processes,
            turns,
        }
    }

    /// Gives the table back. Constant time.
    pub fn into_steps(self) -> S
        ensures { result ≡ self }
    {
        let Transmitter {
            table,
            gate: _,
            processes: _,
            turns: _,
        } = self;
        table
    }

    /// Works until all clients have left, or the turns are used up. `O(turns)` calls.
    ///
    /// A turn looks from its place on, at first process 0. With a hint it makes the one event that the hint suggests, and its next place is
    /// after that process. Without one its next place is process 0, and it has made no other call of the table.
    pub fn run(&mut self)
        ensures aborts { (S.shares self.new).aborts ≡ (S.shares self.old).aborts }
        ensures parts { (S.shares self.new).parts ≡ (S.shares self.old).parts }
    {
        let mut place = 0;
        for _ in 0..self.turns {
            if self.gate.over() {
                return;
            }
            let hint = self.table.scan(place);
            place = self.place_after(hint);
            if !self.follow(hint) {
                thread::yield_now();
            }
        }
    }

    /// Returns the process from which the next turn looks.
    fn place_after(&self, hint: Option<Hint>) -> u32 {
        let Some(hint) = hint else {
            return 0;
        };
        let next = hint.process.saturating_add(1);
        if next < self.processes { next } else { 0 }
    }

    /// Makes the event that a hint suggests, for the transaction that uses its process. `false` if it changed nothing: there is no hint,
    /// no transaction uses the process, or the labels are others by now.
    fn follow(&mut self, hint: Option<Hint>) -> bool
        ensures aborts { (S.shares self.new).aborts ≡ (S.shares self.old).aborts }
        ensures parts { (S.shares self.new).parts ≡ (S.shares self.old).parts }
    {
        let Some(hint) = hint else {
            return false;
        };
        let Some(key) = self.table.tenant(hint.process) else {
            return false;
        };
        match hint.kind {
            HintKind::Raise => matches!(self.table.transmit(key), Ok(Transmitted::Raised(_))),
            HintKind::Equal => matches!(self.table.detect(key), Ok(Detected::Deadlock(_))),
        }
    }
}
