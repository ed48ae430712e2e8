//! A client runs transactions, one after another.
ghost use Rattle.std.specs.Prelude.{◌≡◌, ◌+◌, ◌<◌, false, true, IfErr};
ghost use Rattle.mm_clients.specs.End.{is_aborted, aborts_of, ends_well};

use crate::earlier::{ClientEnds, EarlierEnds};
use crate::end::End;
use crate::gate::Gate;
use crate::steps::Steps;
use mm_table::{Acquired, Detected, Key, Refusal};
use mm_workload::{TransactionStream, WorkStep};
use std::marker::Model;
use std::thread;

/// A worker that runs a transaction, and then perhaps others: it begins, makes its steps in order, and finishes, or is aborted if it gets
/// a verdict.
///
/// Each asking at the gate, each try at `begin` and each round of waiting uses one of the turns, which each transaction has anew. If it
/// needs one and all are used, it ends `Spent` and calls the table no more: what it owns then stays owned. A contract sees it as its table.
#[derive(Drop)]
pub struct Client<S: Steps + Drop, G: Gate + Drop> {
    table: S,
    gate: G,
    steps: Vec<WorkStep>,
    turns: u64,
}

/// What a client does after a step.
#[derive(Clone, Copy)]
enum Next {
    GoOn,
    Abort,
}

impl<S: Steps + Drop, G: Gate + Drop> Model for Client<S, G> {
    ghost Value = { S };

    ghost view = { λ client. client.table };
}

impl<S: Steps + Drop, G: Gate + Drop> Client<S, G> {
    /// Returns a client on this table, with these steps and this many turns. Constant time.
    pub fn new(table: S, gate: G, steps: Vec<WorkStep>, turns: u64) -> Client<S, G>
        ensures { result ≡ table }
    {
        Client {
            table,
            gate,
            steps,
            turns,
        }
    }

    /// Gives the table back. Constant time.
    pub fn into_steps(self) -> S
        ensures { result ≡ self }
    {
        let Client {
            table,
            gate: _,
            steps: _,
            turns: _,
        } = self;
        table
    }

    /// Runs the transaction, and leaves the gate last. It makes one abort exactly if it ends `Aborted`, and else none.
    ///
    /// A call that is refused ends it as `Refused`, after one try at `finish`; but a `begin` that is refused as `Full` is tried again, and
    /// a `transmit` or `detect` that is refused as `NotWaiting` says that the resource is its own by now. `O(steps + turns)` calls.
    pub fn run(&mut self) -> End
        ensures aborts { (S.shares self.new).aborts ≡ (S.shares self.old).aborts + aborts_of result }
        ensures parts { (S.shares self.new).parts ≡ (S.shares self.old).parts }
    {
        let end = self.transaction();
        self.gate.leave();
        end
    }

    /// Runs the transaction, and then each of these if the one before it finished or was aborted, and leaves the gate last. Each makes
    /// its calls as `run` does, with all turns, and one abort exactly if it ends `Aborted`, and else none. Takes memory if the steps
    /// of the first one have no room for others; a transaction for which that is refused ends as `Refused` in place of its begin.
    pub fn run_all(&mut self, stream: &mut TransactionStream) -> ClientEnds
        ensures aborts { (S.shares self.new).aborts ≡ (S.shares self.old).aborts + result.earlier.aborted + aborts_of result.last }
        ensures parts { (S.shares self.new).parts ≡ (S.shares self.old).parts }
        ensures few { result.earlier.finished + result.earlier.aborted < 1000000 }
        ensures all { ends_well result.last ≡ true → result.earlier.finished + result.earlier.aborted + 1 ≡ stream.old.shape.transactions }
    {
        let ends = self.transactions(stream);
        self.gate.leave();
        ends
    }

    /// The transactions, from the begin of the first one to the end of the last one.
    fn transactions(&mut self, stream: &mut TransactionStream) -> ClientEnds
        ensures aborts { (S.shares self.new).aborts ≡ (S.shares self.old).aborts + result.earlier.aborted + aborts_of result.last }
        ensures parts { (S.shares self.new).parts ≡ (S.shares self.old).parts }
        ensures few { result.earlier.finished + result.earlier.aborted < 1000000 }
        ensures all { ends_well result.last ≡ true → result.earlier.finished + result.earlier.aborted + 1 ≡ stream.old.shape.transactions }
    {
        let turns = self.turns;
        let mut earlier = EarlierEnds::NONE;
        let mut last = self.transaction();
        for _more in 0..stream.count() {
            if !earlier.count(last) {
                return ClientEnds { earlier, last };
            }
            last = self.next(stream, turns);
        }
        ClientEnds { earlier, last }
    }

    /// Returns the next one of these transactions, with this many turns.
    fn next(&mut self, stream: &mut TransactionStream, turns: u64) -> End
        ensures aborts { (S.shares self.new).aborts ≡ (S.shares self.old).aborts + aborts_of result }
        ensures parts { (S.shares self.new).parts ≡ (S.shares self.old).parts }
    {
        if stream.draw(&mut self.steps).is_err() {
            return End::Refused(Refusal::Memory.number());
        }
        self.turns = turns;
        self.transaction()
    }

    /// The transaction, from its begin to its end.
    fn transaction(&mut self) -> End
        ensures aborts { (S.shares self.new).aborts ≡ (S.shares self.old).aborts + aborts_of result }
        ensures parts { (S.shares self.new).parts ≡ (S.shares self.old).parts }
    {
        let key = match self.begin() {
            Ok(key) => key,
            Err(end) => return end,
        };
        match self.all_steps(key) {
            Ok(Next::GoOn) => self.finish(key),
            Ok(Next::Abort) => self.abort(key),
            Err(end) => end,
        }
    }

    /// Tries to begin, until a process is free.
    fn begin(&mut self) -> Result<Key, End>
        ensures end { IfErr result (λ end. is_aborted end ≡ false) }
        ensures aborts { (S.shares self.new).aborts ≡ (S.shares self.old).aborts }
        ensures parts { (S.shares self.new).parts ≡ (S.shares self.old).parts }
    {
        for left in (0..self.turns).rev() {
            self.turns = left;
            match self.table.begin() {
                Ok(key) => return Ok(key),
                Err(Refusal::Full) => thread::yield_now(),
                Err(refusal) => return Err(End::Refused(refusal.number())),
            }
        }
        Err(End::Spent)
    }

    /// All steps in order, up to a verdict.
    fn all_steps(&mut self, key: Key) -> Result<Next, End>
        ensures end { IfErr result (λ end. is_aborted end ≡ false) }
        ensures aborts { (S.shares self.new).aborts ≡ (S.shares self.old).aborts }
        ensures parts { (S.shares self.new).parts ≡ (S.shares self.old).parts }
    {
        for place in 0..self.steps.len() {
            let Some(step) = self.steps.get(place) else {
                return Ok(Next::GoOn);
            };
            let step = *step;
            if let Next::Abort = self.step(key, step)? {
                return Ok(Next::Abort);
            }
        }
        Ok(Next::GoOn)
    }

    /// One step.
    fn step(&mut self, key: Key, step: WorkStep) -> Result<Next, End>
        ensures end { IfErr result (λ end. is_aborted end ≡ false) }
        ensures aborts { (S.shares self.new).aborts ≡ (S.shares self.old).aborts }
        ensures parts { (S.shares self.new).parts ≡ (S.shares self.old).parts }
    {
        match step {
            WorkStep::Acquire(resource) => match self.table.acquire(key, resource) {
                Ok(Acquired::Granted) => Ok(Next::GoOn),
                Ok(Acquired::Waits { .. }) => self.wait(key),
                Err(refusal) => Err(self.end_refused(key, refusal)),
            },
            WorkStep::Release(resource) => match self.table.release(key, resource) {
                Ok(_) => Ok(Next::GoOn),
                Err(refusal) => Err(self.end_refused(key, refusal)),
            },
            WorkStep::Meet(arrivals) => self.meet(arrivals),
        }
    }

    /// Rounds of waiting, until the resource is its own or a verdict stands.
    fn wait(&mut self, key: Key) -> Result<Next, End>
        ensures end { IfErr result (λ end. is_aborted end ≡ false) }
        ensures aborts { (S.shares self.new).aborts ≡ (S.shares self.old).aborts }
        ensures parts { (S.shares self.new).parts ≡ (S.shares self.old).parts }
    {
        for left in (0..self.turns).rev() {
            self.turns = left;
            match self.round(key) {
                Ok(Some(next)) => return Ok(next),
                Ok(None) => thread::yield_now(),
                Err(Refusal::NotWaiting) => return Ok(Next::GoOn),
                Err(refusal) => return Err(self.end_refused(key, refusal)),
            }
        }
        Err(End::Spent)
    }

    /// One round of waiting. `None` if it waits on.
    fn round(&mut self, key: Key) -> Result<Option<Next>, Refusal>
        ensures aborts { (S.shares self.new).aborts ≡ (S.shares self.old).aborts }
        ensures parts { (S.shares self.new).parts ≡ (S.shares self.old).parts }
    {
        self.table.transmit(key)?;
        match self.table.detect(key)? {
            Detected::Clear => Ok(None),
            Detected::Deadlock(_) | Detected::Standing => Ok(Some(Next::Abort)),
        }
    }

    /// Arrives at the gate, and asks until it may pass.
    fn meet(&mut self, arrivals: u32) -> Result<Next, End>
        ensures end { IfErr result (λ end. is_aborted end ≡ false) }
        ensures same { self.new ≡ self.old }
    {
        self.gate.arrive();
        for left in (0..self.turns).rev() {
            self.turns = left;
            if self.gate.may_pass(arrivals) {
                return Ok(Next::GoOn);
            }
            thread::yield_now();
        }
        Err(End::Spent)
    }

    /// The end of a transaction that made all of its steps.
    fn finish(&mut self, key: Key) -> End
        ensures end { is_aborted result ≡ false }
        ensures aborts { (S.shares self.new).aborts ≡ (S.shares self.old).aborts }
        ensures parts { (S.shares self.new).parts ≡ (S.shares self.old).parts }
    {
        match self.table.finish(key) {
            Ok(()) => End::Finished,
            Err(refusal) => End::Refused(refusal.number()),
        }
    }

    /// The end of a transaction with a verdict.
    fn abort(&mut self, key: Key) -> End
        ensures aborts { (S.shares self.new).aborts ≡ (S.shares self.old).aborts + aborts_of result }
        ensures parts { (S.shares self.new).parts ≡ (S.shares self.old).parts }
    {
        match self.table.abort(key) {
            Ok(()) => End::Aborted,
            Err(refusal) => self.end_refused(key, refusal),
        }
    }

    /// The end after a call that was refused: it tries once to finish, whatever that answers.
    fn end_refused(&mut self, key: Key, refusal: Refusal) -> End
        ensures end { is_aborted result ≡ false }
        ensures aborts { (S.shares self.new).aborts ≡ (S.shares self.old).aborts }
        ensures parts { (S.shares self.new).parts ≡ (S.shares self.old).parts }
    {
        let _ = self.table.finish(key);
        End::Refused(refusal.number())
    }
}
