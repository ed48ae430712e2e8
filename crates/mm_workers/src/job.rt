//! What a worker's thread takes along, and what it gives back. Of a thread's result a proof knows what its type says, so each of these
//! keeps its facts by its type.
ghost use Rattle.std.specs.Prelude.{◌≡◌, ◌+◌, ◌<◌};
ghost use Rattle.mm_counts.specs.Shares.{less_parts};
ghost use Rattle.mm_clients.specs.End.{aborts_of};

use crate::divisible::Divisible;
use mm_clients::{Client, ClientEnds, Gate, Steps, Transmitter};
use mm_thread_jobs::Job;
use mm_workload::{TransactionStream, WorkStep};

/// What a client is made of: a part of the table, at which no abort is counted, a gate, the steps of its first transaction, and the
/// transactions that follow it.
#[derive(Drop)]
pub struct ClientJob<S: Steps + Drop, G: Gate + Drop> {
    part: S,
    gate: G,
    work: Vec<WorkStep>,
    stream: TransactionStream,
    turns: u64,
    ghost one_part: { (S.shares part).parts ≡ 1 },
    ghost no_abort: { (S.shares part).aborts ≡ 0 },
}

impl<S: Divisible + Drop, G: Gate + Drop> ClientJob<S, G> {
    /// Returns the job of a client with a part of this table.
    pub fn new(
        table: &mut S,
        gate: G,
        work: Vec<WorkStep>,
        stream: TransactionStream,
        turns: u64,
    ) -> ClientJob<S, G>
        requires { 1 < (S.shares table.old).parts }
        ensures { S.shares table.new ≡ less_parts (S.shares table.old) 1 }
    {
        ClientJob {
            part: table.split(),
            gate,
            work,
            stream,
            turns,
        }
    }
}

/// Makes the client, and runs it.
impl<S: Steps + Drop, G: Gate + Drop> Job for ClientJob<S, G> {
    type Gives = Ended<S>;

    fn run(self) -> Ended<S> {
        let ClientJob {
            part,
            gate,
            work,
            mut stream,
            turns,
        } = self;
        let mut client = Client::new(part, gate, work, turns);
        let ends = client.run_all(&mut stream);
        Ended {
            ends,
            part: client.into_steps(),
        }
    }
}

/// What a transmitter is made of: a part of the table, at which no abort is counted, and a gate.
#[derive(Drop)]
pub struct TransmitterJob<S: Steps + Drop, G: Gate + Drop> {
    part: S,
    gate: G,
    processes: u32,
    turns: u64,
    ghost one_part: { (S.shares part).parts ≡ 1 },
    ghost no_abort: { (S.shares part).aborts ≡ 0 },
}

impl<S: Divisible + Drop, G: Gate + Drop> TransmitterJob<S, G> {
    /// Returns the job of a transmitter with a part of this table.
    pub fn new(table: &mut S, gate: G, turns: u64) -> TransmitterJob<S, G>
        requires { 1 < (S.shares table.old).parts }
        ensures { S.shares table.new ≡ less_parts (S.shares table.old) 1 }
    {
        TransmitterJob {
            part: table.split(),
            gate,
            processes: table.processes(),
            turns,
        }
    }
}

/// Makes the transmitter, and runs it.
impl<S: Steps + Drop, G: Gate + Drop> Job for TransmitterJob<S, G> {
    type Gives = Stopped<S>;

    fn run(self) -> Stopped<S> {
        let TransmitterJob {
            part,
            gate,
            processes,
            turns,
        } = self;
        let mut transmitter = Transmitter::new(part, gate, processes, turns);
        transmitter.run();
        Stopped {
            part: transmitter.into_steps(),
        }
    }
}

/// How a client's transactions ended, and its part of the table, which counts the client's aborts.
#[derive(Drop)]
pub struct Ended<S: Steps + Drop> {
    ends: ClientEnds,
    part: S,
    ghost one_part: { (S.shares part).parts ≡ 1 },
    ghost counted: { (S.shares part).aborts ≡ ends.earlier.aborted + aborts_of ends.last },
    ghost few: { ends.earlier.finished + ends.earlier.aborted < 1000000 },
}

impl<S: Steps + Drop> Ended<S> {
    /// The ends, and the part.
    pub fn into_parts(self) -> (ClientEnds, S)
        ensures one_part { (S.shares result.1).parts ≡ 1 }
        ensures counted { (S.shares result.1).aborts ≡ result.0.earlier.aborted + aborts_of result.0.last }
        ensures few { result.0.earlier.finished + result.0.earlier.aborted < 1000000 }
    {
        let Ended { ends, part } = self;
        (ends, part)
    }
}

/// A transmitter's part of the table, at which no abort is counted.
#[derive(Drop)]
pub struct Stopped<S: Steps + Drop> {
    part: S,
    ghost one_part: { (S.shares part).parts ≡ 1 },
    ghost no_abort: { (S.shares part).aborts ≡ 0 },
}

impl<S: Steps + Drop> Stopped<S> {
    /// The part.
    pub fn into_part(self) -> S
        ensures one_part { (S.shares result).parts ≡ 1 }
        ensures no_abort { (S.shares result).aborts ≡ 0 }
    {
        let Stopped { part } = self;
        part
    }
}
