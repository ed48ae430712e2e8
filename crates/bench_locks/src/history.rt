//! Threads that make calls by chance at one `Locks`, each of which is written down: when it began and ended, and what it was told.

use crate::calls::{Answer, Call, Kind};
use crate::threads::nanoseconds_since;
use mm_locks::{Locks, LocksConfig, ManagerConfig, Session, Transaction};
use rand_core::utils::NextWord;
use rand_pcg::Lcg64Xsh32;
use std::alloc::{AllocError, Global};
use std::sync::{Barrier, Wait};
use std::thread::Threads;
use std::time::{Clock, Instant};
use std::{io, thread};

/// How many calls a transaction makes at the most before its end.
const MOST_CALLS: u32 = 4;

/// Of so many transactions that were not told of a deadlock one is rolled back, by chance.
const ROLLED_BACK: u32 = 4;

/// How many buckets the locks have in every second run, and in the others: with few of them most names are the manager's.
const FEW_BUCKETS: u32 = 2;

const MANY_BUCKETS: u32 = 64;

/// The numbers of a run.
#[derive(Clone, Copy)]
pub struct Size {
    pub threads: u32,
    /// How many names there are: one to 26.
    pub names: u32,
    /// How many transactions each thread makes.
    pub transactions: u32,
    pub seed: u32,
}

/// What the threads of a run share.
#[derive(Drop)]
struct Run<'a> {
    locks: &'a Locks,
    size: Size,
    /// All wait here before they begin.
    gate: &'a Barrier,
    /// The time from which on nanoseconds are counted.
    start: Option<Instant>,
}

impl Run<'_> {
    /// How many nanoseconds have passed.
    fn now<R: Clock>(&self, rt: &R) -> u64 {
        nanoseconds_since(rt, self.start)
    }
}

/// A thread, and the calls that it has made.
#[derive(Drop)]
struct Scribe {
    number: u32,
    random: Lcg64Xsh32,
    calls: Vec<Call>,
}

impl Scribe {
    /// A thread with memory for this many calls.
    fn new(alloc: Global, number: u32, seed: u32, calls: usize) -> Result<Scribe, AllocError> {
        Ok(Scribe {
            number,
            random: Lcg64Xsh32::new(u64::from(seed), u64::from(number)),
            calls: Vec::with_capacity(alloc, calls)?,
        })
    }

    /// A number below the bound by chance; 0 if there is none.
    fn below(&mut self, bound: u32) -> u32 {
        let word = self.random.next_word();
        if bound == 0 { 0 } else { word % bound }
    }

    /// Writes the call down. It takes no memory: there is room for all calls.
    fn note(&mut self, call: Call) {
        if self.calls.len() < self.calls.capacity() {
            self.calls.push_reserved(call);
        }
    }

    /// What a call asks for: mostly to lock.
    fn kind(&mut self) -> Kind {
        match self.below(8) {
            0 => Kind::Unlock,
            1 => Kind::Try,
            2 => Kind::LockFor,
            _ => Kind::Lock,
        }
    }

    /// Makes one call of a transaction, and writes it down. Returns what it was told.
    fn call<R: Wait + Clock>(
        &mut self,
        rt: &R,
        run: &Run<'_>,
        transaction: &mut Transaction<'_, '_, '_, R>,
    ) -> Answer {
        let kind = self.kind();
        let name = b'a'.saturating_add((self.below(run.size.names) & 0x1f) as u8);
        let start = run.now(rt);
        let answer = kind.made(transaction, &[name]);
        let end = run.now(rt);
        self.note(Call {
            start,
            end,
            kind,
            name,
            answer,
        });
        answer
    }

    /// Makes a transaction, and writes each of its calls down.
    fn transaction<R: Wait + Clock>(
        &mut self,
        rt: &R,
        run: &Run<'_>,
        session: &mut Session<'_, '_, R>,
    ) {
        let mut transaction = session.begin();
        let calls = self.below(MOST_CALLS).saturating_add(1);
        let mut is_rolled_back = self.below(ROLLED_BACK) == 0;
        for _ in 0..calls {
            if let Answer::Deadlock = self.call(rt, run, &mut transaction) {
                is_rolled_back = true;
                break;
            }
        }
        let start = run.now(rt);
        let answer = ended(transaction, is_rolled_back);
        let end = run.now(rt);
        self.note(Call::of_end(start, end, answer));
    }

    /// Makes all transactions of this thread, and returns it with its calls.
    fn work<R: Wait + Clock>(mut self, rt: &R, run: &Run<'_>) -> Scribe {
        let session = run.locks.session(rt);
        run.gate.wait(rt);
        if let Ok(mut session) = session {
            for _ in 0..run.size.transactions {
                self.transaction(rt, run, &mut session);
            }
        }
        self
    }

    /// Prints its calls, one a line.
    fn print<R: Print>(&self, rt: &R) -> io::Result<()> {
        let number = self.number;
        for call in self.calls.as_slice() {
            println!(rt; "{number} {call}")?;
        }
        Ok(())
    }
}

/// Rolls the transaction back, or commits it.
fn ended<R: Wait + Clock>(transaction: Transaction<'_, '_, '_, R>, is_rolled_back: bool) -> Answer {
    if is_rolled_back {
        drop(transaction);
        return Answer::Ok;
    }
    Answer::of(transaction.commit())
}

/// The threads of a run, each with memory for all of its calls.
fn scribes(alloc: Global, size: Size) -> Result<Vec<Scribe>, AllocError> {
    let calls = (size.transactions as usize).saturating_mul(MOST_CALLS as usize + 1);
    let mut scribes = Vec::with_capacity(alloc, size.threads as usize)?;
    for number in 0..size.threads {
        scribes.push(Scribe::new(alloc, number, size.seed, calls)?)?;
    }
    Ok(scribes)
}

/// Locks for a run; `None` if they cannot be opened.
fn opened(alloc: Global, size: Size) -> Option<Locks> {
    let config = LocksConfig {
        manager: ManagerConfig {
            transactions: size.threads,
            names: size.names,
            name_bytes: 1,
            names_each: 0,
            seed: u64::from(size.seed),
        },
        buckets: if size.seed % 2 == 0 {
            FEW_BUCKETS
        } else {
            MANY_BUCKETS
        },
    };
    Locks::open(alloc, config).ok()
}

/// Lets the threads work at these locks, and returns them with their calls.
fn made<R: Threads + Wait + Clock + Sync>(
    rt: &R,
    alloc: Global,
    locks: &Locks,
    size: Size,
) -> Result<Vec<Scribe>, AllocError> {
    let scribes = scribes(alloc, size)?;
    let gate = Barrier::new(size.threads as usize);
    let run = Run {
        locks,
        size,
        gate: &gate,
        start: Instant::now(rt).ok(),
    };
    thread::map_vec(rt, scribes, &|scribe: Scribe| scribe.work(rt, &run))
}

/// Makes one run, and prints the calls of all its threads, and then the line "run".
fn print_run<R: Print + Threads + Wait + Clock + Sync>(
    rt: &R,
    alloc: Global,
    size: Size,
) -> io::Result<()> {
    let Some(locks) = opened(alloc, size) else {
        return println!(rt; "no memory");
    };
    let scribes = made(rt, alloc, &locks, size);
    drop(locks);
    for scribe in scribes?.as_slice() {
        scribe.print(rt)?;
    }
    println!(rt; "run")
}

/// Makes this many runs, each with a seed of its own, from that of the size on.
pub fn print_runs<R: Print + Threads + Wait + Clock + Sync>(
    rt: &R,
    alloc: Global,
    size: Size,
    runs: u32,
) -> io::Result<()> {
    for run in 0..runs {
        let seed = size.seed.wrapping_add(run);
        print_run(rt, alloc, Size { seed, ..size })?;
    }
    Ok(())
}
