//! `bench_locks WAY THREADS NAMES MILLISECONDS`: this many threads make transactions for so long, at one `Locks`, on this many names. It prints
//! how many nanoseconds that took, how many transactions were committed, how often one was aborted after a deadlock, and how often a name was
//! found with two owners at a time. The ways:
//!
//! - `one`: four locks, one after the other. `all`: four locks by `lock_all`. `run`: by `run` with `lock_all`.
//! - `crowd`: one to six locks, as by `one` or as by `all`, and each looks whether it is the only owner of its names.
//! - `sleep`: one owns a name until the end, and all others wait for it.
//!
//! `bench_locks late LENGTH`: a chain of this many transactions, the front of which blocks anew while each other one waits for the one before it
//! with a time of 20 milliseconds. It prints for each of these how many nanoseconds after its time it came back, one a line.
//!
//! `bench_locks last LENGTH own|carried`: a chain of this many transactions that wait, the last of which alone has that time. With `carried` the
//! front blocks while the last one waits, so that the last one carries its label; else it blocks before. It prints how many nanoseconds after its
//! time the last one came back.
//!
//! `bench_locks history THREADS NAMES TRANSACTIONS RUNS SEED`: so many times, this many threads make transactions of calls by chance, on this many
//! names. It prints each call, "thread start end kind name answer" by the clock in nanoseconds, and the line "run" after each time.
//!
//! The modules:
//!
//! - `calls`: calls that are written down.
//! - `history`: threads that write their calls down.
//! - `late`: chains of transactions that wait with a time.
//! - `names`: the names, and which of them a transaction locks.
//! - `shared`: what all threads share, and what each has done.
//! - `transfers`: transactions of four locks.
//! - `crowd`: transactions that look who else owns their names.
//! - `threads`: threads that are at work at once.
#![tactic(auto)]

mod calls;
mod crowd;
mod history;
mod late;
mod names;
mod shared;
mod threads;
mod transfers;

use history::{Size, print_runs};
use late::{Chain, late};
use mm_locks::{Locks, LocksConfig, ManagerConfig};
use names::{Name, all_names};
use shared::{Done, Way};
use std::alloc::{AllocError, Global};
use std::sync::Wait;
use std::sync::atomic::AtomicU64;
use std::thread::Threads;
use std::time::Clock;
use std::{env, io};
use threads::timed;

const MAX_THREADS: u32 = 64;

const MAX_NAMES: u32 = 65_536;

/// How many buckets the locks have.
const BUCKETS: u32 = 65_536;

/// The number that a word of the command line is; 0 if it is none.
fn number(word: Option<String>) -> u32 {
    match word {
        Some(word) => word.as_str().parse::<u32>().unwrap_or(0),
        None => 0,
    }
}

/// Opens locks and runs the threads.
fn run<R: Threads + Wait + Clock + Sync>(
    rt: &R,
    alloc: Global,
    way: Way,
    threads: u32,
    names: &[Name],
    milliseconds: u32,
) -> Result<Option<Done>, AllocError> {
    let mut owners = Vec::with_capacity(alloc, names.len())?;
    for _ in names {
        owners.push(AtomicU64::new(0))?;
    }
    let config = LocksConfig {
        manager: ManagerConfig {
            transactions: MAX_THREADS + 1,
            names: MAX_NAMES,
            name_bytes: 16,
            names_each: 0,
            seed: 7,
        },
        buckets: BUCKETS,
    };
    let Ok(locks) = Locks::open(alloc, config) else {
        return Ok(None);
    };
    let done = timed(
        rt,
        alloc,
        &locks,
        names,
        owners.as_slice(),
        way,
        threads,
        milliseconds,
    );
    drop(locks);
    done.map(Some)
}

/// The longest chain of which all have a time, and the longest one of which the last alone has one.
const MAX_TIMED: u32 = 64;

const MAX_WAITING: u32 = 4_095;

/// Prints for each of a chain that waits with a time how long after its time it came back.
fn print_late<R: Print + Threads + Wait + Clock + Sync>(
    rt: &R,
    alloc: Global,
    chain: Chain,
) -> io::Result<()> {
    print_each(rt, late(rt, alloc, chain)?.as_slice())
}

/// Prints the times that are there, one a line.
fn print_each<R: Print>(rt: &R, times: &[Option<u64>]) -> io::Result<()> {
    for nanoseconds in times {
        if let Some(nanoseconds) = nanoseconds {
            println!(rt; "{nanoseconds}")?;
        }
    }
    Ok(())
}

/// Runs the threads, and prints what they have done.
fn print_done<R: Print + Threads + Wait + Clock + Sync>(
    rt: &R,
    alloc: Global,
    way: Way,
    threads: u32,
    names: u32,
    milliseconds: u32,
) -> io::Result<()> {
    let names = all_names(alloc, names)?;
    let Some(done) = run(rt, alloc, way, threads, names.as_slice(), milliseconds)? else {
        return println!(rt; "no memory");
    };
    println!(rt;
        "{} {} {} {}",
        done.nanoseconds, done.commits, done.aborts, done.shared
    )
}

/// The most threads, names, transactions of each thread, and runs of a history.
const MAX_SCRIBES: u32 = 8;

const MAX_LETTERS: u32 = 26;

const MAX_TRANSACTIONS: u32 = 1_000;

const MAX_RUNS: u32 = 1_000_000;

fn main(rt: HostRuntime) -> io::Result<()> {
    let mut words = env::args(&rt)?;
    let _ = words.next();
    // Without words it prints nothing, so that its run can be compared.
    let Some(word) = words.next() else {
        return Ok(());
    };
    if word.as_str() == "late" {
        let chain = Chain {
            last: number(words.next()).clamp(2, MAX_TIMED) as u16,
            are_all_timed: true,
            is_carried: true,
        };
        return print_late(&rt, rt.alloc(), chain);
    }
    if word.as_str() == "last" {
        let chain = Chain {
            last: number(words.next()).clamp(2, MAX_WAITING) as u16,
            are_all_timed: false,
            is_carried: words.next().is_some_and(|word| word.as_str() == "carried"),
        };
        return print_late(&rt, rt.alloc(), chain);
    }
    if word.as_str() == "history" {
        let size = Size {
            threads: number(words.next()).clamp(1, MAX_SCRIBES),
            names: number(words.next()).clamp(1, MAX_LETTERS),
            transactions: number(words.next()).clamp(1, MAX_TRANSACTIONS),
            seed: 0,
        };
        let runs = number(words.next()).clamp(1, MAX_RUNS);
        let seed = number(words.next());
        return print_runs(&rt, rt.alloc(), Size { seed, ..size }, runs);
    }
    let Some(way) = Way::named(word.as_str()) else {
        return Ok(());
    };
    let threads = number(words.next()).clamp(1, MAX_THREADS);
    let names = number(words.next()).clamp(8, MAX_NAMES);
    let milliseconds = number(words.next());
    print_done(&rt, rt.alloc(), way, threads, names, milliseconds)
}
