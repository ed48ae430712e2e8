//! `bench_shared THREADS COUNT`: this many threads make COUNT transactions each at one shared table, on separate resources. It prints how
//! many nanoseconds that took, and how many transactions were done.
//!
//! `bench_shared storm CLIENTS COUNT`: the storms of seeds 1 to COUNT with this many clients, one after another. It prints how many
//! nanoseconds that took, and how many clients finished and how many were aborted.
//!
//! `bench_shared board WORK PROCESSES COUNT`: one thread does this work COUNT times on a table of this many processes. It prints how many
//! nanoseconds that took.
//!
//! - `clock`: how long something took.
//! - `timed`: a table, and what is done with it.
//! - `board`: works that store on the board, or read it. `calls`: the calls of which they are made.
//! - `seat`: the calls of one thread at a table, as a trait without clauses: a function that makes many of them has a short proof.
//! - `threads`: threads that are at work at once. `rounds`: what one of them does.
//! - `storms`: storms, one after another.
#![tactic(auto)]

mod board;
mod calls;
mod clock;
mod rounds;
mod seat;
mod storms;
mod threads;
mod timed;

use board::Work;
use mm_shared::{Config, Prepared};
use std::alloc::Global;
use std::env::Args;
use std::marker::Brand;
use std::sync::Wait;
use std::thread::Threads;
use std::time::Clock;
use std::{env, io};
use storms::run_storms;
use timed::{Task, timed};

const MAX_THREADS: u32 = 64;

/// The number that a word of the command line is; 0 if it is none.
fn number(word: &str) -> u32 {
    word.parse::<u32>().unwrap_or(0)
}

/// The number that the next word is; 0 if it is none, or there is no word.
fn next_number(words: &mut Args) -> u32 {
    match words.next() {
        Some(word) => number(word.as_str()),
        None => 0,
    }
}

/// The numbers of the table that threads share.
fn config(processes: u32) -> Config {
    Config {
        processes,
        resources: 1024,
        label_limit: Config::MAX_LABEL_LIMIT,
        generation_limit: u32::MAX,
    }
}

/// The storms of seeds 1 to `count` with this many clients, 1 to 64, one after another.
fn print_storms<R: Print + Clock + Threads + Wait + Sync>(
    rt: &R,
    alloc: Global,
    clients: u32,
    count: u32,
) -> io::Result<()> {
    let Some(done) = run_storms(rt, alloc, clients.clamp(1, MAX_THREADS), count) else {
        return Ok(());
    };
    println!(rt; "{} {} {}", done.nanoseconds, done.finished, done.aborted)
}

/// This work on a table, this many times: the transactions of threads, or a work of one thread.
fn print_task<R: Print + Clock + Threads + Wait + Sync>(
    rt: &R,
    alloc: Global,
    task: Task,
    processes: u32,
    count: u32,
) -> io::Result<()> {
    let Ok(prepared) = Prepared::new(alloc, config(processes)) else {
        return Ok(());
    };
    let taken = timed::<Brand, Brand, Brand, Brand, _>(rt, alloc, prepared, task, count)?;
    match taken.done {
        Some(done) => println!(rt; "{} {done}", taken.nanoseconds),
        None => println!(rt; "{}", taken.nanoseconds),
    }
}

/// What the words of the command line ask for; nothing if it is not known.
fn print_for<R: Print + Clock + Threads + Wait + Sync>(
    rt: &R,
    alloc: Global,
    first: &str,
    second: &str,
    third: u32,
    fourth: u32,
) -> io::Result<()> {
    match first {
        "storm" => print_storms(rt, alloc, number(second), third),
        "board" => match Work::named(second) {
            Some(work) => print_task(rt, alloc, Task::Work(work), third, fourth),
            None => Ok(()),
        },
        _ => match number(first).min(MAX_THREADS) {
            0 => Ok(()),
            threads => print_task(
                rt,
                alloc,
                Task::Threads(threads),
                MAX_THREADS,
                number(second),
            ),
        },
    }
}

fn main(rt: HostRuntime) -> io::Result<()> {
    let mut words = env::args(&rt)?;
    let _ = words.next();
    // Without words it prints nothing, so that its run can be compared.
    let Some(first) = words.next() else {
        return Ok(());
    };
    let second = words.next().unwrap_or(String::new(rt.alloc()));
    let third = next_number(&mut words);
    let fourth = next_number(&mut words);
    print_for(
        &rt,
        rt.alloc(),
        first.as_str(),
        second.as_str(),
        third,
        fourth,
    )
}
