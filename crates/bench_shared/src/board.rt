//! Calls of a shared table that store on its board, and reads of the board.

use crate::calls::{Round, block, crowd, hand_overs, rounds};
use crate::clock::{nanoseconds_since, now};
use crate::seat::Calls;
use std::sync::atomic::AtomicBool;
use std::sync::atomic::Ordering::SeqCst;
use std::thread::{Threads, join};
use std::time::Clock;

/// What is timed.
#[derive(Clone, Copy)]
pub enum Work {
    /// One round after another.
    Rounds(Round),
    /// A release that sixteen wait for, and an acquire of who released: two calls.
    HandOvers,
    /// Reads of labels, one after another.
    Peeks,
    /// The same beside a thread that makes rounds of `Block`.
    PeeksBeside,
    /// Scans while nobody waits.
    Scans,
}

static NAMES: [(&str, Work); 8] = [
    ("grants", Work::Rounds(Round::Grant)),
    ("blocks", Work::Rounds(Round::Block)),
    ("deadlocks", Work::Rounds(Round::Deadlock)),
    ("settles", Work::Rounds(Round::Settle)),
    ("hand-overs", Work::HandOvers),
    ("peeks", Work::Peeks),
    ("peeks-beside", Work::PeeksBeside),
    ("scans", Work::Scans),
];

impl Work {
    /// The work of this name.
    pub fn named(name: &str) -> Option<Work> {
        for (word, work) in &NAMES {
            if *word == name {
                return Some(*work);
            }
        }
        None
    }
}

/// Reads the labels of all processes in turn. Returns the sum of their counters, so that no read is left out.
fn peeks<C: Calls>(seat: &mut C, count: u32) -> u64 {
    let mut sum = 0u64;
    let mut process = 0u32;
    for _ in 0..count {
        if process >= seat.processes() {
            process = 0;
        }
        sum = sum.wrapping_add(seat.peek(process));
        process = process.wrapping_add(1);
    }
    sum
}

/// Looks for a hint among all processes, this many times. Returns how many were found.
fn scans<C: Calls>(seat: &mut C, count: u32) -> u64 {
    let mut found = 0u64;
    for _ in 0..count {
        if seat.scan() {
            found = found.wrapping_add(1);
        }
    }
    found
}

/// Does the work this many times, but for `PeeksBeside`, which takes two threads.
fn work_alone<C: Calls>(seat: &mut C, work: Work, count: u32) {
    match work {
        Work::Rounds(round) => rounds(seat, round, count),
        Work::HandOvers => {
            if let Ok(owner) = crowd(seat) {
                hand_overs(seat, owner, count);
            }
        }
        Work::Peeks | Work::PeeksBeside => {
            let _ = peeks(seat, count);
        }
        Work::Scans => {
            let _ = scans(seat, count);
        }
    }
}

/// How many nanoseconds the work took.
fn time_of<C: Calls, R: Clock>(rt: &R, seat: &mut C, work: Work, count: u32) -> u64 {
    let start = now(rt);
    work_alone(seat, work, count);
    nanoseconds_since(rt, start)
}

fn blocks_until<C: Calls>(seat: &mut C, done: &AtomicBool) {
    for _ in 0..u64::MAX {
        if done.load(SeqCst) {
            return;
        }
        let _ = block(seat);
    }
}

/// How long this many peeks take, beside a thread that blocks until they are done.
fn time_beside<C: Calls + Send, R: Threads + Clock + Sync>(
    rt: &R,
    seat: &mut C,
    other: &mut C,
    count: u32,
) -> u64 {
    let is_done = AtomicBool::new(false);
    let done = &is_done;
    let (nanoseconds, _) = join(
        rt,
        || {
            let taken = time_of(rt, seat, Work::Peeks, count);
            done.store(true, SeqCst);
            taken
        },
        || blocks_until(other, done),
    );
    nanoseconds
}

/// Does the work this many times at the last of the seats. Returns how many nanoseconds it took; 0 if there is no seat.
pub fn time_of_work<C: Calls + Send + Drop, R: Threads + Clock + Sync>(
    rt: &R,
    seats: &mut Vec<C>,
    work: Work,
    count: u32,
) -> u64 {
    let Some(mut seat) = seats.pop() else {
        return 0;
    };
    match seats.last_mut() {
        Some(other) => time_beside(rt, &mut seat, other, count),
        None => time_of(rt, &mut seat, work, count),
    }
}
