//! A commit that wakes more threads than one wakes at a time.
use crate::tests::helpers::{await_waits, commits, session, takes};
use mm_locks::Locks;
use std::process::Abort;
use std::sync::{Barrier, Wait};
use std::time::Clock;

/// How many threads wait, each for a name of its own.
pub const WAITERS: usize = 12;

/// Owns all names, and commits once each has a waiter.
fn own_all<R: Wait + Clock + Abort>(rt: &R, locks: &Locks, gate: &Barrier) {
    let mut session = session(rt, locks);
    let mut owner = session.begin();
    for name in 0..WAITERS {
        takes(rt, &mut owner, &(name as u64).to_le_bytes());
    }
    gate.wait(rt);
    await_waits(rt, locks, WAITERS as u64);
    commits(rt, owner);
}

/// The last thread owns all names, and each other one waits for the name of its number.
pub fn one_wakes_all<R: Wait + Clock + Abort>(
    rt: &R,
    locks: &Locks,
    gate: &Barrier,
    number: usize,
) {
    if number == WAITERS {
        own_all(rt, locks, gate);
        return;
    }
    let mut session = session(rt, locks);
    gate.wait(rt);
    let mut waiter = session.begin();
    takes(rt, &mut waiter, &(number as u64).to_le_bytes());
    commits(rt, waiter);
}
