//! Requests that are not granted in their time, by a clock of the test's own.
use crate::tests::clocks::{Hand, MILLISECOND, Timed};
use crate::tests::helpers::{await_waits, commits, holds, is_done, same, session, takes};
use mm_locks::{LockError, Locks};
use std::process::Abort;
use std::sync::atomic::Ordering::SeqCst;
use std::sync::{Barrier, Wait};
use std::thread;
use std::time::{Clock, Duration};

/// The longest time, in milliseconds, that a request is given.
const LONGEST: u64 = 6;

/// Whoever finds the mutex taken reads the clock at the most this many times before it has it: once, and 2, 4, .. 256 times, after which it
/// sleeps for it.
const READINGS_AT_THE_MUTEX: u64 = 511;

/// For how long one waits, in microseconds, who looks at the clock so often.
const SHORT: u64 = 50;

/// Asks for a name that another transaction owns and keeps, and gives up after this many milliseconds, where each reading of the clock is a
/// millisecond later than the one before. Ends the test unless that time had passed when the clock was read last.
fn is_taken_back<R: Wait + Clock + Abort>(rt: &R, locks: &Locks, limit: u64) {
    let hand = &Hand::new();
    let clock = &Timed::new(rt, hand, MILLISECOND);
    let mut session = locks.session(clock).expect(rt, "there is room");
    let mut waiter = session.begin();
    let answer = is_done(waiter.lock_for(b"a", Duration::from_millis(limit)));
    // The first reading is at 0.
    let readings = hand.readings.load(SeqCst);
    same(rt, answer, Err(LockError::TimedOut));
    holds(rt, "the time has passed", readings >= limit);
    drop(waiter);
    drop(session);
}

/// A request for a name that stays owned is taken back, and not before its time.
pub fn each_time_passes<R: Wait + Clock + Abort>(rt: &R, locks: &Locks) {
    let mut session = session(rt, locks);
    let mut owner = session.begin();
    takes(rt, &mut owner, b"a");
    for limit in 0..=LONGEST {
        is_taken_back(rt, locks, limit);
    }
    commits(rt, owner);
    drop(session);
}

/// Owns `a`, and waits for `b`.
fn wait_first<R: Wait + Clock + Abort>(rt: &R, locks: &Locks, gate: &Barrier) {
    let mut session = session(rt, locks);
    let mut first = session.begin();
    takes(rt, &mut first, b"a");
    gate.wait(rt);
    takes(rt, &mut first, b"b");
    commits(rt, first);
    drop(session);
}

/// Waits until the clock was read so often that whoever found the mutex taken has had it since.
fn await_readings<R: Wait>(rt: &R, hand: &Hand) {
    let most = hand
        .early
        .load(SeqCst)
        .saturating_add(READINGS_AT_THE_MUTEX);
    for _ in rt.forever() {
        if hand.early.load(SeqCst) > most {
            return;
        }
        thread::yield_now();
    }
}

/// Waits until the request has been taken back.
fn await_end<R: Wait>(rt: &R, hand: &Hand) {
    for _ in rt.forever() {
        if hand.is_over() {
            return;
        }
        thread::yield_now();
    }
}

/// Owns `b`, and is told of a deadlock once the two others wait for it. Moves the clock, and does nothing until one of the two has taken its
/// request back. Then it gives `b` back, which it locked since its savepoint, asks for both names again, and commits.
fn be_told<R: Wait + Clock + Abort>(rt: &R, locks: &Locks, gate: &Barrier, hand: &Hand) {
    let mut session = session(rt, locks);
    let mut told = session.begin();
    takes(rt, &mut told, b"b");
    gate.wait(rt);
    await_waits(rt, locks, 2);
    same(rt, is_done(told.lock(b"a")), Err(LockError::Deadlock));
    await_readings(rt, hand);
    hand.time.store(MILLISECOND, SeqCst);
    await_end(rt, hand);
    same(rt, is_done(told.unlock(b"b")), Ok(true));
    takes(rt, &mut told, b"a");
    takes(rt, &mut told, b"b");
    commits(rt, told);
    drop(session);
}

/// Waits for `b` behind the other one, with a time, and gives up at the first reading of the clock after that.
fn give_up_behind<R: Wait + Clock + Abort>(rt: &R, locks: &Locks, gate: &Barrier, hand: &Hand) {
    let clock = &Timed::new(rt, hand, 0);
    let mut session = locks.session(clock).expect(rt, "there is room");
    let mut waiter = session.begin();
    gate.wait(rt);
    await_waits(rt, locks, 1);
    let answer = is_done(waiter.lock_for(b"b", Duration::from_micros(SHORT)));
    same(rt, hand.readings.load(SeqCst), 1);
    same(rt, answer, Err(LockError::TimedOut));
    hand.end();
    drop(waiter);
    drop(session);
}

/// Of three threads one is told of a deadlock, and another one waits behind it, whose time is up then: it takes its request back at once. The
/// two of the deadlock commit.
pub fn behind_a_deadlock<R: Wait + Clock + Abort>(
    rt: &R,
    locks: &Locks,
    gate: &Barrier,
    hand: &Hand,
    thread: usize,
) {
    match thread {
        0 => wait_first(rt, locks, gate),
        1 => be_told(rt, locks, gate, hand),
        _ => give_up_behind(rt, locks, gate, hand),
    }
}
