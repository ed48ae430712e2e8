//! The end of a transaction that owns many names.
use crate::tests::clocks::{Hand, Timed};
use crate::tests::helpers::{holds, session, takes, tried};
use crate::tests::steps::{End, finish};
use mm_locks::{Locks, Session};
use std::process::Abort;
use std::sync::{Barrier, Wait};
use std::time::Clock;

/// How many names the first thread owns: more than an end hands over at a time.
const MANY: u16 = 1_000;

/// The first name that a transaction locks in the manager, after sixteen by their words.
const FIRST_KNOWN: u16 = 16;

/// How often it ends at the most, until the other thread has seen one end between two portions.
const ROUNDS: u32 = 50;

/// By how much each reading moves the owner's clock, in nanoseconds: it stays away between two portions for a hundred readings, before each of
/// which it yields its processor, however long that takes.
const SLOW: u64 = 500;

/// Owns many names, and ends once the other thread is ready.
fn own_many<C: Wait + Clock, R: Wait + Abort>(
    rt: &R,
    session: &mut Session<'_, '_, C>,
    gate: &Barrier,
    how: End,
) {
    let mut transaction = session.begin();
    for number in 0..MANY {
        takes(rt, &mut transaction, &number.to_le_bytes());
    }
    gate.wait(rt);
    finish(rt, transaction, how);
}

/// Owns many names and ends, again and again, until the other thread has seen it.
fn own_often<R: Wait + Clock + Abort>(
    rt: &R,
    locks: &Locks,
    gate: &Barrier,
    hand: &Hand,
    how: End,
) {
    let clock = &Timed::new(rt, hand, SLOW);
    let mut session = locks.session(clock).expect(rt, "there is room");
    for _ in 0..ROUNDS {
        own_many(rt, &mut session, gate, how);
        gate.wait(rt);
        if hand.is_over() {
            break;
        }
    }
    drop(session);
}

/// Waits for a name while its owner ends. Returns whether the owner still owns the other name then.
fn is_amid_end<R: Wait + Clock + Abort>(
    rt: &R,
    session: &mut Session<'_, '_, R>,
    gate: &Barrier,
    wanted: u16,
    other: u16,
) -> bool {
    gate.wait(rt);
    let mut transaction = session.begin();
    takes(rt, &mut transaction, &wanted.to_le_bytes());
    let is_owned = tried(transaction.try_lock(&other.to_le_bytes())) == Ok(false);
    drop(transaction);
    is_owned
}

/// Waits for the first name and for the last in turn, since an end hands names over in no order that is promised, until it was once granted one
/// of the two while the other one was not given back yet.
fn look_often<R: Wait + Clock + Abort>(rt: &R, locks: &Locks, gate: &Barrier, hand: &Hand) {
    let mut session = session(rt, locks);
    let last = MANY - 1;
    for round in 0..ROUNDS {
        let (wanted, other) = if round % 2 == 0 {
            (FIRST_KNOWN, last)
        } else {
            (last, FIRST_KNOWN)
        };
        if is_amid_end(rt, &mut session, gate, wanted, other) {
            hand.end();
        }
        gate.wait(rt);
        if hand.is_over() {
            break;
        }
    }
    drop(session);
    holds(
        rt,
        "a name was granted while the end went on",
        hand.is_over(),
    );
}

/// One thread owns many names and ends, again and again. The other one is once granted a name while another one is not given back yet.
pub fn hand_over_in_portions<R: Wait + Clock + Abort>(
    rt: &R,
    locks: &Locks,
    gate: &Barrier,
    hand: &Hand,
    number: usize,
    how: End,
) {
    if number == 0 {
        own_often(rt, locks, gate, hand, how);
    } else {
        look_often(rt, locks, gate, hand);
    }
}
