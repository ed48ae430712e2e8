//! What two threads do.
use crate::tests::helpers::{is_done, same, session, takes, tried};
use mm_locks::{LockError, Locks, Session, Transaction};
use std::process::Abort;
use std::sync::{Barrier, Wait};
use std::time::Clock;

/// Locks a name, after which the transaction can commit. After a deadlock it gives the other one back, which it locked since its savepoint, and
/// asks for both again.
fn go_on<R: Wait + Clock + Abort>(
    rt: &R,
    transaction: &mut Transaction<'_, '_, '_, R>,
    names: [&[u8]; 2],
) {
    for _ in rt.forever() {
        match is_done(transaction.lock(names[1])) {
            Err(LockError::Deadlock) => {
                same(rt, tried(transaction.try_lock(names[1])), Ok(false));
                let again = is_done(transaction.lock(names[1]));
                same(rt, again, Err(LockError::Deadlock));
                same(rt, is_done(transaction.unlock(names[0])), Ok(true));
                same(rt, is_done(transaction.lock(names[0])), Ok(true));
            }
            answer => {
                same(rt, answer, Ok(true));
                return;
            }
        }
    }
    unreachable!()
}

/// What the two threads lock: a name of its own, before its savepoint, and two names in opposite orders.
fn names_of(number: usize) -> (&'static [u8], [&'static [u8]; 2]) {
    if number == 0 {
        (b"first", [b"left", b"right"])
    } else {
        (b"second", [b"right", b"left"])
    }
}

/// How often each of two threads commits.
const TIMES: u32 = 200;

/// Two threads lock two names in opposite orders, until each has committed so often.
pub fn cross_often<R: Wait + Clock + Abort>(rt: &R, locks: &Locks, gate: &Barrier, number: usize) {
    let mut session = session(rt, locks);
    let (own, names) = names_of(number);
    gate.wait(rt);
    for _ in 0..TIMES {
        let mut transaction = session.begin();
        takes(rt, &mut transaction, own);
        takes(rt, &mut transaction, names[0]);
        go_on(rt, &mut transaction, names);
        same(rt, is_done(transaction.commit()), Ok(true));
    }
}

/// Two threads lock a name each before either asks for that of the other one. One of them is told of the deadlock, and both commit.
pub fn cross_once<R: Wait + Clock + Abort>(rt: &R, locks: &Locks, gate: &Barrier, number: usize) {
    let mut session = session(rt, locks);
    let (own, names) = names_of(number);
    let mut transaction = session.begin();
    takes(rt, &mut transaction, own);
    takes(rt, &mut transaction, names[0]);
    gate.wait(rt);
    go_on(rt, &mut transaction, names);
    same(rt, is_done(transaction.commit()), Ok(true));
}

/// More names than a worker has records.
static NAMES: [&[u8]; 18] = [
    b"north", b"east", b"south", b"west", b"a", b"b", b"c", b"d", b"e", b"f", b"g", b"h", b"i",
    b"j", b"k", b"l", b"m", b"n",
];

/// How often each of two threads makes a transaction at a manager that has room for one name.
const ROUNDS: usize = 5_000;

/// Owns the second name for some while, and gives it back, at times before the end. The manager may have no room for it.
fn hold<R: Wait + Clock + Abort>(rt: &R, session: &mut Session<'_, '_, R>, round: usize) {
    let mut transaction = session.begin();
    if let Err(LockError::NamesFull) = is_done(transaction.lock(NAMES[1])) {
        return;
    }
    for _ in 0..round % 64 {
        takes(rt, &mut transaction, NAMES[1]);
    }
    if round % 2 == 0 {
        same(rt, is_done(transaction.unlock(NAMES[1])), Ok(true));
    }
    same(rt, is_done(transaction.commit()), Ok(true));
}

/// Locks the first name, and then the second one. The manager has no room for both, if it is to have them.
fn want<R: Wait + Clock + Abort>(rt: &R, session: &mut Session<'_, '_, R>) {
    let mut transaction = session.begin();
    for name in [NAMES[0], NAMES[1]] {
        match is_done(transaction.lock(name)) {
            Err(LockError::NamesFull) => {}
            answer => same(rt, answer, Ok(true)),
        }
    }
    same(rt, is_done(transaction.commit()), Ok(true));
}

/// How many of the names one transaction can lock.
fn count_free<R: Wait + Clock + Abort>(rt: &R, session: &mut Session<'_, '_, R>) -> u64 {
    let mut transaction = session.begin();
    let mut owned = 0u64;
    for name in NAMES {
        match is_done(transaction.lock(name)) {
            Err(LockError::NamesFull) => {}
            answer => {
                same(rt, answer, Ok(true));
                owned = owned.wrapping_add(1);
            }
        }
    }
    owned
}

/// One thread wants a name of the other one that a manager with room for one name cannot take over, while the other one gives it back. One
/// transaction can lock so many names after each round, at the least.
pub fn share_one_place<R: Wait + Clock + Abort>(
    rt: &R,
    locks: &Locks,
    gate: &Barrier,
    number: usize,
    expected: u64,
) {
    let mut session = session(rt, locks);
    let mut least = NAMES.len() as u64;
    for round in 0..ROUNDS {
        gate.wait(rt);
        if number == 0 {
            want(rt, &mut session);
        } else {
            hold(rt, &mut session, round);
        }
        gate.wait(rt);
        if number == 0 {
            least = least.min(count_free(rt, &mut session));
        }
    }
    if number == 0 {
        same(rt, least, expected);
    }
}
