//! What one thread does.
use crate::tests::helpers::{Answer, is_done, same, session, tried};
use mm_locks::{LockError, Locks};
use std::process::Abort;
use std::sync::Wait;
use std::time::{Clock, Duration};

/// Locks names, each also a second time, and gives them back, once too often.
pub fn each_name_is_known<R: Wait + Clock + Abort>(rt: &R, locks: &Locks) {
    let mut session = session(rt, locks);
    for _ in 0..2 {
        let mut transaction = session.begin();
        for name in [b"a".as_slice(), b"b", b"a"] {
            same(rt, is_done(transaction.lock(name)), Ok(true));
            same(rt, tried(transaction.try_lock(name)), Ok(true));
            same(
                rt,
                is_done(transaction.lock_for(name, Duration::from_millis(0))),
                Ok(true),
            );
        }
        same(rt, is_done(transaction.unlock(b"a")), Ok(true));
        same(
            rt,
            is_done(transaction.unlock(b"a")),
            Err(LockError::NotOwner),
        );
        same(
            rt,
            is_done(transaction.unlock(b"c")),
            Err(LockError::NotOwner),
        );
        same(
            rt,
            is_done(transaction.lock(b"")),
            Err(LockError::NameEmpty),
        );
        same(
            rt,
            is_done(transaction.lock(&[7; 81])),
            Err(LockError::NameTooLong),
        );
        same(rt, is_done(transaction.commit()), Ok(true));
    }
}

/// More names than a worker has records, and the longest that there can be.
static NAMES: [&[u8]; 20] = [
    b"1", b"2", b"3", b"4", b"5", b"6", b"7", b"8", b"9", b"10", b"11", b"12", b"13", b"14", b"15",
    b"16", b"17", b"18", b"19", &[7; 80],
];

/// Locks more names than a worker has records, and one that is too long for a record, and gives half of them back before the end.
pub fn many_names_and_a_long_one<R: Wait + Clock + Abort>(rt: &R, locks: &Locks) {
    let mut session = session(rt, locks);
    for _ in 0..2 {
        let mut transaction = session.begin();
        for name in NAMES {
            same(rt, is_done(transaction.lock(name)), Ok(true));
        }
        for name in &NAMES[10..] {
            same(rt, is_done(transaction.unlock(name)), Ok(true));
            same(
                rt,
                is_done(transaction.unlock(name)),
                Err(LockError::NotOwner),
            );
        }
        same(rt, is_done(transaction.commit()), Ok(true));
    }
}

/// Locks as many names as a transaction may own, which is this many: it is refused the others, which another one is given meanwhile.
pub fn is_refused_a_bulk<R: Wait + Clock + Abort>(rt: &R, locks: &Locks, most: u64) {
    let mut session = session(rt, locks);
    let mut transaction = session.begin();
    let mut owned = 0u64;
    for name in NAMES {
        match is_done(transaction.lock(name)) {
            Err(LockError::TooManyNames) => same(rt, told(rt, locks, name), Ok(true)),
            answer => {
                same(rt, answer, Ok(true));
                owned = owned.wrapping_add(1);
            }
        }
    }
    same(rt, is_done(transaction.commit()), Ok(true));
    same(rt, owned, most);
}

/// What a second transaction is told of a name.
fn told<R: Wait + Clock + Abort>(rt: &R, locks: &Locks, name: &[u8]) -> Answer {
    let mut session = session(rt, locks);
    let mut transaction = session.begin();
    let answer = tried(transaction.try_lock(name));
    let timed = is_done(transaction.lock_for(name, Duration::from_millis(1)));
    match answer {
        Ok(false) => same(rt, timed, Err(LockError::TimedOut)),
        _ => same(rt, timed, Ok(true)),
    }
    answer
}

/// Two transactions of one thread ask for one name: the second one is told that it is owned, until it is given back, or the first one ends.
pub fn one_name_by_two<R: Wait + Clock + Abort>(rt: &R, locks: &Locks) {
    let mut session = session(rt, locks);
    let mut transaction = session.begin();
    for name in [b"x".as_slice(), b"y"] {
        same(rt, is_done(transaction.lock(name)), Ok(true));
        same(rt, told(rt, locks, name), Ok(false));
        same(rt, is_done(transaction.lock(name)), Ok(true));
    }
    same(rt, is_done(transaction.unlock(b"x")), Ok(true));
    same(rt, told(rt, locks, b"x"), Ok(true));
    same(rt, told(rt, locks, b"y"), Ok(false));
    same(rt, is_done(transaction.commit()), Ok(true));
    same(rt, told(rt, locks, b"y"), Ok(true));
    let mut again = session.begin();
    same(rt, is_done(again.lock(b"y")), Ok(true));
    same(rt, told(rt, locks, b"y"), Ok(false));
    drop(again);
    same(rt, told(rt, locks, b"y"), Ok(true));
    let last = session.begin();
    same(rt, is_done(last.commit()), Ok(true));
}

/// There are two sessions where two transactions can be, and a further one only once one of the two is dropped.
pub fn sessions_are_full<R: Wait + Clock + Abort>(rt: &R, locks: &Locks) {
    let first = session(rt, locks);
    for _ in 0..2 {
        let second = session(rt, locks);
        same(
            rt,
            is_done(locks.session(rt)),
            Err(LockError::TransactionsFull),
        );
        drop(second);
    }
    drop(first);
}
