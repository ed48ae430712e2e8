//! What the tests share.
use mm_locks::{Granted, LockError, Locks, Session, Totals, Transaction};
use std::fmt::Debug;
use std::process::Abort;
use std::sync::Wait;
use std::thread;
use std::time::Clock;

/// Whether the transaction owns the name now, or why not.
pub type Answer = Result<bool, LockError>;

/// The answer of a call whose success says that the transaction owns what it asked for, or that it is done.
pub fn is_done<T: Drop>(answer: Result<T, LockError>) -> Answer {
    match answer {
        Ok(_) => Ok(true),
        Err(error) => Err(error),
    }
}

/// The answer of a try.
pub fn tried(answer: Result<Option<Granted<'_>>, LockError>) -> Answer {
    match answer {
        Ok(granted) => Ok(granted.is_some()),
        Err(error) => Err(error),
    }
}

/// Opens a session, for which there is room.
pub fn session<'r, 'm, R: Wait + Clock + Abort>(rt: &'r R, locks: &'m Locks) -> Session<'r, 'm, R> {
    locks.session(rt).expect(rt, "there is room")
}

/// Locks a name. Ends the test if that is refused.
pub fn takes<C: Wait + Clock>(
    rt: &impl Abort,
    transaction: &mut Transaction<'_, '_, '_, C>,
    name: &[u8],
) {
    same(rt, is_done(transaction.lock(name)), Ok(true));
}

/// Commits a transaction. Ends the test if that is refused.
pub fn commits<C: Wait + Clock>(rt: &impl Abort, transaction: Transaction<'_, '_, '_, C>) {
    same(rt, is_done(transaction.commit()), Ok(true));
}

/// Ends the test unless a transaction of another session has this answer to a try of each name.
pub fn are<R: Wait + Clock + Abort>(rt: &R, locks: &Locks, names: &[&[u8]], answer: Answer) {
    let mut session = session(rt, locks);
    let mut probe = session.begin();
    for name in names {
        same(rt, tried(probe.try_lock(*name)), answer);
    }
    drop(probe);
    drop(session);
}

/// Ends the test if another answer came than was expected.
pub fn same<T: PartialEq + Debug + Drop>(rt: &impl Abort, came: T, expected: T) {
    assert_eq!(rt; came, expected);
}

/// Ends the test if this does not hold.
pub fn holds(rt: &impl Abort, what: &str, is_so: bool) {
    assert!(rt; is_so, "{what}");
}

/// How many requests were told to wait.
pub fn waits<R: Wait + Clock>(rt: &R, locks: &Locks) -> u64 {
    let Totals { waits, .. } = locks.totals(rt);
    waits
}

/// Waits until the manager has told so many requests to wait.
pub fn await_waits<R: Wait + Clock>(rt: &R, locks: &Locks, expected: u64) {
    for _ in rt.forever() {
        if waits(rt, locks) >= expected {
            return;
        }
        thread::yield_now();
    }
}
