//! Work that is done again after a deadlock.
use crate::tests::helpers::{are, await_waits, holds, same, session, waits};
use crate::tests::scripts::STANDS_IN_THE_WAY;
use crate::tests::steps::take_in;
use mm_locks::{LockError, Locks, Repeat, Session, Transaction};
use std::process::Abort;
use std::sync::atomic::AtomicU64;
use std::sync::atomic::Ordering::SeqCst;
use std::sync::{Barrier, Wait};
use std::time::{Clock, Duration, Instant};

/// What the work of a test fails with.
#[derive(Clone, Copy)]
enum WorkError {
    Poor,
    Refused(LockError),
}

impl From<LockError> for WorkError {
    fn from(error: LockError) -> WorkError {
        WorkError::Refused(error)
    }
}

/// What the work of a test does with its transaction, once it has locked `a`.
#[derive(Clone, Copy)]
enum Plan {
    /// It fails by itself.
    Poor,
    /// It asks for a name that is refused.
    Refused,
    /// It returns a value.
    Rich,
    /// It would close a cycle.
    Closes,
    /// It would close a cycle, goes back to a savepoint, and asks again.
    GoesBack,
    /// It would close a cycle, goes back to a savepoint, and fails as it was told.
    GivesUp,
}

/// Waits until the other thread waits for `a`, and asks for what that one owns.
fn close<R: Wait + Clock>(
    rt: &R,
    locks: &Locks,
    gate: &Barrier,
    transaction: &mut Transaction<'_, '_, '_, R>,
) -> Result<u32, WorkError> {
    gate.wait(rt);
    let before = waits(rt, locks);
    gate.wait(rt);
    await_waits(rt, locks, before.saturating_add(1));
    transaction.lock(b"b")?;
    Ok(7)
}

/// Gives back what the other one waits for, once it was told of the deadlock.
fn go_back<R: Wait + Clock>(
    rt: &R,
    locks: &Locks,
    gate: &Barrier,
    transaction: &mut Transaction<'_, '_, '_, R>,
) -> Result<(), WorkError> {
    transaction.lock(b"c")?;
    let told = close(rt, locks, gate, transaction);
    if !matches!(told, Err(WorkError::Refused(LockError::Deadlock))) {
        return Err(WorkError::Poor);
    }
    transaction.unlock(b"a")?;
    Ok(())
}

/// Asks again once it has given back what the other one waits for.
fn go_on<R: Wait + Clock>(
    rt: &R,
    locks: &Locks,
    gate: &Barrier,
    transaction: &mut Transaction<'_, '_, '_, R>,
) -> Result<u32, WorkError> {
    go_back(rt, locks, gate, transaction)?;
    transaction.lock(b"b")?;
    Ok(7)
}

/// Fails once it has given back what the other one waits for.
fn give_in<R: Wait + Clock>(
    rt: &R,
    locks: &Locks,
    gate: &Barrier,
    transaction: &mut Transaction<'_, '_, '_, R>,
) -> Result<u32, WorkError> {
    go_back(rt, locks, gate, transaction)?;
    Err(WorkError::Refused(LockError::Deadlock))
}

/// Asks for a name that is refused.
fn ask_for_none<R: Wait + Clock>(
    transaction: &mut Transaction<'_, '_, '_, R>,
) -> Result<u32, WorkError> {
    transaction.lock(b"")?;
    Ok(7)
}

impl Plan {
    fn done<R: Wait + Clock>(
        self,
        rt: &R,
        locks: &Locks,
        gate: &Barrier,
        transaction: &mut Transaction<'_, '_, '_, R>,
    ) -> Result<u32, WorkError> {
        transaction.lock(b"a")?;
        match self {
            Plan::Poor => Err(WorkError::Poor),
            Plan::Refused => ask_for_none(transaction),
            Plan::Rich => Ok(7),
            Plan::Closes => close(rt, locks, gate, transaction),
            Plan::GoesBack => go_on(rt, locks, gate, transaction),
            Plan::GivesUp => give_in(rt, locks, gate, transaction),
        }
    }

    /// What comes of it by at most this many attempts, and how many there were.
    fn run<R: Wait + Clock>(
        self,
        rt: &R,
        locks: &Locks,
        gate: &Barrier,
        session: &mut Session<'_, '_, R>,
        most: u32,
    ) -> (Result<u32, WorkError>, u64) {
        let attempts = AtomicU64::new(0);
        let outcome = mm_locks::run(session.begin(), most, |transaction| {
            attempts.fetch_add(1, SeqCst);
            self.done(rt, locks, gate, transaction)
        });
        (outcome, attempts.load(SeqCst))
    }
}

/// Makes one attempt of a plan by this session, after which `a` is free.
fn try_once<R: Wait + Clock + Abort>(
    rt: &R,
    locks: &Locks,
    gate: &Barrier,
    session: &mut Session<'_, '_, R>,
    plan: Plan,
    most: u32,
) -> Result<u32, WorkError> {
    let (outcome, attempts) = plan.run(rt, locks, gate, session, most);
    same(rt, attempts, 1);
    are(rt, locks, &[b"a"], Ok(true));
    outcome
}

/// A value is returned once its transaction is committed; an error of the work is returned, and its transaction rolled back.
pub fn outcomes<R: Wait + Clock + Abort>(rt: &R, locks: &Locks, gate: &Barrier) {
    let mut session = session(rt, locks);
    let poor = try_once(rt, locks, gate, &mut session, Plan::Poor, 3);
    holds(rt, "its own error", matches!(poor, Err(WorkError::Poor)));
    let refused = try_once(rt, locks, gate, &mut session, Plan::Refused, 3);
    let is_empty = matches!(refused, Err(WorkError::Refused(LockError::NameEmpty)));
    holds(rt, "the name has no bytes", is_empty);
    for most in [3, 0] {
        let rich = try_once(rt, locks, gate, &mut session, Plan::Rich, most);
        holds(rt, "a value", matches!(rich, Ok(7)));
    }
    drop(session);
}

/// Stands in the way of this many attempts of the other thread.
fn stand<R: Wait + Clock + Abort>(rt: &R, locks: &Locks, gate: &Barrier, attempts: u32) {
    let mut session = session(rt, locks);
    for _ in 0..attempts {
        take_in(rt, locks, gate, &mut session, &STANDS_IN_THE_WAY, 0);
    }
    drop(session);
}

/// Whether the last error of the work is a deadlock.
fn is_deadlock(outcome: Result<u32, WorkError>) -> bool {
    matches!(outcome, Err(WorkError::Refused(LockError::Deadlock)))
}

/// One of two stands in the way of this many attempts, and the other one closes a cycle in each of at most so many.
pub fn give_up<R: Wait + Clock + Abort>(
    rt: &R,
    locks: &Locks,
    gate: &Barrier,
    number: usize,
    most: u32,
) {
    if number == 0 {
        stand(rt, locks, gate, most);
        return;
    }
    let mut session = session(rt, locks);
    let (outcome, attempts) = Plan::Closes.run(rt, locks, gate, &mut session, most);
    holds(rt, "the last error is a deadlock", is_deadlock(outcome));
    same(rt, attempts, u64::from(most));
    drop(session);
}

/// One of two stands in the way of the other one, which comes to its end by one attempt all the same.
pub fn go_back_once<R: Wait + Clock + Abort>(rt: &R, locks: &Locks, gate: &Barrier, number: usize) {
    if number == 0 {
        stand(rt, locks, gate, 1);
        return;
    }
    let mut session = session(rt, locks);
    let (outcome, attempts) = Plan::GoesBack.run(rt, locks, gate, &mut session, 3);
    holds(rt, "a value", matches!(outcome, Ok(7)));
    same(rt, attempts, 1);
    drop(session);
}

/// One of two stands in the way of the other one, which fails after it has given something back: it is not done again.
pub fn give_in_once<R: Wait + Clock + Abort>(rt: &R, locks: &Locks, gate: &Barrier, number: usize) {
    if number == 0 {
        stand(rt, locks, gate, 1);
        return;
    }
    let mut session = session(rt, locks);
    let (outcome, attempts) = Plan::GivesUp.run(rt, locks, gate, &mut session, 3);
    holds(rt, "its own error", is_deadlock(outcome));
    same(rt, attempts, 1);
    drop(session);
}

/// How many attempts there are between which the pauses are looked at.
pub const PAUSED: u32 = 11;

/// The least time, in microseconds, that the ten pauses between them take. A pause is drawn from the place of the session and its own bound
/// alone: ten take 21,599 microseconds at place 0, and 14,202 at place 1. Of two sessions either may have either place.
const PAUSES: u64 = 14_202;

/// As `give_up`, with eleven attempts. Threads sleep, so the clock is the system's.
pub fn pause<R: Wait + Clock + Abort>(rt: &R, locks: &Locks, gate: &Barrier, number: usize) {
    let start = Instant::now(rt).expect(rt, "the clock can be read");
    give_up(rt, locks, gate, number, PAUSED);
    let took = start.elapsed(rt).expect(rt, "the clock can be read");
    let are_long = number == 0 || took >= Duration::from_micros(PAUSES);
    holds(rt, "there were pauses", are_long);
}
