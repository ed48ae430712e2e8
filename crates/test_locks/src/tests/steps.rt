//! What threads do at locks, one step after the other, and what they are told.

use crate::tests::helpers::{Answer, are, await_waits, commits, is_done, same, session, tried};
use mm_locks::{LockError, Locks, Session, Transaction};
use std::process::Abort;
use std::sync::{Barrier, Wait};
use std::time::{Clock, Duration};

pub type Name = &'static [u8];

type Names = &'static [Name];

/// A call of a transaction.
#[derive(Clone, Copy)]
pub enum Call {
    Lock(Name),
    LockAll(Names),
    TryLock(Name),
    /// A lock that gives up after this many milliseconds.
    LockFor(Name, u64),
    Unlock(Name),
}

impl Call {
    fn made<R: Wait + Clock>(self, transaction: &mut Transaction<'_, '_, '_, R>) -> Answer {
        match self {
            Call::Lock(name) => is_done(transaction.lock(name)),
            Call::LockAll(names) => is_done(transaction.lock_all(names)),
            Call::TryLock(name) => tried(transaction.try_lock(name)),
            Call::LockFor(name, time) => {
                is_done(transaction.lock_for(name, Duration::from_millis(time)))
            }
            Call::Unlock(name) => is_done(transaction.unlock(name)),
        }
    }
}

/// What a thread does.
#[derive(Clone, Copy)]
pub enum Step {
    /// Waits until all threads do so.
    Meet,
    /// Waits until so many requests were told to wait.
    Await(u64),
    /// A transaction of another session tries these names, all of which are owned by others.
    AreBusy(Names),
    /// A transaction of another session tries these names, and owns all of them.
    AreFree(Names),
    /// A transaction that is to begin with these names is refused so.
    BeginsNot(Names, LockError),
    /// Begins a transaction.
    Begin,
    /// Begins one with these names.
    BeginWith(Names),
    /// A call of its transaction, and the answer.
    Call(Call, Answer),
    /// Commits its transaction.
    Commit,
    /// Drops its transaction.
    Drop,
}

/// A step of the thread of this number.
#[derive(Clone, Copy)]
pub struct Row(pub usize, pub Step);

/// The steps of one thread that are left.
struct Part<'a> {
    rows: &'a [Row],
    thread: usize,
    place: usize,
}

impl<'a> Drop for Part<'a> {
    fn drop(self) {
        let Self {
            rows: _,
            thread: _,
            place: _,
        } = self;
    }
}

impl<'a> Part<'a> {
    /// Returns the next step of the thread.
    fn next(&mut self) -> Option<Step> {
        for _ in 0..self.rows.len() {
            let Row(thread, step) = *self.rows.get(self.place)?;
            self.place = self.place.saturating_add(1);
            if thread == self.thread {
                return Some(step);
            }
        }
        None
    }
}

/// Makes a step for which the thread needs no transaction.
fn make_beside<R: Wait + Clock + Abort>(rt: &R, locks: &Locks, gate: &Barrier, step: Step) {
    match step {
        Step::Meet => {
            gate.wait(rt);
        }
        Step::Await(waits) => await_waits(rt, locks, waits),
        Step::AreBusy(names) => are(rt, locks, names, Ok(false)),
        Step::AreFree(names) => are(rt, locks, names, Ok(true)),
        _ => same(rt, "the step of a transaction", "a step beside it"),
    }
}

/// How a transaction ends.
#[derive(Clone, Copy)]
pub enum End {
    Commit,
    Drop,
}

/// Makes the steps of a transaction, and returns how it is to end.
fn make_calls<R: Wait + Clock + Abort>(
    rt: &R,
    locks: &Locks,
    gate: &Barrier,
    transaction: &mut Transaction<'_, '_, '_, R>,
    part: &mut Part<'_>,
) -> End {
    for _ in rt.forever() {
        match part.next() {
            Some(Step::Call(call, answer)) => same(rt, call.made(transaction), answer),
            Some(Step::Commit) => return End::Commit,
            Some(Step::Drop) | None => return End::Drop,
            Some(step) => make_beside(rt, locks, gate, step),
        }
    }
    unreachable!()
}

/// Ends a transaction.
pub fn finish<R: Wait + Clock>(rt: &impl Abort, transaction: Transaction<'_, '_, '_, R>, end: End) {
    match end {
        End::Commit => commits(rt, transaction),
        End::Drop => drop(transaction),
    }
}

/// Begins a transaction, and makes its steps.
fn make_transaction<R: Wait + Clock + Abort>(
    rt: &R,
    locks: &Locks,
    gate: &Barrier,
    session: &mut Session<'_, '_, R>,
    part: &mut Part<'_>,
) {
    let mut transaction = session.begin();
    let how = make_calls(rt, locks, gate, &mut transaction, part);
    finish(rt, transaction, how);
}

/// Begins a transaction with these names, and makes its steps.
fn make_transaction_with<R: Wait + Clock + Abort>(
    rt: &R,
    locks: &Locks,
    gate: &Barrier,
    session: &mut Session<'_, '_, R>,
    names: &[&[u8]],
    part: &mut Part<'_>,
) {
    let (mut transaction, _granted) = session.begin_with(names).expect(rt, "it owns the names");
    let how = make_calls(rt, locks, gate, &mut transaction, part);
    finish(rt, transaction, how);
}

/// Makes the steps of the thread of this number by transactions of this session.
pub fn take_in<R: Wait + Clock + Abort>(
    rt: &R,
    locks: &Locks,
    gate: &Barrier,
    session: &mut Session<'_, '_, R>,
    rows: &[Row],
    number: usize,
) {
    let mut part = Part {
        rows,
        thread: number,
        place: 0,
    };
    for _ in rows {
        match part.next() {
            Some(Step::Begin) => make_transaction(rt, locks, gate, session, &mut part),
            Some(Step::BeginWith(names)) => {
                make_transaction_with(rt, locks, gate, session, names, &mut part);
            }
            Some(Step::BeginsNot(names, error)) => {
                same(rt, is_done(session.begin_with(names)), Err(error));
            }
            Some(step) => make_beside(rt, locks, gate, step),
            None => {}
        }
    }
}

/// Makes the steps of the thread of this number.
pub fn take<R: Wait + Clock + Abort>(
    rt: &R,
    locks: &Locks,
    gate: &Barrier,
    rows: &[Row],
    number: usize,
) {
    let mut session = session(rt, locks);
    take_in(rt, locks, gate, &mut session, rows, number);
    drop(session);
}
