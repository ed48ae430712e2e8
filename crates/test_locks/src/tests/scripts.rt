//! Threads whose calls have one answer each, whatever the order in which they run.

use crate::tests::helpers::Answer;
use crate::tests::opened::{Case, Counts, ONE_BUCKET, Work, on_each, on_locks};
use crate::tests::steps::{Call, Name, Row, Step};
use mm_locks::LockError;

/// Three transactions, each of which may own five of eight names in the manager. One is for a look from outside.
const SCRIPT: Case = Case {
    transactions: 3,
    names: 8,
    names_each: 5,
    threads: 1,
    work: Work::Rows(&[]),
    counts: None,
};

/// This many threads make their steps, and the manager counts so.
fn script(threads: usize, rows: &'static [Row], counts: Counts) -> Case {
    Case {
        threads,
        work: Work::Rows(rows),
        counts: Some(counts),
        ..SCRIPT
    }
}

/// A name with more bytes than one may have.
const LONG: Name = &[7; 81];

const OWNS: Answer = Ok(true);

const OTHERS_OWN: Answer = Ok(false);

const NOT_OWNER: Answer = Err(LockError::NotOwner);

const TIMED_OUT: Answer = Err(LockError::TimedOut);

const TOO_LONG: Answer = Err(LockError::NameTooLong);

const TOO_MANY: Answer = Err(LockError::TooManyNames);

const DEADLOCK: Answer = Err(LockError::Deadlock);

/// A name that another one owns is not had by a try, nor in time. Whoever gave up goes on, and has it once it is given back.
static GIVES_UP: [Row; 17] = [
    Row(0, Step::Begin),
    Row(0, Step::Call(Call::Lock(b"a"), OWNS)),
    Row(0, Step::Meet),
    Row(1, Step::Meet),
    Row(1, Step::Begin),
    Row(1, Step::Call(Call::LockFor(b"b", 2), OWNS)),
    Row(1, Step::Call(Call::TryLock(b"a"), OTHERS_OWN)),
    Row(1, Step::Call(Call::LockFor(b"a", 2), TIMED_OUT)),
    Row(1, Step::Call(Call::LockFor(b"a", 0), TIMED_OUT)),
    Row(1, Step::Meet),
    Row(0, Step::Meet),
    Row(0, Step::Call(Call::Unlock(b"a"), OWNS)),
    Row(0, Step::Meet),
    Row(1, Step::Meet),
    Row(1, Step::Call(Call::TryLock(b"a"), OWNS)),
    Row(1, Step::Commit),
    Row(0, Step::Commit),
];

#[test]
fn gives_up(rt: HostRuntime) {
    let counts = Counts {
        committed: 2,
        waits: 2,
        withdrawn: 2,
        ..Counts::NONE
    };
    on_each(&rt, rt.alloc(), &script(2, &GIVES_UP, counts));
}

/// Those before a refused name stay locked, and those behind it are not asked for. One that is refused a name with which it is to begin is
/// rolled back.
static STOPS_AT_A_REFUSAL: [Row; 11] = [
    Row(0, Step::Begin),
    Row(0, Step::Call(Call::LockAll(&[b"a", b"b", b"a"]), OWNS)),
    Row(0, Step::AreBusy(&[b"a", b"b"])),
    Row(0, Step::Call(Call::Unlock(b"c"), NOT_OWNER)),
    Row(
        0,
        Step::Call(Call::LockAll(&[b"b", b"c", LONG, b"d"]), TOO_LONG),
    ),
    Row(0, Step::AreBusy(&[b"a", b"b", b"c"])),
    Row(0, Step::AreFree(&[b"d"])),
    Row(0, Step::Commit),
    Row(
        0,
        Step::BeginsNot(&[b"a", LONG, b"b"], LockError::NameTooLong),
    ),
    Row(0, Step::AreFree(&[b"a", b"b", b"c"])),
    Row(0, Step::Begin),
];

#[test]
fn stops_at_a_refusal(rt: HostRuntime) {
    let counts = Counts {
        committed: 1,
        aborted: 6,
        ..Counts::NONE
    };
    on_each(&rt, rt.alloc(), &script(1, &STOPS_AT_A_REFUSAL, counts));
}

/// Who owns as many names as one may is refused a further one, keeps those, and goes on once it has given one back. Another one is given the
/// name meanwhile. With one bucket all of them are the manager's.
static REFUSES_A_BULK: [Row; 8] = [
    Row(0, Step::Begin),
    Row(
        0,
        Step::Call(
            Call::LockAll(&[b"a", b"b", b"c", b"d", b"e", b"f"]),
            TOO_MANY,
        ),
    ),
    Row(0, Step::AreBusy(&[b"a", b"b", b"c", b"d", b"e"])),
    Row(0, Step::Call(Call::TryLock(b"f"), TOO_MANY)),
    Row(0, Step::AreFree(&[b"f"])),
    Row(0, Step::Call(Call::Unlock(b"a"), OWNS)),
    Row(0, Step::Call(Call::Lock(b"f"), OWNS)),
    Row(0, Step::Commit),
];

#[test]
fn refuses_a_bulk(rt: HostRuntime) {
    let counts = Counts {
        committed: 1,
        aborted: 2,
        ..Counts::NONE
    };
    on_locks(
        &rt,
        rt.alloc(),
        &script(1, &REFUSES_A_BULK, counts),
        ONE_BUCKET,
    );
}

/// Names that are too long for a word.
const A: Name = &[1; 64];

const B: Name = &[2; 64];

const C: Name = &[3; 64];

const D: Name = &[4; 64];

const E: Name = &[5; 64];

const F: Name = &[6; 64];

/// The same with names that are the manager's, however many buckets there are.
static REFUSES_LONG_NAMES: [Row; 8] = [
    Row(0, Step::Begin),
    Row(0, Step::Call(Call::LockAll(&[A, B, C, D, E, F]), TOO_MANY)),
    Row(0, Step::AreBusy(&[A, B, C, D, E])),
    Row(0, Step::Call(Call::TryLock(F), TOO_MANY)),
    Row(0, Step::AreFree(&[F])),
    Row(0, Step::Call(Call::Unlock(A), OWNS)),
    Row(0, Step::Call(Call::Lock(F), OWNS)),
    Row(0, Step::Commit),
];

#[test]
fn refuses_long_names(rt: HostRuntime) {
    let counts = Counts {
        committed: 1,
        aborted: 2,
        ..Counts::NONE
    };
    on_each(&rt, rt.alloc(), &script(1, &REFUSES_LONG_NAMES, counts));
}

/// One owns `b` and `d` until the other one waits for `b`. It gives that back, and ends once the other one waits for `d`. The other one owns all
/// five in the end: after each sleep it goes on with the names behind.
static GOES_ON_AFTER_SLEEPS: [Row; 12] = [
    Row(0, Step::Begin),
    Row(0, Step::Call(Call::LockAll(&[b"d", b"b"]), OWNS)),
    Row(0, Step::Meet),
    Row(1, Step::Meet),
    Row(1, Step::Begin),
    Row(
        1,
        Step::Call(Call::LockAll(&[b"a", b"b", b"c", b"d", b"e"]), OWNS),
    ),
    Row(0, Step::Await(1)),
    Row(0, Step::Call(Call::Unlock(b"b"), OWNS)),
    Row(0, Step::Await(2)),
    Row(0, Step::Commit),
    Row(1, Step::AreBusy(&[b"a", b"b", b"c", b"d", b"e"])),
    Row(1, Step::Commit),
];

#[test]
fn goes_on_after_sleeps(rt: HostRuntime) {
    let counts = Counts {
        committed: 2,
        aborted: 1,
        waits: 2,
        ..Counts::NONE
    };
    on_each(&rt, rt.alloc(), &script(2, &GOES_ON_AFTER_SLEEPS, counts));
}

/// One owns `b` until the other one, which begins with three names, waits for it. It is dropped then, which hands `b` over.
static BEGINS_AFTER_A_SLEEP: [Row; 9] = [
    Row(0, Step::Begin),
    Row(0, Step::Call(Call::Lock(b"b"), OWNS)),
    Row(0, Step::Meet),
    Row(1, Step::Meet),
    Row(1, Step::BeginWith(&[b"a", b"b", b"c"])),
    Row(0, Step::Await(1)),
    Row(0, Step::Drop),
    Row(1, Step::AreBusy(&[b"a", b"b", b"c"])),
    Row(1, Step::Commit),
];

#[test]
fn begins_after_a_sleep(rt: HostRuntime) {
    let counts = Counts {
        committed: 1,
        aborted: 2,
        waits: 1,
        ..Counts::NONE
    };
    on_each(&rt, rt.alloc(), &script(2, &BEGINS_AFTER_A_SLEEP, counts));
}

/// One owns `a`, and waits for `b` until the other one ends. That one would close a cycle at the second of three names: it
/// keeps the first one, does not own the third, and goes on. It is told the same again, since it gave nothing back.
static STOPS_AT_A_DEADLOCK: [Row; 16] = [
    Row(0, Step::Begin),
    Row(0, Step::Call(Call::Lock(b"a"), OWNS)),
    Row(1, Step::Begin),
    Row(1, Step::Call(Call::Lock(b"b"), OWNS)),
    Row(0, Step::Meet),
    Row(1, Step::Meet),
    Row(0, Step::Call(Call::Lock(b"b"), OWNS)),
    Row(1, Step::Await(1)),
    Row(1, Step::Call(Call::LockAll(&[b"c", b"a", b"d"]), DEADLOCK)),
    Row(1, Step::AreBusy(&[b"b", b"c"])),
    Row(1, Step::AreFree(&[b"d"])),
    Row(1, Step::Call(Call::TryLock(b"a"), OTHERS_OWN)),
    Row(1, Step::Call(Call::LockAll(&[b"z", b"a"]), DEADLOCK)),
    Row(1, Step::AreBusy(&[b"z"])),
    Row(1, Step::Commit),
    Row(0, Step::Commit),
];

#[test]
fn stops_at_a_deadlock(rt: HostRuntime) {
    let counts = Counts {
        committed: 2,
        aborted: 3,
        deadlocks: 2,
        waits: 1,
        ..Counts::NONE
    };
    on_each(&rt, rt.alloc(), &script(2, &STOPS_AT_A_DEADLOCK, counts));
}

/// Owns `b` and waits for `a` before an attempt of another one closes the cycle.
pub static STANDS_IN_THE_WAY: [Row; 6] = [
    Row(0, Step::Begin),
    Row(0, Step::Call(Call::Lock(b"b"), OWNS)),
    Row(0, Step::Meet),
    Row(0, Step::Meet),
    Row(0, Step::Call(Call::Lock(b"a"), OWNS)),
    Row(0, Step::Commit),
];
