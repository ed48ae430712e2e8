//! What two threads do with a table, each with a pass of its own.

use crate::tests::same::same;
use crate::tests::shared::look::{Step, calls};
use crate::tests::shared::{Work, config, on_a_table};
use mm_shared::{Config, Key, Name, Pass, Report, SharedTable};
use std::process::Abort;
use std::sync::Wait;
use std::sync::ledger::Ledger;
use std::test::Fail;
use std::thread;
use std::thread::{Threads, join};
use test_support::label;

/// How often a thread begins a transaction and finishes it.
const ROUNDS: u64 = 1000;

/// What one thread does, and meanwhile the other.
#[derive(Clone, Copy)]
pub enum Pair {
    /// Both begin transactions and finish them.
    BeginAndFinish,
    /// One begins to wait and looks at its label. The other begins transactions and finishes them.
    WaitAndLook,
    /// One gives a process a new key. Then the other makes each call by the old one.
    UseOldKey,
}

impl Pair {
    /// Runs both threads. Ends the test if one is answered something else than it should be.
    pub fn run<
        N: Name + Send + Sync,
        A: Ledger + Send + Sync,
        V: Ledger + Send + Sync,
        B: Ledger + Send + Sync,
        R: Threads + Wait + Abort + Sync,
    >(
        self,
        rt: &R,
        table: &SharedTable<N, A, V, B>,
        pass: &mut Pass<N, A, V, B>,
        other: &mut Pass<N, A, V, B>,
    ) {
        join(
            rt,
            || match self {
                Pair::BeginAndFinish => begin_and_finish(rt, table, pass),
                Pair::WaitAndLook => wait_and_look(rt, table, pass),
                Pair::UseOldKey => give_new_key(rt, table, pass),
            },
            || match self {
                Pair::BeginAndFinish | Pair::WaitAndLook => begin_and_finish(rt, table, other),
                Pair::UseOldKey => use_old_key(rt, table, other),
            },
        );
    }
}

fn begin_and_finish<N: Name, A: Ledger, V: Ledger, B: Ledger, R: Wait + Abort>(
    rt: &R,
    table: &SharedTable<N, A, V, B>,
    pass: &mut Pass<N, A, V, B>,
) {
    for _ in 0..ROUNDS {
        let key = table.begin(rt, pass).expect(rt, "a process is free");
        same(rt, table.finish(rt, pass, key), Ok(()));
    }
}

fn wait_and_look<N: Name, A: Ledger, V: Ledger, B: Ledger, R: Wait + Abort>(
    rt: &R,
    table: &SharedTable<N, A, V, B>,
    pass: &mut Pass<N, A, V, B>,
) {
    calls(rt, table, pass, "acquire 0.1 1", "waits 1.1 1.0");
    assert!(rt; 0 < table.processes());
    assert!(rt; table.peek(pass, 0) >= label(1, 0));
}

fn give_new_key<N: Name, A: Ledger, V: Ledger, B: Ledger, R: Wait + Abort>(
    rt: &R,
    table: &SharedTable<N, A, V, B>,
    pass: &mut Pass<N, A, V, B>,
) {
    calls(rt, table, pass, "begin", "key 0.1");
    calls(rt, table, pass, "finish 0.1", "finished");
    calls(rt, table, pass, "begin", "key 0.2");
}

const NEW_KEY: Key = Key {
    process: 0,
    generation: 2,
};

/// Each call by an old key, and by the key of a process that the table does not have.
static STALE: [&str; 16] = [
    "acquire 0.1 0",
    "release 0.1 0",
    "finish 0.1",
    "transmit 0.1",
    "detect 0.1",
    "abort 0.1",
    "give_up 0.1",
    "state 0.1",
    "acquire 2.1 0",
    "release 2.1 0",
    "finish 2.1",
    "transmit 2.1",
    "detect 2.1",
    "abort 2.1",
    "give_up 2.1",
    "state 2.1",
];

fn use_old_key<N: Name, A: Ledger, V: Ledger, B: Ledger, R: Wait + Abort>(
    rt: &R,
    table: &SharedTable<N, A, V, B>,
    pass: &mut Pass<N, A, V, B>,
) {
    for _ in rt.forever() {
        if table.tenant(rt, pass, 0) == Some(NEW_KEY) {
            break;
        }
        thread::yield_now();
    }
    for line in &STALE {
        calls(rt, table, pass, line, "refused 1 Stale");
    }
}

/// The report of a table without verdicts.
fn accepted(accepted: u64) -> Report {
    Report {
        accepted,
        verdicts: 0,
        aborts: 0,
    }
}

static NOTHING: [Step; 0] = [];

#[test]
fn two_threads_begin_and_finish(rt: HostRuntime) -> Result<(), Fail> {
    let limits = Config {
        label_limit: 9,
        ..config(2, 1)
    };
    let report = accepted(4 * ROUNDS);
    let work = Work::Together(&NOTHING, Pair::BeginAndFinish, report);
    on_a_table(&rt, rt.alloc(), limits, work)
}

#[test]
fn an_old_key_is_refused(rt: HostRuntime) -> Result<(), Fail> {
    let work = Work::Together(&NOTHING, Pair::UseOldKey, accepted(3));
    on_a_table(&rt, rt.alloc(), config(2, 1), work)
}

/// Each of two owns what the other will ask for.
static TWO_OWN: [Step; 5] = [
    Step::Peeks(0, 0, 0),
    Step::Calls("begin", "key 0.1"),
    Step::Calls("begin", "key 1.1"),
    Step::Calls("acquire 0.1 0", "granted"),
    Step::Calls("acquire 1.1 1", "granted"),
];

#[test]
fn a_label_is_seen_beside_other_threads(rt: HostRuntime) -> Result<(), Fail> {
    let limits = Config {
        label_limit: 100,
        ..config(3, 2)
    };
    let report = accepted(5 + 2 * ROUNDS);
    let work = Work::Together(&TWO_OWN, Pair::WaitAndLook, report);
    on_a_table(&rt, rt.alloc(), limits, work)
}

/// A pass that is kept back has made one call.
static KEPT_BACK: [Step; 1] = [Step::OtherCalls("begin", "key 0.1")];

#[test]
fn a_table_is_closed_once_all_passes_are_back(rt: HostRuntime) -> Result<(), Fail> {
    let work = Work::Steps(&KEPT_BACK, accepted(1));
    on_a_table(&rt, rt.alloc(), config(8, 3), work)
}
