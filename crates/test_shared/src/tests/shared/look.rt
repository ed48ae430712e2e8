//! What is read on the board of a shared table, without its lock.

use crate::tests::call::{call_of, is_told, on_shared, on_shared_waking};
use crate::tests::same::same;
use crate::tests::shared::{Work, config, on_a_table};
use mm_label::Label;
use mm_shared::{Config, HintKind, Name, Pass, Report, SharedTable};
use std::alloc::Global;
use std::process::Abort;
use std::sync::Wait;
use std::sync::ledger::Ledger;
use std::test::Fail;

/// A hint: the process, its holder, and the kind.
type Seen = (u32, u32, HintKind);

/// A call by one pass, or a look at the board by another one, and what is to come of it.
#[derive(Clone, Copy)]
pub enum Step {
    /// A call, as a script has it, and its reply.
    Calls(&'static str, &'static str),
    /// The same by the other pass.
    OtherCalls(&'static str, &'static str),
    /// A call in the form that lists the processes to wake, its reply, and these.
    Wakes(&'static str, &'static str, &'static [u32]),
    /// The label of a process, to both passes: its counter and its process.
    Peeks(u32, u64, u32),
    /// The first hints from each process of two on, and past both of them.
    Scans([Option<Seen>; 3]),
}

/// Makes a call in the form that lists the processes to wake. Ends the test if it has another reply, or lists other ones.
fn wakes<N: Name, A: Ledger, V: Ledger, B: Ledger, R: Wait + Abort>(
    rt: &R,
    alloc: Global,
    table: &SharedTable<N, A, V, B>,
    pass: &mut Pass<N, A, V, B>,
    (line, reply, woken): (&str, &str, &[u32]),
) {
    let processes = table.processes() as usize;
    let mut wake = Vec::with_capacity(alloc, processes).expect(rt, "memory");
    let call = call_of(line).expect(rt, "a call");
    let answer = on_shared_waking(rt, table, pass, &mut wake, call);
    is_told(rt, answer, reply);
    same(rt, wake.as_slice(), woken);
}

/// Makes a call. Ends the test if it has another reply.
pub fn calls<N: Name, A: Ledger, V: Ledger, B: Ledger, R: Wait + Abort>(
    rt: &R,
    table: &SharedTable<N, A, V, B>,
    pass: &mut Pass<N, A, V, B>,
    line: &str,
    reply: &str,
) {
    let call = call_of(line).expect(rt, "a call");
    is_told(rt, on_shared(rt, table, pass, call), reply);
}

/// Ends the test unless the board shows the pass this label of a process.
fn peeks<N: Name, A: Ledger, V: Ledger, B: Ledger, R: Wait + Abort>(
    rt: &R,
    table: &SharedTable<N, A, V, B>,
    pass: &mut Pass<N, A, V, B>,
    (process, counter, of): (u32, u64, u32),
) {
    assert!(rt; process < table.processes());
    let label = Some(table.peek(pass, process));
    same(rt, label, Label::new(counter, of));
}

impl Step {
    /// Makes the step. Ends the test if something else comes of it. A look at the board has no handle, so it may not wait.
    pub fn make<N: Name, A: Ledger, V: Ledger, B: Ledger, R: Wait + Abort>(
        self,
        rt: &R,
        alloc: Global,
        table: &SharedTable<N, A, V, B>,
        pass: &mut Pass<N, A, V, B>,
        other: &mut Pass<N, A, V, B>,
    ) {
        match self {
            Step::Calls(line, reply) => calls(rt, table, pass, line, reply),
            Step::OtherCalls(line, reply) => calls(rt, table, other, line, reply),
            Step::Wakes(line, reply, woken) => {
                wakes(rt, alloc, table, pass, (line, reply, woken));
            }
            Step::Peeks(process, counter, of) => {
                peeks(rt, table, other, (process, counter, of));
                peeks(rt, table, pass, (process, counter, of));
            }
            Step::Scans(hints) => {
                for from in 0..3usize {
                    let hint = table.scan(other, from as u32);
                    let seen = hint.map(|hint| (hint.process, hint.holder, hint.kind));
                    same(rt, seen, hints[from]);
                }
            }
        }
    }
}

const NONE: [Option<Seen>; 3] = [None; 3];

const FIRST_RAISES: Option<Seen> = Some((0, 1, HintKind::Raise));

const SECOND_RAISES: Option<Seen> = Some((1, 0, HintKind::Raise));

const FIRST_IS_EQUAL: Option<Seen> = Some((0, 1, HintKind::Equal));

const SECOND_IS_EQUAL: Option<Seen> = Some((1, 2, HintKind::Equal));

const THIRD_IS_EQUAL: Option<Seen> = Some((2, 0, HintKind::Equal));

/// A resource that two wait for is handed over twice, and each time the board shows the waits. Then each of three owns one
/// resource and waits for that of the next, and a settle finds the deadlock. The forms that list processes list those that changed.
static QUEUE_AND_SETTLE: [Step; 28] = [
    Step::Calls("begin", "key 0.1"),
    Step::Calls("begin", "key 1.1"),
    Step::Calls("begin", "key 2.1"),
    Step::Calls("acquire 0.1 0", "granted"),
    Step::Calls("acquire 1.1 0", "waits 0.1 1.1"),
    Step::Calls("acquire 2.1 0", "waits 0.1 1.2"),
    Step::Wakes("release 0.1 0", "to 1.1", &[1, 2]),
    Step::Wakes("release 0.1 0", "refused 5 NotOwner", &[]),
    Step::Peeks(1, 1, 1),
    Step::Peeks(2, 2, 2),
    Step::Wakes("finish 1.1", "finished", &[2]),
    Step::Peeks(2, 2, 2),
    Step::Scans(NONE),
    Step::Calls("begin", "key 1.2"),
    Step::Calls("acquire 0.1 1", "granted"),
    Step::Calls("acquire 1.2 2", "granted"),
    Step::Calls("acquire 0.1 2", "waits 1.2 2.0"),
    Step::Calls("acquire 1.2 0", "waits 2.1 3.1"),
    Step::Calls("acquire 2.1 1", "waits 0.1 3.2"),
    Step::Peeks(0, 2, 0),
    Step::Peeks(1, 3, 1),
    Step::Wakes("settle", "settled 3 1", &[0, 1, 2]),
    Step::Peeks(0, 3, 2),
    Step::Peeks(1, 3, 2),
    Step::Scans(THREE_ARE_EQUAL),
    Step::Wakes("abort 2.1", "aborted", &[1, 2]),
    Step::Scans([FIRST_IS_EQUAL, None, None]),
    Step::Wakes("settle", "settled 0 0", &[]),
];

const THREE_ARE_EQUAL: [Option<Seen>; 3] = [FIRST_IS_EQUAL, SECOND_IS_EQUAL, THIRD_IS_EQUAL];

#[test]
fn the_board_shows_a_queue_and_a_settle(rt: HostRuntime) -> Result<(), Fail> {
    let report = Report {
        accepted: 17,
        verdicts: 1,
        aborts: 1,
    };
    let work = Work::Steps(&QUEUE_AND_SETTLE, report);
    on_a_table(&rt, rt.alloc(), config(3, 3), work)
}

/// The board shows the label of one that begins to wait, and then a hint of each of two that wait for each other.
static CROSSWISE: [Step; 11] = [
    Step::Peeks(0, 0, 0),
    Step::Calls("begin", "key 0.1"),
    Step::Calls("begin", "key 1.1"),
    Step::Calls("acquire 0.1 0", "granted"),
    Step::Calls("acquire 1.1 1", "granted"),
    Step::Calls("acquire 0.1 1", "waits 1.1 1.0"),
    Step::Peeks(0, 1, 0),
    Step::Calls("acquire 1.1 0", "waits 0.1 2.1"),
    Step::Scans([FIRST_RAISES, None, None]),
    Step::Calls("transmit 0.1", "raised 2.1"),
    Step::Scans([FIRST_IS_EQUAL, SECOND_IS_EQUAL_TO_FIRST, None]),
];

const SECOND_IS_EQUAL_TO_FIRST: Option<Seen> = Some((1, 0, HintKind::Equal));

#[test]
fn the_board_shows_two_that_wait_for_each_other(rt: HostRuntime) -> Result<(), Fail> {
    let report = Report {
        accepted: 7,
        verdicts: 0,
        aborts: 0,
    };
    for size in [2, 4] {
        let limits = Config {
            label_limit: 100,
            ..config(size, size)
        };
        on_a_table(&rt, rt.alloc(), limits, Work::Steps(&CROSSWISE, report))?;
    }
    Ok(())
}

/// One of two that wait for each other gives up. From then on the board shows no holder of it, and the label that it had.
static GIVEN_UP: [Step; 16] = [
    Step::Calls("begin", "key 0.1"),
    Step::Calls("begin", "key 1.1"),
    Step::Calls("acquire 0.1 0", "granted"),
    Step::Calls("acquire 1.1 1", "granted"),
    Step::Calls("acquire 0.1 1", "waits 1.1 1.0"),
    Step::Calls("acquire 1.1 0", "waits 0.1 2.1"),
    Step::Scans([FIRST_RAISES, None, None]),
    Step::Calls("give_up 0.1", "withdrawn"),
    Step::Scans(NONE),
    Step::Peeks(0, 1, 0),
    Step::Calls("give_up 0.1", "refused 8 NotWaiting"),
    Step::Scans(NONE),
    Step::Calls("acquire 0.1 1", "waits 1.1 3.0"),
    Step::Scans([SECOND_RAISES, SECOND_RAISES, None]),
    Step::Calls("give_up 1.1", "withdrawn"),
    Step::Scans(NONE),
];

#[test]
fn the_board_shows_no_holder_of_who_gave_up(rt: HostRuntime) -> Result<(), Fail> {
    let report = Report {
        accepted: 9,
        verdicts: 0,
        aborts: 0,
    };
    on_a_table(
        &rt,
        rt.alloc(),
        config(4, 2),
        Work::Steps(&GIVEN_UP, report),
    )
}
