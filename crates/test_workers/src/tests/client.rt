//! What a client does at each answer, call by call: which calls it makes of its table and of its gate, in which order, how many turns
//! that takes, and how it ends. Expected calls are those of the rules of docs/WORKLOADS.md, by hand.

use crate::tests::passes::passes;
use crate::tests::script::{
    ABORT, Answer, BEGIN, CLEAR, Call, DEADLOCK, FINISH, GRANTED, LEAVE, Line, Script, TRANSMIT,
    WAITS,
};
use crate::tests::scripted::{ScriptedGate, ScriptedSteps};
use mm_shared::Refusal;
use mm_workers::{Client, ClientEnds, EarlierEnds, End};
use mm_workload::{StormOptions, StormShape, TransactionStream, WorkStep, shaped_storm};
use std::alloc::Global;

/// The steps of a client's first transaction, how many it makes, and the turns of each; the calls that it makes with their answers, and how
/// many transactions before its last one finished and were aborted, and how that one ended.
#[derive(Drop)]
struct Case {
    name: &'static str,
    work: &'static [WorkStep],
    transactions: u32,
    turns: u64,
    calls: &'static [Line],
    ends: (u32, u32, End),
}

/// The transactions that follow the first one, each of which acquires resource 0.
fn stream(alloc: Global, transactions: u32) -> Option<TransactionStream> {
    if transactions == 0 || transactions > 3 {
        return None;
    }
    let options = StormOptions {
        seed: 1,
        clients: 1,
        transmitters: 0,
        shape: StormShape {
            resources: 1,
            acquires: 1,
            transactions,
        },
    };
    let workload = shaped_storm(alloc, &options).ok()?;
    let stream = workload.stream_of(1);
    drop(workload);
    Some(stream)
}

/// Whether the client makes just these calls, and its transactions end so.
fn runs_so(case: &Case, work: Vec<WorkStep>, mut stream: TransactionStream) -> bool {
    let script = &Script::new(case.calls);
    let steps = ScriptedSteps::new(script);
    let mut client = Client::new(steps, ScriptedGate { script }, work, case.turns);
    let (finished, aborted, last) = case.ends;
    let earlier = EarlierEnds { finished, aborted };
    client.run_all(&mut stream) == (ClientEnds { earlier, last }) && script.is_over()
}

const ONE: [WorkStep; 1] = [WorkStep::Acquire(0)];

const TWO: [WorkStep; 2] = [WorkStep::Acquire(0), WorkStep::Acquire(1)];

const FREES: [WorkStep; 1] = [WorkStep::Release(0)];

const MEETS: [WorkStep; 3] = [
    WorkStep::Acquire(0),
    WorkStep::Release(3),
    WorkStep::Meet(2),
];

const FULL: Line = (Call::Begin, Answer::Refused(Refusal::Full));

const GRANTED_TOO: Line = (Call::Acquire(1), Answer::Done);

const WAITS_TOO: Line = (Call::Acquire(1), Answer::Waits);

const FREED: Line = (Call::Release(3), Answer::Done);

const ARRIVES: Line = (Call::Arrive, Answer::Done);

const MAY_NOT: Line = (Call::MayPass(2), Answer::Done);

const PASSES: Line = (Call::MayPass(2), Answer::Passes);

const STANDING: Line = (Call::Detect, Answer::Standing);

const IS_GRANTED: Line = (Call::Transmit, Answer::Refused(Refusal::NotWaiting));

const IS_GRANTED_LATER: Line = (Call::Detect, Answer::Refused(Refusal::NotWaiting));

const NO_BEGIN: Line = (Call::Begin, Answer::Refused(Refusal::CountsExhausted));

const NO_ACQUIRE: Line = (Call::Acquire(0), Answer::Refused(Refusal::NoResource));

const NO_RELEASE: Line = (Call::Release(0), Answer::Refused(Refusal::NotOwner));

const NO_TRANSMIT: Line = (Call::Transmit, Answer::Refused(Refusal::Stale));

const NO_DETECT: Line = (Call::Detect, Answer::Refused(Refusal::CountsExhausted));

const NO_ABORT: Line = (Call::Abort, Answer::Refused(Refusal::LabelsExhausted));

const NO_FINISH: Line = (Call::Finish, Answer::Refused(Refusal::Waiting));

/// A turn for the begin, one for each asking at the gate, and one for each round of waiting, a transmit and a detect. A begin that finds no free
/// slot is tried again, a turn each. A verdict, new or standing, leads to an abort, and what is left of the work is not done. If a client waits
/// no longer, the resource is its own, and it goes on with its next step. If its turns are used up, it makes no further call of the table.
///
/// A transaction that finished or was aborted is followed by the next one, which has all turns anew. One that used up its turns is the last one.
static CASES: [Case; 11] = [
    Case {
        name: "it goes on to its end, past a meeting",
        work: &MEETS,
        transactions: 1,
        turns: 3,
        calls: &[
            BEGIN, GRANTED, FREED, ARRIVES, MAY_NOT, PASSES, FINISH, LEAVE,
        ],
        ends: (0, 0, End::Finished),
    },
    Case {
        name: "without a turn for the second asking",
        work: &MEETS,
        transactions: 1,
        turns: 2,
        calls: &[BEGIN, GRANTED, FREED, ARRIVES, MAY_NOT, LEAVE],
        ends: (0, 0, End::Spent),
    },
    Case {
        name: "without a step, it begins at the third try",
        work: &[],
        transactions: 1,
        turns: 3,
        calls: &[FULL, FULL, BEGIN, FINISH, LEAVE],
        ends: (0, 0, End::Finished),
    },
    Case {
        name: "of two tries to begin at neither",
        work: &[],
        transactions: 1,
        turns: 2,
        calls: &[FULL, FULL, LEAVE],
        ends: (0, 0, End::Spent),
    },
    Case {
        name: "a verdict, new in the second round",
        work: &TWO,
        transactions: 1,
        turns: 3,
        calls: &[
            BEGIN, WAITS, TRANSMIT, CLEAR, TRANSMIT, DEADLOCK, ABORT, LEAVE,
        ],
        ends: (0, 0, End::Aborted),
    },
    Case {
        name: "a verdict that stands",
        work: &TWO,
        transactions: 1,
        turns: 2,
        calls: &[BEGIN, WAITS, TRANSMIT, STANDING, ABORT, LEAVE],
        ends: (0, 0, End::Aborted),
    },
    Case {
        name: "the resource is its own, by its first transmit, and its turns are used",
        work: &TWO,
        transactions: 1,
        turns: 2,
        calls: &[BEGIN, WAITS, IS_GRANTED, WAITS_TOO, LEAVE],
        ends: (0, 0, End::Spent),
    },
    Case {
        name: "the resource is its own, by its second detect",
        work: &TWO,
        transactions: 1,
        turns: 3,
        calls: &[
            BEGIN,
            WAITS,
            TRANSMIT,
            CLEAR,
            TRANSMIT,
            IS_GRANTED_LATER,
            GRANTED_TOO,
            FINISH,
            LEAVE,
        ],
        ends: (0, 0, End::Finished),
    },
    Case {
        name: "it waits until it is spent",
        work: &TWO,
        transactions: 1,
        turns: 2,
        calls: &[BEGIN, WAITS, TRANSMIT, CLEAR, LEAVE],
        ends: (0, 0, End::Spent),
    },
    Case {
        name: "of three transactions two are aborted",
        work: &ONE,
        transactions: 3,
        turns: 2,
        calls: &[
            BEGIN, WAITS, TRANSMIT, DEADLOCK, ABORT, BEGIN, GRANTED, FINISH, BEGIN, WAITS,
            TRANSMIT, DEADLOCK, ABORT, LEAVE,
        ],
        ends: (1, 1, End::Aborted),
    },
    Case {
        name: "the second of three is spent",
        work: &ONE,
        transactions: 3,
        turns: 1,
        calls: &[BEGIN, GRANTED, FINISH, BEGIN, WAITS, LEAVE],
        ends: (1, 0, End::Spent),
    },
];

/// What is refused, the steps of a client, the calls that it makes with their answers, and the number of the refusal.
type Refused = (&'static str, &'static [WorkStep], &'static [Line], u8);

/// After a refusal, but of `begin` and `finish`, the client tries `finish` once, whatever the answer. No transaction follows.
static REFUSED: [Refused; 7] = [
    ("a begin", &[], &[NO_BEGIN, LEAVE], 15),
    ("an acquire", &ONE, &[BEGIN, NO_ACQUIRE, FINISH, LEAVE], 2),
    ("a release", &FREES, &[BEGIN, NO_RELEASE, FINISH, LEAVE], 5),
    (
        "a transmit",
        &ONE,
        &[BEGIN, WAITS, NO_TRANSMIT, FINISH, LEAVE],
        1,
    ),
    (
        "a detect",
        &ONE,
        &[BEGIN, WAITS, TRANSMIT, NO_DETECT, NO_FINISH, LEAVE],
        15,
    ),
    (
        "an abort",
        &ONE,
        &[BEGIN, WAITS, TRANSMIT, DEADLOCK, NO_ABORT, NO_FINISH, LEAVE],
        7,
    ),
    ("a finish", &[], &[BEGIN, NO_FINISH, LEAVE], 3),
];

/// Whether the client makes the calls of this case, and ends so.
fn is_right(alloc: Global, case: &Case) -> bool {
    match (case.work.to_vec(alloc), stream(alloc, case.transactions)) {
        (Ok(work), Some(stream)) => runs_so(case, work, stream),
        _ => false,
    }
}

#[test]
fn a_client_goes_on_waits_and_ends(rt: HostRuntime) {
    for case in &CASES {
        passes(&rt, case.name, is_right(rt.alloc(), case));
    }
}

#[test]
fn a_client_is_refused(rt: HostRuntime) {
    for row in &REFUSED {
        let (name, work, calls, refusal) = *row;
        let case = Case {
            name,
            work,
            transactions: 3,
            turns: 9,
            calls,
            ends: (0, 0, End::Refused(refusal)),
        };
        passes(&rt, name, is_right(rt.alloc(), &case));
    }
}
