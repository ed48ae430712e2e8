//! What a transmitter does at each answer, call by call. Expected calls are those of the rules of docs/WORKLOADS.md, by hand.

use crate::tests::passes::passes;
use crate::tests::script::{Answer, Call, DEADLOCK, Line, Script};
use crate::tests::scripted::{ScriptedGate, ScriptedSteps};
use mm_shared::Refusal;
use mm_workers::Transmitter;

/// A transmitter's turns, and the calls that it makes with their answers.
struct Case {
    name: &'static str,
    turns: u64,
    calls: &'static [Line],
}

const GOES_ON: Line = (Call::Over, Answer::Done);

const SEES_NOTHING: Line = (Call::Scan(0), Answer::Nothing);

static CASES: [Case; 4] = [
    Case {
        name: "once all clients have left it calls nothing",
        turns: 100,
        calls: &[(Call::Over, Answer::Passes)],
    },
    Case {
        name: "behind the last process it begins anew, whatever was answered",
        turns: 2,
        calls: &[
            GOES_ON,
            (Call::Scan(0), Answer::Raise(3)),
            (Call::Tenant(3), Answer::Done),
            (Call::Transmit, Answer::Refused(Refusal::Stale)),
            GOES_ON,
            SEES_NOTHING,
        ],
    },
    Case {
        name: "it detects, and goes on behind the process",
        turns: 2,
        calls: &[
            GOES_ON,
            (Call::Scan(0), Answer::Equal(1)),
            (Call::Tenant(1), Answer::Done),
            DEADLOCK,
            GOES_ON,
            (Call::Scan(2), Answer::Nothing),
        ],
    },
    Case {
        name: "whoever is gone is passed by",
        turns: 3,
        calls: &[
            GOES_ON,
            (Call::Scan(0), Answer::Equal(1)),
            (Call::Tenant(1), Answer::Nothing),
            GOES_ON,
            (Call::Scan(2), Answer::Nothing),
            GOES_ON,
            SEES_NOTHING,
        ],
    },
];

/// Whether a transmitter for four processes makes just the calls of the script.
fn runs_so(script: &Script<'_>, turns: u64) -> bool {
    let steps = ScriptedSteps::new(script);
    let mut transmitter = Transmitter::new(steps, ScriptedGate { script }, 4, turns);
    transmitter.run();
    script.is_over()
}

#[test]
fn a_transmitter_looks_transmits_and_detects(rt: HostRuntime) {
    for case in &CASES {
        let is_right = runs_so(&Script::new(case.calls), case.turns);
        passes(&rt, case.name, is_right);
    }
}

#[test]
fn without_a_hint_a_transmitter_looks_alone(rt: HostRuntime) {
    let script = Script::repeated(&[GOES_ON, SEES_NOTHING], 100);
    passes(&rt, "a hundred turns", runs_so(&script, 100));
}
