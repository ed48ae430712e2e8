//! The two lines that say what came of a workload, with six different numbers.

use crate::tests::passes::passes;
use mm_workers::{EarlierEnds, End, Outcome, Report};
use std::test::Fail;

static ENDS: [End; 10] = [
    End::Refused(7),
    End::Spent,
    End::Aborted,
    End::Refused(2),
    End::Finished,
    End::Refused(15),
    End::Spent,
    End::Aborted,
    End::Refused(1),
    End::Spent,
];

#[test]
fn an_outcome_is_two_lines(rt: HostRuntime) -> Result<(), Fail> {
    let outcome = Outcome {
        ends: ENDS.to_vec(rt.alloc())?,
        earlier: EarlierEnds {
            finished: 40,
            aborted: u32::MAX,
        },
        report: Report {
            accepted: 7,
            verdicts: 6,
            aborts: 5,
        },
    };
    let text = format!(in rt.alloc(); "{outcome}")?;
    let lines =
        "clients finished 41 aborted 4294967297 spent 3 refused 4\ntable verdicts 6 aborts 5";
    passes(&rt, "an_outcome_is_two_lines", text.as_str() == lines);
    Ok(())
}
