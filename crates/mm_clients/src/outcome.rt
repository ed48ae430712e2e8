//! What came of a workload, and the two lines that say so.
ghost use Rattle.std.specs.Prelude.{◌≡◌, ◌+◌, count_by};
ghost use Rattle.mm_clients.specs.End.{is_finished, is_aborted, is_spent, is_refused};

use crate::earlier::EarlierEnds;
use crate::end::End;
use crate::tally::Tally;
use mm_counts::Report;
use serde::Serialize;
use std::fmt;
use std::fmt::{Display, Formatter};

/// What came of a workload.
#[derive(Debug, Drop)]
pub struct Outcome {
    /// How the last transaction of each client ended, in the order of the clients.
    pub ends: Vec<End>,
    /// How the transactions before these ended, of all clients.
    pub earlier: EarlierEnds,
    /// What the table counted.
    pub report: Report,
}

/// What came of a workload, with what its workers counted.
#[derive(Drop)]
pub struct TalliedOutcome {
    pub outcome: Outcome,
    /// What all workers counted of the replies to their calls.
    pub tally: Tally,
}

/// How many transactions of clients ended in each way.
#[derive(Clone, Copy, Debug, PartialEq, Eq, Serialize)]
pub struct EndCounts {
    pub finished: usize,
    pub aborted: usize,
    pub spent: usize,
    pub refused: usize,
}

impl Outcome {
    /// Returns how many transactions ended in each way, of all clients. `O(clients)`.
    pub fn counted(&self) -> EndCounts
        ensures finished { result.finished ≡ count_by is_finished self.now.ends.items + self.now.earlier.finished }
        ensures aborted { result.aborted ≡ count_by is_aborted self.now.ends.items + self.now.earlier.aborted }
        ensures spent { result.spent ≡ count_by is_spent self.now.ends.items }
        ensures refused { result.refused ≡ count_by is_refused self.now.ends.items }
    {
        count_of(self.ends.as_slice(), self.earlier)
    }
}

fn count_of(ends: &[End], earlier: EarlierEnds) -> EndCounts
    ensures finished { result.finished ≡ count_by is_finished ends.now + earlier.finished }
    ensures aborted { result.aborted ≡ count_by is_aborted ends.now + earlier.aborted }
    ensures spent { result.spent ≡ count_by is_spent ends.now }
    ensures refused { result.refused ≡ count_by is_refused ends.now }
{
    let mut counted = EndCounts {
        finished: earlier.finished as usize,
        aborted: earlier.aborted as usize,
        spent: 0,
        refused: 0,
    };
    for end in ends {
        match end {
            End::Finished => counted.finished += 1,
            End::Aborted => counted.aborted += 1,
            End::Spent => counted.spent += 1,
            End::Refused(_) => counted.refused += 1,
        }
    }
    counted
}

/// Two lines: how many transactions of clients ended in each way, and how many verdicts and aborts the table counted. No newline follows the second.
impl Display for Outcome {
    fn fmt<W: fmt::Write>(&self, f: &mut Formatter<W>) -> fmt::Result {
        let EndCounts {
            finished,
            aborted,
            spent,
            refused,
        } = self.counted();
        let Report {
            verdicts,
            aborts,
            ..
        } = self.report;
        write!(
            f,
            "clients finished {finished} aborted {aborted} spent {spent} refused {refused}\n\
             table verdicts {verdicts} aborts {aborts}"
        )
    }
}
