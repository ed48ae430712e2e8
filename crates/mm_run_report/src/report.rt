//! What a report holds, and its text.
ghost use Rattle.std.specs.Prelude.{◌≡◌, length};
ghost use Rattle.mm_run_report.specs.Report.{AreNumbers};

use crate::source::Source;
use crate::telling::RunOptions;
use mm_clients::{EndCounts, TalliedOutcome};
use mm_counts::Report;
use mm_workload::Workload;
use serde::Serialize;
use serde_json::Error;
use std::alloc::Global;

/// What ran, and what came of it.
#[derive(Drop, Serialize)]
pub struct RunReport<'a> {
    /// From what the workload was made.
    pub source: Source<'a>,
    /// The workload's numbers.
    pub workload: Numbers,
    /// How many transactions of clients ended in each way.
    pub ends: EndCounts,
    /// What the table counted.
    pub totals: Report,
    /// How many acquires waited, of all workers.
    pub waits: u64,
    /// How many labels the workers raised.
    pub raises: u64,
    /// How long all of it took; nothing if the system gave no time.
    pub seconds: Option<f64>,
}

/// The numbers of a workload, with those of its table.
#[derive(Clone, Copy, Drop, Serialize)]
pub struct Numbers {
    pub clients: usize,
    pub transmitters: u32,
    pub turns: u64,
    pub processes: u32,
    pub resources: u32,
    pub label_limit: u64,
    pub generation_limit: u32,
}

/// A run of a workload that is over.
#[derive(Clone, Copy)]
pub struct Run<'a> {
    /// What is told of it.
    pub wanted: RunOptions<'a>,
    pub work: &'a Workload,
    /// How long it took, if the system gave the times.
    pub seconds: Option<f64>,
}

impl<'a> Run<'a> {
    ghost use Rattle.mm_run_report.specs.Report.{AreEnds, AreNumbers};

    /// Returns what the report on the run holds: the numbers of the workload, and those of its outcome. `O(clients)`.
    pub fn report(&self, ran: &TalliedOutcome) -> RunReport<'a>
        ensures source { result.source ≡ self.entry.now.wanted.source }
        ensures workload { AreNumbers self.entry.now.work.now result.workload }
        ensures ends { AreEnds ran.now.outcome.ends.items ran.now.outcome.earlier result.ends }
        ensures totals { result.totals ≡ ran.now.outcome.report }
        ensures waits { result.waits ≡ ran.now.tally.waits }
        ensures raises { result.raises ≡ ran.now.tally.raises }
        ensures seconds { result.seconds ≡ self.entry.now.seconds }
    {
        RunReport {
            source: self.wanted.source,
            workload: numbers_of(self.work),
            ends: ran.outcome.counted(),
            totals: ran.outcome.report,
            waits: ran.tally.waits,
            raises: ran.tally.raises,
            seconds: self.seconds,
        }
    }
}

fn numbers_of(work: &Workload) -> Numbers
    ensures { AreNumbers work.now result }
{
    let config = work.config();
    Numbers {
        clients: work.clients().len(),
        transmitters: work.transmitters(),
        turns: work.turns(),
        processes: config.processes,
        resources: config.resources,
        label_limit: config.label_limit,
        generation_limit: config.generation_limit,
    }
}

/// Returns the report as JSON, a member a line, with a newline at its end. Takes memory.
pub fn text_of(alloc: Global, report: &RunReport<'_>) -> Result<String, Error> {
    let mut text = serde_json::to_string_pretty(alloc, report)?;
    text.push_str("\n")?;
    Ok(text)
}
