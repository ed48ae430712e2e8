//! What is told of a workload: its two lines, and a report, which is written once the lines are printed; or why there is none.
ghost use Rattle.std.specs.Prelude.{◌≡◌, IfOk, IfErr};
ghost use Rattle.mm_run_report.specs.WorkEnd.{end_after, work_status};

use crate::file::tell;
use crate::report::{Run, RunReport, text_of};
use crate::source::Source;
use crate::work_end::{WorkEnd, print_end, print_fault};
use mm_lines::Fault;
use mm_workload::WorkFault;
use std::fs;
use std::io::{Eprint, Write};
use std::rt::Files;
use std::time::{Clock, Instant};

/// What is told of a run beside its two lines, and from what its workload was made.
#[derive(Clone, Copy)]
pub struct RunOptions<'a> {
    pub source: Source<'a>,
    /// The file of a report, if one is wanted.
    pub report: Option<&'a String>,
    /// Whether it is told on standard error how the run goes.
    pub verbose: bool,
}

impl<'a> RunOptions<'a> {
    /// Nothing but the two lines.
    pub fn plain(source: Source<'a>) -> RunOptions<'a> {
        RunOptions {
            source,
            report: None,
            verbose: false,
        }
    }

    /// Returns what the words of the command line ask for.
    pub fn new(source: Source<'a>, report: &'a Option<String>, verbose: bool) -> RunOptions<'a> {
        RunOptions {
            source,
            report: report.as_ref(),
            verbose,
        }
    }

    /// Returns whether nothing is told but the two lines.
    pub fn is_nothing(&self) -> bool {
        self.report.is_none() && !self.verbose
    }
}

/// Prints why there is no workload, and returns the status.
pub fn tell_fault<R: Eprint, W: Write>(
    rt: &R,
    wanted: RunOptions<'_>,
    fault: WorkFault,
    writer: &mut W,
) -> Result<u8, Fault>
    ensures status { IfOk result (λ status. status ≡ work_status (end_after fault)) }
    ensures fault { IfErr result (λ fault. fault ≡ Fault.Write) }
{
    match &fault {
        WorkFault::Malformed(place) if wanted.verbose => tell(rt, wanted.source.name(), place),
        _ => (),
    }
    print_fault(fault, writer)
}

/// Prints what came of the workload, and writes the report if it was run and one is wanted.
pub fn tell_end<R: Files + Eprint + AllocGlobal, W: Write>(
    rt: &R,
    run: &Run<'_>,
    end: &WorkEnd,
    writer: &mut W,
) -> Result<u8, Fault>
    ensures status { IfOk result (λ status. status ≡ work_status end.now) }
    ensures fault { IfErr result (λ fault. fault ≡ Fault.Write) }
{
    let status = print_end(end, writer)?;
    if let (Some(path), WorkEnd::Ran(ran)) = (run.wanted.report, end) {
        write_report(rt, path.as_str(), &run.report(ran))?;
    }
    Ok(status)
}

/// Returns how many seconds have passed; nothing if the system gives no time.
pub fn seconds_since(rt: &impl Clock, begun: Option<Instant>) -> Option<f64> {
    match begun {
        Some(begun) => Some(begun.elapsed(rt).ok()?.as_secs_f64()),
        None => None,
    }
}

/// Writes the report to this file. If that fails, standard error names the file.
fn write_report<R: Files + Eprint + AllocGlobal>(
    rt: &R,
    path: &str,
    report: &RunReport<'_>,
) -> Result<(), Fault>
    ensures { IfErr result (λ fault. fault ≡ Fault.Write) }
{
    let text = match text_of(rt.alloc(), report) {
        Ok(text) => text,
        Err(error) => {
            tell(rt, path, &error);
            return Err(Fault::Write);
        }
    };
    match fs::write(rt, path, text.as_str()) {
        Ok(()) => Ok(()),
        Err(error) => {
            tell(rt, path, &error);
            Err(Fault::Write)
        }
    }
}
