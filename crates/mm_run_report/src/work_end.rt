//! What came of a workload: the lines that are printed, and the status that the program exits with.
ghost use Rattle.std.specs.Prelude.{◌≡◌, IfOk, IfErr};
ghost use Rattle.std.specs.List.{list_all};
ghost use Rattle.mm_run_report.specs.WorkEnd.{end_after, work_status, has_ended};

use mm_clients::{End, TalliedOutcome};
use mm_lines::Fault;
use mm_rules::Refusal;
use mm_workload::{FaultPlace, WorkFault};
use std::fmt;
use std::fmt::{Display, Formatter};
use std::io::Write;

/// What came of a workload.
#[derive(Drop)]
pub enum WorkEnd {
    /// It was run, and all clients have ended.
    Ran(TalliedOutcome),
    /// The file says no workload, since it is malformed at this place.
    Malformed(FaultPlace),
    /// The table, the start of a thread, or memory was refused.
    Refused(Refusal),
}

impl WorkEnd {
    /// Returns the end of a run for which no workload could be made.
    pub fn of_fault(fault: WorkFault) -> WorkEnd
        ensures { result ≡ end_after fault }
    {
        match fault {
            WorkFault::Malformed(place) => WorkEnd::Malformed(place),
            WorkFault::Memory => WorkEnd::Refused(Refusal::Memory),
        }
    }

    /// Returns the status: 0 if each client finished or was aborted, 5 if some client used up its turns or was refused, 1 if the file is
    /// malformed, and 4 if something else was refused.
    pub fn status(&self) -> u8
        ensures { result ≡ work_status self.now }
    {
        match self {
            WorkEnd::Ran(ran) if all_have_ended(ran.outcome.ends.as_slice()) => 0,
            WorkEnd::Ran(_) => 5,
            WorkEnd::Malformed(_) => 1,
            WorkEnd::Refused(_) => 4,
        }
    }
}

/// Returns whether each client finished or was aborted.
fn all_have_ended(ends: &[End]) -> bool
    ensures { result ≡ list_all has_ended ends.now }
{
    ends.iter()
        .all(|end| matches!(end, End::Finished | End::Aborted))
}

impl Display for WorkEnd {
    fn fmt<W: fmt::Write>(&self, f: &mut Formatter<W>) -> fmt::Result {
        match self {
            WorkEnd::Ran(ran) => write!(f, "{}", ran.outcome),
            WorkEnd::Malformed(_) => f.write_str("malformed workload"),
            WorkEnd::Refused(refusal) => {
                write!(f, "refused {} {}", refusal.number(), refusal.name())
            }
        }
    }
}

/// Prints why there is no workload, and returns the status.
pub fn print_fault<W: Write>(fault: WorkFault, writer: &mut W) -> Result<u8, Fault>
    ensures status { IfOk result (λ status. status ≡ work_status (end_after fault)) }
    ensures fault { IfErr result (λ fault. fault ≡ Fault.Write) }
{
    print_end(&WorkEnd::of_fault(fault), writer)
}

/// Prints what came of a workload, and returns the status; `Err` if that could not be written.
pub fn print_end<W: Write>(end: &WorkEnd, writer: &mut W) -> Result<u8, Fault>
    ensures status { IfOk result (λ status. status ≡ work_status end.now) }
    ensures fault { IfErr result (λ fault. fault ≡ Fault.Write) }
{
    if writeln!(writer, "{end}").is_err() || writer.flush().is_err() {
        return Err(Fault::Write);
    }
    Ok(end.status())
}
