//! Runs of workloads, that of a file or a generated one, on threads.
ghost use Rattle.std.specs.Prelude.{◌≡◌, ◌≢◌, ◌⊎◌, Ok, IfOk, IfErr, IsErrAnd, IsOk};
ghost use Rattle.mm_workload.specs.Json.{Says, SaysNone};
ghost use Rattle.mm_workload.specs.Work.{Work};
ghost use Rattle.mm_workload.specs.declared.fault.WorkFault.TheVariants.{Memory};
ghost use Rattle.mm_run_report.specs.WorkEnd.{EndsAs, end_after, work_status};

use crate::threads::{run, run_told};
use mm_run_report::{Run, RunOptions, WorkEnd, seconds_since, tell_end, tell_fault};
use mm_script::ScriptFault;
use mm_workload::{StormOptions, WorkFault, Workload, shaped_storm};
use std::io::Write;
use std::rt::Runtime;
use std::sync::Wait;
use std::thread::Threads;
use std::time::Instant;

/// Runs the workload that these bytes of a file say, tells what came of it, and returns the status that the program exits with
/// (`WorkEnd::status`); `Err` if a line or the report could not be written. Takes memory. It is a call of its own, since what reads a
/// workload takes stack that other requests do not need.
#[inline(never)]
pub fn run_bytes<R: Runtime + AllocGlobal + Threads + Wait + Sync, W: Write>(
    rt: &R,
    wanted: RunOptions<'_>,
    bytes: &[u8],
    output: &mut W,
) -> Result<u8, ScriptFault>
    ensures malformed { result ≡ Ok 1 → SaysNone bytes.now }
    ensures ran { (result ≡ Ok 0) ⊎ (result ≡ Ok 5) → (work : Work) × Says bytes.now work }
    ensures fault { IfErr result (λ fault. fault ≡ ScriptFault.Write) }
{
    let read = Workload::read(rt.alloc(), bytes);
    run_work(rt, wanted, read, output)
}

/// Runs the workload that is generated from these numbers, as `run_bytes` runs that of a file. It never ends as malformed.
#[inline(never)]
pub fn run_storm<R: Runtime + AllocGlobal + Threads + Wait + Sync, W: Write>(
    rt: &R,
    wanted: RunOptions<'_>,
    options: &StormOptions,
    output: &mut W,
) -> Result<u8, ScriptFault>
    ensures status { IfOk result (λ status. status ≢ 1) }
    ensures fault { IfErr result (λ fault. fault ≡ ScriptFault.Write) }
{
    let read = shaped_storm(rt.alloc(), options);
    run_work(rt, wanted, read, output)
}

/// Runs the workload, if there is one, and tells what came of it.
fn run_work<R: Runtime + AllocGlobal + Threads + Wait + Sync, W: Write>(
    rt: &R,
    wanted: RunOptions<'_>,
    read: Result<Workload, WorkFault>,
    writer: &mut W,
) -> Result<u8, ScriptFault>
    ensures malformed { result ≡ Ok 1 → IsErrAnd read (λ fault. ¬ (fault ≡ Memory)) }
    ensures ran { (result ≡ Ok 0) ⊎ (result ≡ Ok 5) → IsOk read }
    ensures told { IfErr read (λ fault. IfOk result (λ status. status ≡ work_status (end_after fault))) }
    ensures fault { IfErr result (λ fault. fault ≡ ScriptFault.Write) }
{
    match read {
        Ok(work) => {
            let status = run_and_tell(rt, wanted, &work, writer);
            drop(work);
            status
        }
        Err(fault) => tell_fault(rt, wanted, fault, writer),
    }
}

/// Runs the workload, and tells what came of it.
fn run_and_tell<R: Runtime + AllocGlobal + Threads + Wait + Sync, W: Write>(
    rt: &R,
    wanted: RunOptions<'_>,
    work: &Workload,
    writer: &mut W,
) -> Result<u8, ScriptFault>
    ensures status { IfOk result (λ status. status ≢ 1) }
    ensures fault { IfErr result (λ fault. fault ≡ ScriptFault.Write) }
{
    let begun = Instant::now(rt).ok();
    let end = end_of(rt, wanted, work);
    let run = Run {
        wanted,
        work,
        seconds: seconds_since(rt, begun),
    };
    let status = tell_end(rt, &run, &end, writer);
    drop(end);
    status
}

/// Runs the workload, and tells how that goes if it is wanted.
fn end_of<R: Runtime + AllocGlobal + Threads + Wait + Sync>(
    rt: &R,
    wanted: RunOptions<'_>,
    work: &Workload,
) -> WorkEnd
    ensures { EndsAs work.now result }
{
    let ran = if wanted.verbose {
        run_told(rt, rt.alloc(), wanted.source.name(), work)
    } else {
        run(rt, rt.alloc(), work)
    };
    match ran {
        Ok(ran) => WorkEnd::Ran(ran),
        Err(refusal) => WorkEnd::Refused(refusal),
    }
}
