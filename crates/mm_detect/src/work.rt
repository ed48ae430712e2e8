//! Runs of workloads, as the words of the command line ask for them.
ghost use Rattle.std.specs.Prelude.{◌≡◌, ◌≢◌, ◌⊎◌, ◌≤◌, IfErr, IfOk, MatchResult, Ok};
ghost use Rattle.mm_detect.specs.Answer.{EndsThreads};
ghost use Rattle.mm_limits.specs.declared.TheConstants.{MAX_CLIENTS, MAX_TRANSMITTERS};
ghost use Rattle.mm_workload.specs.Json.{Says, SaysNone};
ghost use Rattle.mm_workload.specs.Work.{Work};

use crate::ending::Ending;
use mm_run_report::{FileBytes, RunOptions, Source, is_same_file, print_fault, read_file, tell};
use mm_work::{ScriptFault, StormOptions, StormShape, WorkFault, run_bytes, run_storm};
use std::io::Write;
use std::rt::Runtime;
use std::sync::Wait;
use std::thread::Threads;

/// The status of a run whose lines could not be written.
const WRITE_FAULT: u8 = 3;

/// Runs the workload that the bytes of a file say, prints its two lines, and returns the status that the program exits with:
///
/// - 0 if each client finished or was aborted, and 5 if some client used up its turns or was refused;
/// - 1 if the bytes say no workload: the line `malformed workload` is printed;
/// - 4 if the table, the start of a thread, or memory was refused: the line that says so is printed;
/// - 3 if a line could not be written.
///
/// Takes memory, and starts a thread for each client and each transmitter.
pub fn threads_on<R: Runtime + AllocGlobal + Threads + Wait + Sync, W: Write>(
    rt: &R,
    bytes: &[u8],
    writer: &mut W,
) -> u8
    ensures malformed { result ≡ 1 → SaysNone bytes.now }
    ensures ran { (result ≡ 0) ⊎ (result ≡ 5) → (work : Work) × Says bytes.now work }
{
    let wanted = RunOptions::plain(Source::Threads { file: "" });
    status_after(run_bytes(rt, wanted, bytes, writer))
}

/// Runs the workload that is generated from these numbers, as `threads_on` runs that of a file. The status is never 1.
pub fn storm_on<R: Runtime + AllocGlobal + Threads + Wait + Sync, W: Write>(
    rt: &R,
    seed: u64,
    clients: u32,
    transmitters: u32,
    writer: &mut W,
) -> u8
    requires clients { (1 ≤ clients) × (clients ≤ MAX_CLIENTS) }
    requires transmitters { transmitters ≤ MAX_TRANSMITTERS }
    ensures { result ≢ 1 }
{
    let options = StormOptions {
        seed,
        clients,
        transmitters,
        shape: StormShape::USUAL,
    };
    let wanted = RunOptions::plain(Source::of_storm(&options));
    status_after(run_storm(rt, wanted, &options, writer))
}

/// Runs the workload in this file, tells what came of it, and returns how that ended. A report that would replace the workload is refused
/// before anything is read.
pub fn answer_threads<R: Runtime + AllocGlobal + Threads + Wait + Sync, W: Write>(
    rt: &R,
    file: &str,
    wanted: RunOptions<'_>,
    output: &mut W,
) -> Ending
    ensures { EndsThreads result }
{
    if let Some(report) = wanted.report
        && is_same_file(rt, file, report.as_str())
    {
        tell(
            rt,
            report.as_str(),
            &"the report would replace the workload",
        );
        return Ending::Wrong;
    }
    Ending::Worked(run_file(rt, file, wanted, output))
}

/// Runs the workload in this file. `Read` if the file could not be read, and `Write` if a line or the report could not be written.
fn run_file<R: Runtime + AllocGlobal + Threads + Wait + Sync, W: Write>(
    rt: &R,
    file: &str,
    wanted: RunOptions<'_>,
    output: &mut W,
) -> Result<u8, ScriptFault>
    ensures fault { IfErr result (λ fault. (fault ≡ ScriptFault.Read) ⊎ (fault ≡ ScriptFault.Write)) }
{
    match read_file(rt, rt.alloc(), file) {
        FileBytes::Bytes(bytes) if wanted.is_nothing() => {
            unless_write_fault(threads_on(rt, bytes.as_slice(), output))
        }
        FileBytes::Bytes(bytes) => run_bytes(rt, wanted, bytes.as_slice(), output),
        FileBytes::Memory => print_fault(WorkFault::Memory, output),
        FileBytes::Fault(error) => {
            if wanted.verbose {
                tell(rt, file, &error);
            }
            Err(ScriptFault::Read)
        }
    }
}

/// Runs the workload that is generated from these numbers, and tells what came of it.
pub fn answer_storm<R: Runtime + AllocGlobal + Threads + Wait + Sync, W: Write>(
    rt: &R,
    options: &StormOptions,
    wanted: RunOptions<'_>,
    output: &mut W,
) -> Result<u8, ScriptFault>
    ensures { IfErr result (λ fault. fault ≡ ScriptFault.Write) }
{
    if options.shape == StormShape::USUAL && wanted.is_nothing() {
        let StormOptions {
            seed,
            clients,
            transmitters,
            ..
        } = *options;
        unless_write_fault(storm_on(rt, seed, clients, transmitters, output))
    } else {
        run_storm(rt, wanted, options, output)
    }
}

/// Returns the status of a run; that of a write fault if it has none.
fn status_after(outcome: Result<u8, ScriptFault>) -> u8
    ensures { MatchResult outcome (λ status. result ≡ status) (λ fault. result ≡ WRITE_FAULT) }
{
    outcome.unwrap_or(WRITE_FAULT)
}

/// Returns the status of a run whose lines were written; a fault if they were not.
fn unless_write_fault(status: u8) -> Result<u8, ScriptFault>
    ensures ok { IfOk result (λ same. same ≡ status) }
    ensures fault { IfErr result (λ fault. (fault ≡ ScriptFault.Write) × (status ≡ WRITE_FAULT)) }
{
    if status == WRITE_FAULT {
        Err(ScriptFault::Write)
    } else {
        Ok(status)
    }
}
