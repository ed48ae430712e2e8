//! A deadlock detector for transactions, and the lock service on it. `mm_command` says what the words of the command line ask for.
//!
//! - `work`: runs of workloads. Those runs, and the runs of scripts, are in `mm_work`.
//! - `locks`: runs of the lock service. `explain`: explanations of scripts.
//! - `patient`: standard input and output, whose calls are made again if they cannot be made now.
//! - `ending`: how a run of the program ends, and the status that it exits with.
#![tactic(auto)]

ghost use Rattle.mm_detect.specs.Answer.{IsEndOf};

mod ending;
mod explain;
mod locks;
mod patient;
mod work;

use ending::{Ending, fault, print_no_memory, print_text, status, tell_wrong};
use explain::run_explain;
use locks::run_locks;
use mm_command::{Request, asked};
use mm_run_report::{RunOptions, Source};
use mm_work::{run_plain_script, run_verbose_script};
use patient::Patient;
use std::io::{Eprint, IsTerminal, Read, Write};
use std::process::ExitCode;
use std::random::RandomSource;
use std::rt::Runtime;
use std::sync::Wait;
use std::thread::Threads;
use work::{answer_storm, answer_threads};

fn main(rt: HostRuntime) -> ExitCode {
    let mut input = Patient::new(&rt, rt.stdin());
    let mut output = Patient::new(&rt, rt.stdout());
    let ending = answer(&rt, &asked(&rt), &mut input, &mut output);
    if let Some(fault) = fault(&ending) {
        // If standard error cannot be written either, the status alone reports it.
        let _ = eprintln!(rt; "{fault}");
    }
    ExitCode::from(status(&ending))
}

/// Does what is asked for, and returns how that ended.
fn answer<
    R: Runtime + AllocGlobal + RandomSource + Threads + Wait + Sync,
    I: Read,
    W: Write + IsTerminal,
>(rt: &R, request: &Request, input: &mut I, output: &mut W) -> Ending
    ensures { IsEndOf request.now result }
{
    match request {
        Request::Script { verbose: false } => {
            Ending::Ran(run_plain_script(rt.alloc(), input, output))
        }
        Request::Script { verbose: true } => {
            Ending::Ran(run_verbose_script(rt, rt.alloc(), input, output))
        }
        Request::Threads {
            file,
            report,
            verbose,
        } => {
            let source = Source::Threads {
                file: file.as_str(),
            };
            let wanted = RunOptions::new(source, report, *verbose);
            answer_threads(rt, file.as_str(), wanted, output)
        }
        Request::Storm {
            options,
            report,
            verbose,
        } => {
            let wanted = RunOptions::new(Source::of_storm(options), report, *verbose);
            Ending::Worked(answer_storm(rt, options, wanted, output))
        }
        Request::Locks(options) => run_locks(rt, options, input, output),
        Request::Explain(options) => run_explain(rt, options, input, output),
        Request::Help(text) => Ending::Helped(print_text(output, text)),
        Request::Wrong(text) => {
            tell_wrong(rt, text);
            Ending::Wrong
        }
        Request::Memory => Ending::Refused(print_no_memory(output)),
    }
}
