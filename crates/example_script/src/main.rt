//! A script from standard input, with its replies on standard output: what a program of one's own needs to run scripts.
#![tactic(auto)]

use mm_script::run_script;
use std::process::ExitCode;

/// Exits with 0 if no line is malformed, with 1 if some is, and with 3 after a fault, which standard error then names.
fn main(rt: HostRuntime) -> ExitCode {
    let (mut input, mut output) = (rt.stdin(), rt.stdout());
    let status = match run_script(rt.alloc(), &mut input, &mut output) {
        Ok(0) => 0,
        Ok(_) => 1,
        Err(fault) => {
            // If standard error cannot be written either, the status alone reports it.
            let _ = eprintln!(rt; "{fault}");
            3
        }
    };
    ExitCode::from(status)
}
