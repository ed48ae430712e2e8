//! How a run of the program ends, and the status that it exits with.
ghost use Rattle.std.specs.Prelude.{◌≡◌};
ghost use Rattle.mm_detect.specs.Ending.{ending_status, fault_told, status_of};

use mm_work::ScriptFault;
use std::fmt::Display;
use std::io::{Eprint, Write};

/// How a run of the program ended.
#[derive(Clone, Copy)]
pub enum Ending {
    /// A script was run: this many lines were malformed, or a fault came.
    Ran(Result<u64, ScriptFault>),
    /// Help was asked for; its text was printed, or a fault came.
    Helped(Result<(), ScriptFault>),
    /// The command line was wrong.
    Wrong,
    /// A workload was run, or was refused: the lines that say so were printed, and the program exits with this status; or a fault came.
    Worked(Result<u8, ScriptFault>),
    /// Memory for the command line was refused; the line that says so was printed, or a fault came.
    Refused(Result<(), ScriptFault>),
}

/// Returns the status that the program exits with.
pub fn status(ending: &Ending) -> u8
    ensures { result ≡ ending_status ending.now }
{
    match ending {
        Ending::Ran(outcome) => script_status(outcome),
        Ending::Helped(Ok(())) => 0,
        Ending::Wrong => 2,
        Ending::Worked(Ok(status)) => *status,
        Ending::Refused(Ok(())) => 4,
        Ending::Helped(Err(_)) => 3,
        Ending::Refused(Err(_)) => 3,
        Ending::Worked(Err(_)) => 3,
    }
}

/// Returns the status after a script: 0 if no line was malformed, 1 if some was, and 3 after a fault.
pub fn script_status(outcome: &Result<u64, ScriptFault>) -> u8
    ensures { result ≡ status_of outcome.now }
{
    match outcome {
        Ok(0) => 0,
        Ok(_) => 1,
        Err(_fault) => 3,
    }
}

/// Returns the fault that is printed on standard error, if any.
pub fn fault(ending: &Ending) -> Option<ScriptFault>
    ensures { result ≡ fault_told ending.now }
{
    match ending {
        Ending::Ran(outcome) => outcome.err(),
        Ending::Helped(told) => told.err(),
        Ending::Wrong => None,
        Ending::Worked(told) => told.err(),
        Ending::Refused(told) => told.err(),
    }
}

/// Prints that memory was refused.
pub fn print_no_memory(output: &mut impl Write) -> Result<(), ScriptFault> {
    print_text(output, &"refused 10 Memory\n")
}

/// Prints the text of the help, or of the version.
pub fn print_text(output: &mut impl Write, text: &impl Display) -> Result<(), ScriptFault> {
    if write!(output, "{text}").is_err() || output.flush().is_err() {
        return Err(ScriptFault::Write);
    }
    Ok(())
}

/// Tells on standard error why the words are no command line.
pub fn tell_wrong<R: Eprint, T: Display>(rt: &R, text: &T) {
    // If standard error cannot be written either, the status alone reports it.
    let _ = eprint!(rt; "{text}");
}
