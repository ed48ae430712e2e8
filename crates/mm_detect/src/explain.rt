//! Explains a script, that of a file or of standard input.
ghost use Rattle.mm_detect.specs.Answer.{EndsExplain};

use crate::ending::{Ending, print_no_memory};
use mm_command::ExplainOptions;
use mm_explain::{ExplainFault, Options, explain};
use mm_work::ScriptFault;
use std::env::{Env, FillError};
use std::fs::File;
use std::io::{Eprint, IsTerminal, Read, Write};
use std::rt::Files;

/// Explains the script of the file, or that of the reader if no file is named. Text has colors on a terminal, unless NO_COLOR is set.
#[inline(never)]
pub fn run_explain<R: Env + Eprint + Files + AllocGlobal, I: Read, W: Write + IsTerminal>(
    rt: &R,
    asked: &ExplainOptions,
    input: &mut I,
    output: &mut W,
) -> Ending
    ensures { EndsExplain result }
{
    let options = Options {
        mermaid: asked.mermaid,
        dot: asked.dot,
        all: asked.all,
        at: asked.at,
        has_colors: output.is_terminal() && may_have_colors(rt),
    };
    match &asked.file {
        Some(file) => explain_file(rt, file.as_str(), options, output),
        None => ending_of(rt, explain(rt.alloc(), options, input, output), output),
    }
}

/// Returns whether the environment does not ask for text without colors.
fn may_have_colors(rt: &impl Env) -> bool {
    match rt.var("NO_COLOR", &mut [0; 1]) {
        Ok(len) => len == 0,
        Err(FillError::NotPresent) => true,
        Err(FillError::TooLong) => false,
    }
}

/// Explains the script of the file. If it cannot be read, that is told.
fn explain_file<R: Eprint + Files + AllocGlobal, W: Write>(
    rt: &R,
    file: &str,
    options: Options,
    output: &mut W,
) -> Ending
    ensures { EndsExplain result }
{
    match File::open(rt, file) {
        Ok(mut script) => ending_of(
            rt,
            explain(rt.alloc(), options, &mut script, output),
            output,
        ),
        Err(error) => {
            // If standard error cannot be written either, the status alone reports it.
            let _ = eprintln!(rt; "{file}: {error}");
            Ending::Ran(Err(ScriptFault::Read))
        }
    }
}

/// Returns how the program ends after this, with what is to be told of it.
fn ending_of<R: Eprint, W: Write>(
    rt: &R,
    outcome: Result<u64, ExplainFault>,
    output: &mut W,
) -> Ending
    ensures { EndsExplain result }
{
    match outcome {
        Ok(malformed) => Ending::Ran(Ok(malformed)),
        Err(ExplainFault::Lines(fault)) => Ending::Ran(Err(fault)),
        Err(ExplainFault::Memory) => Ending::Refused(print_no_memory(output)),
        Err(fault @ ExplainFault::NoLine(_)) => {
            let _ = eprintln!(rt; "{fault}");
            Ending::Wrong
        }
    }
}
