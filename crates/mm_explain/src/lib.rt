//! Explains a script for people: each line with its number and the reply to it, and below it what it changed; and the wait-for graph after
//! the last line, or after another one, as Mermaid and as Graphviz read it.
//!
//! - `session`: a script as far as it is explained. `explanation`: its text and view. `heading` has a line with its reply, `changes` what it
//!   changed of transactions, `calls` what else it came to, `cycle` the cycle that it closed.
//! - `view`: what a table shows, and what it showed before a line.
//! - `picture`: the wait-for graph.
//! - `sheet`: the text that is not yet written.
//! - `fault`: why a script was not explained to its end.
#![tactic(auto)]

ghost use Rattle.std.specs.Prelude.{◌≤◌};

mod calls;
mod changes;
mod cycle;
mod explanation;
mod fault;
mod heading;
mod picture;
mod session;
mod sheet;
mod view;

pub use fault::ExplainFault;
use mm_lines::{Fault, Input, Limits};
use mm_script::{INPUT_LIMIT, MAX_LINE};
use session::Session;
use std::alloc::Global;
use std::io::{Read, Write};

/// What is explained, and how.
#[derive(Clone, Copy)]
pub struct Options {
    /// The wait-for graph is printed as Mermaid reads it, and no text.
    pub mermaid: bool,
    /// The wait-for graph is printed as Graphviz reads it, and no text.
    pub dot: bool,
    /// The graph also has the resources that nobody waits for.
    pub all: bool,
    /// The script is run to this line, and that one is explained alone.
    pub at: Option<u64>,
    /// Text has colors.
    pub has_colors: bool,
}

/// Reads a script to the reader's end, runs it as `run_script` of mm_script does, writes what came of it, and returns how many lines are
/// malformed.
///
/// Lines are explained before the next read. After a fault nothing is read or written:
///
/// - `Lines(Read)`, `Lines(TooLong)`: the lines before it are explained.
/// - `Lines(Write)`: some of the text from the front on is written.
/// - `Memory`: a request for memory was refused.
/// - `NoLine`: `at` names a line that the script does not have.
pub fn explain<R: Read, W: Write>(
    alloc: Global,
    options: Options,
    reader: &mut R,
    writer: &mut W,
) -> Result<u64, ExplainFault> {
    let mut input = Input::new(Limits {
        input: INPUT_LIMIT,
        line: MAX_LINE,
    });
    let Ok(mut session) = Session::open(alloc, options) else {
        return Err(ExplainFault::Memory);
    };
    let outcome = explain_all(&mut input, &mut session, reader, writer);
    drop(session);
    outcome
}

/// Explains a script from its first byte on, as far as it is wanted.
fn explain_all<R: Read, W: Write>(
    input: &mut Input,
    session: &mut Session,
    reader: &mut R,
    writer: &mut W,
) -> Result<u64, ExplainFault>
    requires { input.old.taken ≤ input.old.limits.input }
{
    while input.read(reader)? {
        session.explain_piece(input, writer)?;
        if session.is_over() {
            break;
        }
        if input.is_past_limit() {
            return Err(ExplainFault::Lines(Fault::TooLong));
        }
    }
    session.finish(input.held(), writer)
}
