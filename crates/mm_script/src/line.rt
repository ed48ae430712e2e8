//! What a line of a script is.
ghost use Rattle.std.specs.Prelude.{◌≡◌};
ghost use Rattle.mm_script.specs.Line.{line_of};

use super::MAX_LINE;
use super::forms::call_of;
use mm_lines::{Words, without_carriage_return};
use mm_table::{Config, Key};

/// What a line is.
#[derive(Clone, Copy)]
pub enum Line {
    /// No reply is due.
    Silent,
    /// Not in the language.
    Malformed,
    Call(Call),
}

/// The word that a table is opened with.
#[derive(Clone, Copy)]
pub enum Header {
    /// `table`, for at most 4,096 processes.
    Table,
    /// `table2`, for as many processes as a table can have.
    Table2,
}

/// A call of a table.
#[derive(Clone, Copy)]
pub enum Call {
    Table { header: Header, config: Config },
    Begin,
    Acquire { key: Key, resource: u32 },
    Release { key: Key, resource: u32 },
    Finish(Key),
    Transmit(Key),
    Detect(Key),
    Abort(Key),
    GiveUp(Key),
    Settle,
    State(Key),
    Owner(u32),
    Totals,
}

/// Returns what a line is, without its newline.
pub fn line_of(line: &[u8]) -> Line
    ensures { result ≡ line_of line.now }
{
    if line.len() > MAX_LINE {
        return Line::Malformed;
    }
    let mut words = Words::new(without_carriage_return(line));
    let Some(word) = words.next() else {
        return Line::Silent;
    };
    if word.first() == Some(&b'#') {
        return Line::Silent;
    }
    match call_of(word, &mut words) {
        Some(call) => Line::Call(call),
        None => Line::Malformed,
    }
}
