//! What a line is.
ghost use Rattle.std.specs.Prelude.{◌≡◌};
ghost use Rattle.mm_service.specs.Line.{line_of, request_line};

use crate::forms::request_of;
use crate::reply::MAX_NAME;
use crate::requests::{KeyRequest, NameRequest};
use mm_lines::{Words, without_carriage_return};
use mm_manager::Key;

/// The longest request in bytes: `unlock`, a key of 16 bytes, the longest name, and two spaces.
pub const MAX_REQUEST: usize = MAX_NAME + 24;

/// The longest line that can be a request, in bytes, as `Limits` of mm_lines counts them: with a carriage return.
pub const MAX_LINE: usize = MAX_REQUEST + 1;

/// What a line is.
#[derive(Clone, Copy)]
pub enum Line {
    /// No reply is due.
    Silent,
    /// Not in the language.
    Malformed,
    /// A request; the name that it is about stands beside it.
    Request(Request),
}

/// A request to a lock manager, without the name that it is about.
#[derive(Clone, Copy)]
pub enum Request {
    Begin,
    /// Of a transaction and a name.
    OfName(NameRequest, Key),
    /// Of a transaction.
    OfKey(KeyRequest, Key),
    /// Of a transaction: the names that it owns are told, those after the name that stands beside it, or from the first one on.
    Holds(Key),
    /// Of a name: its owner is read.
    Owner,
    /// The wait-for graph is read.
    Graph,
    /// The counts are read.
    Totals,
}

/// A request and the name that it is about; no bytes if it is about none.
#[derive(Clone, Copy)]
pub struct Asked<'a> {
    pub request: Request,
    pub name: &'a [u8],
}

/// A line, and the name that its request is about; no bytes if there is none.
#[derive(Clone, Copy)]
pub struct Named<'a> {
    pub line: Line,
    pub name: &'a [u8],
}

/// Returns what a line is, without its newline.
pub fn line_of(line: &[u8]) -> Named<'_>
    ensures line { result.line ≡ (line_of line.now).line }
    ensures name { result.name.now ≡ (line_of line.now).name }
{
    request_line(without_carriage_return(line))
}

/// Returns what a line is, without its newline and the carriage return before that.
pub fn request_line(line: &[u8]) -> Named<'_>
    ensures line { result.line ≡ (request_line line.now).line }
    ensures name { result.name.now ≡ (request_line line.now).name }
{
    if line.len() > MAX_REQUEST {
        return Named::MALFORMED;
    }
    let mut words = Words::new(line);
    let Some(word) = words.next() else {
        return Named::SILENT;
    };
    if word.first() == Some(&b'#') {
        return Named::SILENT;
    }
    match request_of(word, &mut words) {
        Some(asked) => Named {
            line: Line::Request(asked.request),
            name: asked.name,
        },
        None => Named::MALFORMED,
    }
}

impl Named<'static> {
    const SILENT: Named<'static> = Named {
        line: Line::Silent,
        name: &[],
    };

    const MALFORMED: Named<'static> = Named {
        line: Line::Malformed,
        name: &[],
    };
}
