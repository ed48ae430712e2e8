//! The requests that only a service with connections has.
ghost use Rattle.std.specs.Prelude.{◌≡◌, ◌&&◌, not, nat_eq, nat_le, length, drop, option_map};
ghost use Rattle.std.specs.List.{list_all};
ghost use Rattle.std.specs.Map.{lookup};
ghost use Rattle.std.specs.Str.{bytes_eq};
ghost use Rattle.mm_lines.specs.WordsLeft.{words_left};
ghost use Rattle.mm_lines.specs.Words.{words_of};
ghost use Rattle.mm_connections.specs.Forms.{are_names, further, further_by, further_of, further_words, is_name, read};
ghost use Rattle.mm_connections.specs.private.Request.{asked_of};

use crate::request::{ClientAsked, ClientRequest, ReadRequest};
use mm_lines::{Words, row_of};
use mm_service::is_name;

/// What follows the word of such a request.
#[derive(Clone, Copy)]
pub enum FurtherForm {
    /// `NAME ..`: names that a new transaction asks for.
    Begin,
    /// `K NAME NAME ..`: names that a transaction asks for.
    Lock,
    /// `K NAME`: the fence of a name is read.
    Fence,
    /// Nothing: the protocol and the numbers of the opening are read.
    Hello,
    /// Nothing: the live transactions are read.
    List,
    /// Nothing: the counts are read.
    Counts,
}

/// Each word that asks so, with what follows it.
const FORMS: [(&str, FurtherForm); 6] = [
    ("begin", FurtherForm::Begin),
    ("lock", FurtherForm::Lock),
    ("fence", FurtherForm::Fence),
    ("hello", FurtherForm::Hello),
    ("list", FurtherForm::List),
    ("counts", FurtherForm::Counts),
];

/// Returns what a request asks for that the lock service without connections does not know.
pub fn further_of(line: &[u8]) -> Option<ClientAsked<'_>>
    ensures { option_map asked_of result ≡ further_of line.now }
{
    let mut words = Words::new(line);
    let word = words.next()?;
    let (_, form) = row_of(word, &FORMS)?;
    further_by(form, line, &mut words)
}

/// Returns what a form asks for with these arguments.
fn further_by<'a>(
    form: FurtherForm,
    line: &'a [u8],
    arguments: &mut Words<'a>,
) -> Option<ClientAsked<'a>>
    ensures { option_map asked_of result ≡ further_by form line.now (words_left arguments.old) }
{
    match form {
        FurtherForm::Begin => further(ClientRequest::Begin, line, are_names(arguments)),
        FurtherForm::Lock => {
            let key = arguments.next_key()?;
            further(ClientRequest::LockAll(key), line, are_names(arguments))
        }
        FurtherForm::Fence => {
            let key = arguments.next_key()?;
            let name = arguments.next()?;
            if !is_name(name) {
                return None;
            }
            read(ReadRequest::Fence(key), name, arguments)
        }
        FurtherForm::Hello => read(ReadRequest::Hello, &[], arguments),
        FurtherForm::List => read(ReadRequest::List, &[], arguments),
        FurtherForm::Counts => read(ReadRequest::Counts, &[], arguments),
    }
}

fn further(request: ClientRequest, about: &[u8], is_request: bool) -> Option<ClientAsked<'_>>
    ensures { option_map asked_of result ≡ further request about.now is_request }
{
    is_request.then_some(ClientAsked { request, about })
}

/// Returns a read, if no argument is left.
fn read<'a>(
    request: ReadRequest,
    about: &'a [u8],
    arguments: &mut Words<'_>,
) -> Option<ClientAsked<'a>>
    ensures { option_map asked_of result ≡ read request about.now (words_left arguments.old) }
{
    let is_last = arguments.next().is_none();
    further(ClientRequest::Read(request), about, is_last)
}

/// Returns whether words are left, and all of them can be names.
fn are_names(arguments: &mut Words<'_>) -> bool
    ensures { result ≡ are_names (words_left arguments.old) }
{
    let Some(first) = arguments.next() else {
        return false;
    };
    let mut all = is_name(first);
    'word: while let Some(word) = arguments.next() {
        all = all && is_name(word);
    }
    all
}
