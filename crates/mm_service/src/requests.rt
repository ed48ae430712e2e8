//! The words of the requests.
ghost use Rattle.std.specs.Prelude.{◌≡◌};
ghost use Rattle.std.specs.Map.{lookup};
ghost use Rattle.std.specs.Str.{bytes_eq};
ghost use Rattle.mm_service.specs.Words.{words};

use mm_lines::row_of;

/// What follows the word of a request, and which request they make.
#[derive(Clone, Copy)]
pub enum Form {
    /// Nothing: a transaction begins.
    Begin,
    /// `K`: a key.
    Key(KeyRequest),
    /// `K` or `K FROM`: a key of which the names are told that it owns, and the name after which they begin.
    Holds,
    /// `K NAME`: a key and a name.
    KeyAndName(NameRequest),
    /// `NAME`: a name, whose owner is read.
    Owner,
    /// Nothing: the wait-for graph is read.
    Graph,
    /// Nothing: the counts are read.
    Totals,
}

/// What is asked of a transaction.
#[derive(Clone, Copy)]
pub enum KeyRequest {
    Commit,
    Abort,
    Cancel,
    Status,
}

/// What a transaction asks of a name.
#[derive(Clone, Copy)]
pub enum NameRequest {
    Lock,
    Try,
    Unlock,
}

/// Each word that asks, with what follows it, in the order of `docs/SERVICE.md`.
const FORMS: [(&str, Form); 12] = [
    ("begin", Form::Begin),
    ("lock", Form::KeyAndName(NameRequest::Lock)),
    ("try", Form::KeyAndName(NameRequest::Try)),
    ("unlock", Form::KeyAndName(NameRequest::Unlock)),
    ("commit", Form::Key(KeyRequest::Commit)),
    ("abort", Form::Key(KeyRequest::Abort)),
    ("cancel", Form::Key(KeyRequest::Cancel)),
    ("owner", Form::Owner),
    ("status", Form::Key(KeyRequest::Status)),
    ("holds", Form::Holds),
    ("graph", Form::Graph),
    ("totals", Form::Totals),
];

/// Returns what follows a word that asks. It takes as many steps as there are words.
pub fn form_of(word: &[u8]) -> Option<Form>
    ensures { result ≡ lookup (bytes_eq word.now) words }
{
    let (_, form) = row_of(word, &FORMS)?;
    Some(form)
}
