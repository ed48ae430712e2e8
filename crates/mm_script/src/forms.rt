//! The calls that a line can make: a word, and what follows it.
ghost use Rattle.std.specs.Prelude.{◌≡◌, map, option_map};
ghost use Rattle.std.specs.Map.{lookup};
ghost use Rattle.std.specs.Str.{bytes_eq};
ghost use Rattle.mm_script.specs.Forms.{call_of, forms};
ghost use Rattle.mm_script.specs.private.Forms.{ReadsConfig};
ghost use Rattle.mm_lines.specs.WordsLeft.{words_left};

use super::line::{Call, Header};
use mm_lines::{Words, row_of};
use mm_table::{Config, Key};

/// What follows the word of a call, and the call that they make.
#[derive(Clone, Copy)]
pub enum Form {
    /// `P R L G`: how many processes and resources a table has, its label limit and its generation limit.
    Table(Header),
    /// Nothing.
    Alone(Call),
    /// `K`: a key.
    Key(KeyCall),
    /// `K r`: a key and a resource.
    KeyAndResource(ResourceCall),
    /// `r`: a resource, whose owner is read.
    Owner,
}

/// A call of a key.
#[derive(Clone, Copy)]
pub enum KeyCall {
    Finish,
    Transmit,
    Detect,
    Abort,
    GiveUp,
    State,
}

/// A call of a key and a resource.
#[derive(Clone, Copy)]
pub enum ResourceCall {
    Acquire,
    Release,
}

/// Each word that calls, with what follows it.
const FORMS: [(&str, Form); 14] = [
    ("table", Form::Table(Header::Table)),
    ("table2", Form::Table(Header::Table2)),
    ("begin", Form::Alone(Call::Begin)),
    ("acquire", Form::KeyAndResource(ResourceCall::Acquire)),
    ("release", Form::KeyAndResource(ResourceCall::Release)),
    ("finish", Form::Key(KeyCall::Finish)),
    ("transmit", Form::Key(KeyCall::Transmit)),
    ("detect", Form::Key(KeyCall::Detect)),
    ("abort", Form::Key(KeyCall::Abort)),
    ("give_up", Form::Key(KeyCall::GiveUp)),
    ("settle", Form::Alone(Call::Settle)),
    ("state", Form::Key(KeyCall::State)),
    ("owner", Form::Owner),
    ("totals", Form::Alone(Call::Totals)),
];

/// Returns the call that a word makes with these arguments.
pub fn call_of(word: &[u8], arguments: &mut Words<'_>) -> Option<Call>
    ensures { result ≡ call_of word.now (words_left arguments.old) }
{
    match row_of(word, &FORMS) {
        Some((_, form)) => form.call(arguments),
        None => None,
    }
}

/// Returns the word of a call and what follows it, if this word calls.
pub fn usage_of(word: &[u8]) -> Option<(&'static str, Form)> {
    row_of(word, &FORMS)
}

impl Form {
    ghost use Rattle.mm_script.specs.private.Forms.{call_by, call_before};

    /// Returns how many words follow the word, and the same as a text.
    pub fn wanted(self) -> (usize, &'static str) {
        match self {
            Form::Table(_) => (4, "four words, P R L G,"),
            Form::Alone(_) => (0, "no word"),
            Form::Key(_) => (1, "one word, K,"),
            Form::KeyAndResource(_) => (2, "two words, K r,"),
            Form::Owner => (1, "one word, r,"),
        }
    }

    /// Returns the call that is made with these arguments.
    fn call(self, arguments: &mut Words<'_>) -> Option<Call>
        ensures { result ≡ call_by self (words_left arguments.old) }
    {
        let call = self.read(arguments)?;
        arguments.next().is_none().then_some(call)
    }

    /// Returns the call that the arguments at the front make, if no others are left.
    fn read(self, arguments: &mut Words<'_>) -> Option<Call>
        ensures { call_by self (words_left arguments.old) ≡ call_before result (words_left arguments.new) }
    {
        match self {
            Form::Table(header) => {
                let config = next_config(arguments)?;
                Some(Call::Table { header, config })
            }
            Form::Alone(call) => Some(call),
            Form::Key(call) => Some(call.of(arguments.next_key()?)),
            Form::KeyAndResource(call) => {
                let key = arguments.next_key()?;
                let resource = arguments.next_number32()?;
                Some(call.of(key, resource))
            }
            Form::Owner => arguments.next_number32().map(Call::Owner),
        }
    }
}

fn next_config(arguments: &mut Words<'_>) -> Option<Config>
    ensures { ReadsConfig (words_left arguments.old) result (words_left arguments.new) }
{
    Some(Config {
        processes: arguments.next_number32()?,
        resources: arguments.next_number32()?,
        label_limit: arguments.next_number64()?,
        generation_limit: arguments.next_number32()?,
    })
}

impl KeyCall {
    ghost use Rattle.mm_script.specs.private.Forms.{call_of_key};

    fn of(self, key: Key) -> Call
        ensures { result ≡ call_of_key self key }
    {
        match self {
            KeyCall::Finish => Call::Finish(key),
            KeyCall::Transmit => Call::Transmit(key),
            KeyCall::Detect => Call::Detect(key),
            KeyCall::Abort => Call::Abort(key),
            KeyCall::GiveUp => Call::GiveUp(key),
            KeyCall::State => Call::State(key),
        }
    }
}

impl ResourceCall {
    ghost use Rattle.mm_script.specs.private.Forms.{call_of_key_and_resource};

    fn of(self, key: Key, resource: u32) -> Call
        ensures { result ≡ call_of_key_and_resource self key resource }
    {
        match self {
            ResourceCall::Acquire => Call::Acquire { key, resource },
            ResourceCall::Release => Call::Release { key, resource },
        }
    }
}
