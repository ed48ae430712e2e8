//! The request that the words of a line make.
ghost use Rattle.std.specs.Prelude.{◌≡◌, ◌&&◌, nat_le, length, drop, option_map, option_copied, []};
ghost use Rattle.std.specs.List.{list_all};
ghost use Rattle.mm_lines.specs.WordsLeft.{words_left, first_spells};
ghost use Rattle.mm_service.specs.Forms.{request_by, request_of, is_name_byte, name_of_word};
ghost use Rattle.mm_service.specs.private.Forms.{asked_for, name_if_any, request_before};

use crate::line::{Asked, Request};
use crate::reply::MAX_NAME;
use crate::requests::{Form, form_of};
use mm_lines::Words;

/// Returns the request that a word makes with these arguments.
pub fn request_of<'a>(word: &[u8], arguments: &mut Words<'a>) -> Option<Asked<'a>>
    ensures { option_map asked_for result ≡ request_of word.now (words_left arguments.old) }
{
    request_by(form_of(word)?, arguments)
}

/// Returns the request that a form makes with these arguments.
fn request_by<'a>(form: Form, arguments: &mut Words<'a>) -> Option<Asked<'a>>
    ensures { option_map asked_for result ≡ request_by form (words_left arguments.old) }
{
    let asked = read(form, arguments)?;
    arguments.next().is_none().then_some(asked)
}

/// Returns the request that the arguments at the front make, if no others are left.
fn read<'a>(form: Form, arguments: &mut Words<'a>) -> Option<Asked<'a>>
    ensures { request_by form (words_left arguments.old) ≡ request_before (option_map asked_for result) (words_left arguments.new) }
{
    match form {
        Form::Begin => Some(nameless(Request::Begin)),
        Form::Graph => Some(nameless(Request::Graph)),
        Form::Totals => Some(nameless(Request::Totals)),
        Form::Key(request) => {
            let key = arguments.next_key()?;
            Some(nameless(Request::OfKey(request, key)))
        }
        Form::Holds => {
            let key = arguments.next_key()?;
            let name = next_name_if_any(arguments)?;
            Some(Asked {
                request: Request::Holds(key),
                name,
            })
        }
        Form::KeyAndName(request) => {
            let key = arguments.next_key()?;
            let name = next_name(arguments)?;
            Some(Asked {
                request: Request::OfName(request, key),
                name,
            })
        }
        Form::Owner => {
            let name = next_name(arguments)?;
            Some(Asked {
                request: Request::Owner,
                name,
            })
        }
    }
}

/// Returns a request that is about no name.
fn nameless(request: Request) -> Asked<'static>
    ensures { asked_for result ≡ record { request = request; name = [] } }
{
    Asked { request, name: &[] }
}

/// Returns the name that the next word is, if there is a word.
fn next_name<'a>(arguments: &mut Words<'a>) -> Option<&'a [u8]>
    ensures taken { option_copied result ≡ first_spells name_of_word (words_left arguments.old) }
    ensures left { words_left arguments.new ≡ drop 1 (words_left arguments.old) }
{
    let word = arguments.next()?;
    is_name(word).then_some(word)
}

/// Returns the name that the next word is, or no bytes if there is no word.
fn next_name_if_any<'a>(arguments: &mut Words<'a>) -> Option<&'a [u8]>
    ensures taken { option_copied result ≡ name_if_any (words_left arguments.old) }
    ensures left { words_left arguments.new ≡ drop 1 (words_left arguments.old) }
{
    match arguments.next() {
        Some(word) => is_name(word).then_some(word),
        None => Some(&[]),
    }
}

/// Returns whether a word can be a name.
pub fn is_name(word: &[u8]) -> bool
    ensures { result ≡ (nat_le (length word.now) MAX_NAME && list_all is_name_byte word.now) }
{
    word.len() <= MAX_NAME && are_name_bytes(word)
}

fn are_name_bytes(word: &[u8]) -> bool
    ensures { result ≡ list_all is_name_byte word.now }
{
    word.iter().all(|&byte| is_name_byte(byte))
}

/// Returns whether a name may have this byte: from `!` to `~`, or 80 (hexadecimal) and above.
fn is_name_byte(byte: u8) -> bool
    ensures { result ≡ is_name_byte byte }
{
    matches!(byte, b'!'..=b'~' | 0x80..)
}
