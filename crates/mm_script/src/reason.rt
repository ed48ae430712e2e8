//! Why a line is malformed.
ghost use Rattle.std.specs.Prelude.{◌≡◌, is_some};
ghost use Rattle.mm_script.specs.Line.{is_malformed, line_of};

use super::MAX_LINE;
use super::forms::{Form, usage_of};
use super::line::{Line, line_of};
use mm_lines::{Words, without_carriage_return};
use thiserror::Error;

/// Why a line is malformed, for a person.
#[derive(Clone, Copy, Debug, PartialEq, Eq, Error)]
pub enum LineFault {
    #[error("the line has more than {max} bytes", max = MAX_LINE)]
    TooLong,
    #[error("no call has this word")]
    Word,
    /// Behind the word of the call stand more or fewer words than it wants.
    #[error("{word} wants {wanted} after it, but has {given}")]
    Count {
        word: &'static str,
        wanted: &'static str,
        given: usize,
    },
    #[error("K is not two numbers from 0 to 4294967295 with a dot between them")]
    Key,
    /// The argument of this name is no whole number in this range.
    #[error("{name} is not a whole number from 0 to {most}")]
    Number {
        name: &'static str,
        most: u64,
    },
}

/// The greatest number that a process, a resource or a generation limit can be in a line.
const MOST: u64 = u32::MAX as u64;

/// The numbers of a table but the last, each with the greatest that it can be.
static TABLE_NUMBERS: [(&str, u64); 3] = [("P", MOST), ("R", MOST), ("L", u64::MAX)];

/// Returns why the line is malformed, or `None` if it is not; a line has no newline here. It takes no memory; `O(bytes)`.
///
/// If more than one thing is at fault, no clause says which is returned: it is the first of the length, the word, the count of
/// arguments, and the arguments from left to right.
pub fn line_fault(line: &[u8]) -> Option<LineFault>
    ensures { is_some result ≡ is_malformed (line_of line.now) }
{
    match line_of(line) {
        Line::Malformed => Some(reason(line)),
        Line::Silent => None,
        Line::Call(_) => None,
    }
}

/// Returns what is wrong with a malformed line.
fn reason(line: &[u8]) -> LineFault {
    if line.len() > MAX_LINE {
        return LineFault::TooLong;
    }
    let line = without_carriage_return(line);
    let Some(word) = Words::new(line).next() else {
        return LineFault::Word;
    };
    match usage_of(word) {
        Some((word, form)) => call_fault(word, form, line),
        None => LineFault::Word,
    }
}

/// Returns what is wrong with a malformed line that begins with the word of this call.
fn call_fault(word: &'static str, form: Form, line: &[u8]) -> LineFault {
    let given = count(arguments_of(line));
    let (count, wanted) = form.wanted();
    if given != count {
        return LineFault::Count {
            word,
            wanted,
            given,
        };
    }
    argument_fault(form, &mut arguments_of(line))
}

/// Returns the words after the first.
fn arguments_of(line: &[u8]) -> Words<'_> {
    let mut words = Words::new(line);
    let _word = words.next();
    words
}

fn count(words: Words<'_>) -> usize {
    let mut count = 0usize;
    for _word in words {
        count = count.saturating_add(1);
    }
    count
}

/// Returns what is wrong with the arguments, if there are as many as the call wants.
fn argument_fault(form: Form, arguments: &mut Words<'_>) -> LineFault {
    const RESOURCE: LineFault = LineFault::Number {
        name: "r",
        most: MOST,
    };
    match form {
        Form::Table(_) => table_fault(arguments),
        // A call without arguments is malformed by their count alone.
        Form::Alone(_) | Form::Key(_) => LineFault::Key,
        Form::KeyAndResource(_) if arguments.next_key().is_none() => LineFault::Key,
        Form::KeyAndResource(_) | Form::Owner => RESOURCE,
    }
}

/// Returns what is wrong with the numbers of a table.
fn table_fault(arguments: &mut Words<'_>) -> LineFault {
    for &(name, most) in &TABLE_NUMBERS {
        match arguments.next_number64() {
            Some(number) if number <= most => {}
            _ => return LineFault::Number { name, most },
        }
    }
    LineFault::Number {
        name: "G",
        most: MOST,
    }
}
