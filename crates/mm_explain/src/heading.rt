//! A line of a script with its number and the reply to it.
ghost use Rattle.std.specs.Prelude.{◌≤◌};

use crate::sheet::{Paint, Sheet};
use mm_lines::{OUTPUT_LEN, Output, without_carriage_return};
use mm_script::{Reply, print_reply};

/// Where the line of the script begins.
const LINE_COLUMN: usize = 7;

/// Where the reply begins, unless the line is longer.
const REPLY_COLUMN: usize = 39;

/// How many bytes of a line are shown.
const LINE_SHOWN: usize = 128;

/// The last column of a reply that stands beside the line.
const LAST_COLUMN: usize = 100;

/// Adds the number of a line, the line, and the reply to it, if it has one.
pub fn add_heading(sheet: &mut Sheet, number: u64, line: &[u8], reply: Option<&Reply>) {
    add_number(sheet, number);
    if !line.is_empty() {
        sheet.text("  ");
        add_line(sheet, without_carriage_return(line));
    }
    if let Some(reply) = reply {
        add_reply(sheet, reply);
    }
    sheet.newline();
}

/// Adds a number that ends before the line begins.
fn add_number(sheet: &mut Sheet, number: u64) {
    sheet.fill_to(LINE_COLUMN.saturating_sub(2 + digits_of(number)));
    sheet.paint(Paint::Faint);
    sheet.number(number);
    sheet.paint(Paint::Plain);
}

/// Returns how many digits the number has, or 5 if it has more.
fn digits_of(number: u64) -> usize
    ensures { result ≤ 5 }
{
    match number {
        0..=9 => 1,
        10..=99 => 2,
        100..=999 => 3,
        1000..=9999 => 4,
        _ => 5,
    }
}

/// Adds a line, with a question mark for each control character. The end of a very long one is left out.
fn add_line(sheet: &mut Sheet, line: &[u8]) {
    let (shown, rest) = line.split_at(line.len().min(LINE_SHOWN));
    add_shown(sheet, shown);
    if !rest.is_empty() {
        sheet.text("..");
    }
}

/// The first of the two bytes that a character from U+0080 to U+009F has as UTF-8, as others up to U+00BF do.
const FIRST_OF_TWO: u8 = 0xc2;

/// Adds these bytes, with a question mark for each control character: U+0000 to U+001F, and U+007F to U+009F.
fn add_shown(sheet: &mut Sheet, shown: &[u8]) {
    let mut is_first_held = false;
    for &byte in shown {
        if is_first_held && matches!(byte, 0x80..=0x9f) {
            sheet.text("?");
            is_first_held = false;
            continue;
        }
        if is_first_held {
            sheet.add(&[FIRST_OF_TWO]);
        }
        is_first_held = byte == FIRST_OF_TWO;
        if !is_first_held {
            sheet.add(&[if byte.is_ascii_control() { b'?' } else { byte }]);
        }
    }
    if is_first_held {
        sheet.add(&[FIRST_OF_TWO]);
    }
}

/// Adds a reply beside the line, or below it if it does not fit there.
fn add_reply(sheet: &mut Sheet, reply: &Reply) {
    let mut output = Output::new();
    print_reply(&mut output, reply);
    let text = match output.as_slice() {
        [text @ .., b'\n'] => text,
        text => text,
    };
    if sheet.column.saturating_add(2 + text.len()) > LAST_COLUMN {
        sheet.newline();
    }
    if sheet.column > REPLY_COLUMN - 2 {
        sheet.text("  ");
    }
    sheet.fill_to(REPLY_COLUMN);
    sheet.paint(paint_of(reply));
    sheet.add(text);
    sheet.paint(Paint::Plain);
}

/// Returns how a reply is shown.
fn paint_of(reply: &Reply) -> Paint {
    match reply {
        Reply::Malformed | Reply::NoTable | Reply::TableStands | Reply::Refused(_) =>
            Paint::Warning,
        _ => Paint::Strong,
    }
}
