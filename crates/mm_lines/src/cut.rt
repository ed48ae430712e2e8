//! Where bytes are cut.
ghost use Rattle.std.specs.Prelude.{◌≡◌, ◌≤◌, ◌<◌, length, IfNone, IfSome, OnSome};
ghost use Rattle.std.specs.List.{position_or_len, before_first, after_first};
ghost use Rattle.std.specs.Str.Lines.{strip_carriage_return};
ghost use Rattle.mm_lines.specs.Cut.{is, is_not};

use memchr::memchr;

/// Returns what stands before the first such byte and what stands after it, if there is one.
pub fn split_once(byte: u8, bytes: &[u8]) -> Option<(&[u8], &[u8])>
    ensures none { IfNone result (position_or_len (is byte) bytes.now ≡ length bytes.now) }
    ensures some { OnSome result (position_or_len (is byte) bytes.now < length bytes.now) }
    ensures before { IfSome result (λ parts. parts.0.now ≡ before_first (is byte) bytes.now) }
    ensures after { IfSome result (λ parts. parts.1.now ≡ after_first (is byte) bytes.now) }
{
    let (before, rest) = bytes.split_at(memchr(byte, bytes)?);
    Some((before, rest.split_at(1).1))
}

/// Returns the index of the first other byte, or the length if there is none.
pub(crate) fn index_of_other(byte: u8, bytes: &[u8]) -> usize
    ensures index { result ≡ position_or_len (is_not byte) bytes.now }
    ensures in_range { result ≤ length bytes.now }
{
    for (i, &other) in bytes.iter().enumerate() {
        if other != byte {
            return i;
        }
    }
    bytes.len()
}

/// Returns the line without the one carriage return at its end, if it has one.
pub fn without_carriage_return(line: &[u8]) -> &[u8]
    ensures { result.now ≡ strip_carriage_return line.now }
{
    match line {
        [front @ .., b'\r'] => front,
        _ => line,
    }
}
