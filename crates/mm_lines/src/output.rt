//! The replies that are not yet written, and how they are written. At a fault some of them are lost.
ghost use Rattle.std.specs.Prelude.{◌≡◌, ◌+◌, ◌≤◌, ◌++◌, List, ℕ, [], length, codes, decimal, OnOk, IsOkUnless};
ghost use Rattle.arrayvec.specs.ArrayVec.{array_vec_len};
ghost use Rattle.mm_arena.specs.Key.{key_text};
ghost use Rattle.mm_lines.specs.Output.{Prints, Writes};

use crate::Fault;
use arrayvec::ArrayVec;
use itoa::Buffer;
use mm_arena::Key;
use std::io::Write;

/// How many bytes the replies that are not yet written may have.
pub const OUTPUT_LEN: usize = 32768;

/// Replies that are not yet written.
pub type Output = ArrayVec<u8, OUTPUT_LEN>;

/// Writes all replies.
pub fn write_output<W: Write>(output: &mut Output, writer: &mut W) -> Result<(), Fault>
    ensures written { (lost : List ℕ) × Writes (W.contents writer.old) (W.contents writer.new) output.old.items lost
        × OnOk result (lost ≡ []) }
    ensures fault { IsOkUnless result Fault.Write }
    ensures output { OnOk result (output.new.items ≡ []) }
{
    write_all(writer, output.as_slice())?;
    output.clear();
    Ok(())
}

/// Writes all replies and flushes.
pub(crate) fn flush_output<W: Write>(output: &mut Output, writer: &mut W) -> Result<(), Fault>
    ensures written { (lost : List ℕ) × Writes (W.contents writer.old) (W.contents writer.new) output.old.items lost
        × OnOk result (lost ≡ []) }
    ensures fault { IsOkUnless result Fault.Write }
{
    write_output(output, writer)?;
    match writer.flush() {
        Ok(()) => Ok(()),
        Err(_) => Err(Fault::Write),
    }
}

/// Writes all replies if there may be no room for this many bytes more.
pub fn make_room<W: Write>(output: &mut Output, room: usize, writer: &mut W) -> Result<(), Fault>
    requires { room ≤ OUTPUT_LEN }
    ensures written { (lost : List ℕ) × Writes (W.contents writer.old) (W.contents writer.new) output.old.items lost
        × OnOk result (lost ≡ output.new.items) }
    ensures fault { IsOkUnless result Fault.Write }
    ensures room { OnOk result (array_vec_len output.new + room ≤ OUTPUT_LEN) }
{
    if output.remaining_capacity() < room {
        return write_output(output, writer);
    }
    Ok(())
}

fn write_all<W: Write>(writer: &mut W, bytes: &[u8]) -> Result<(), Fault>
    ensures written { (lost : List ℕ) × Writes (W.contents writer.old) (W.contents writer.new) bytes.now lost
        × OnOk result (lost ≡ []) }
    ensures fault { IsOkUnless result Fault.Write }
{
    let mut rest = bytes;
    while !rest.is_empty() {
        match writer.write(rest) {
            Ok(0) => return Err(Fault::Write),
            Ok(count) => rest = rest.split_at(count).1,
            Err(_) => return Err(Fault::Write),
        }
    }
    Ok(())
}

/// Adds a text, for which there is room.
pub fn print_text(output: &mut Output, text: &[u8])
    requires { array_vec_len output.old + length text.now ≤ OUTPUT_LEN }
    ensures { output.new.items ≡ output.old.items ++ text.now }
{
    let _fits = output.try_extend_from_slice(text);
}

/// Adds a text and a number, in decimal digits.
pub fn print_number(output: &mut Output, before: &[u8], number: u64)
    requires { array_vec_len output.old + length before.now + 20 ≤ OUTPUT_LEN }
    ensures { Prints output.old.items (before.now ++ decimal number) (length before.now + 20) output.new.items }
{
    print_text(output, before);
    print_text(output, Buffer::new().format(number).as_bytes());
}

/// Adds a text and a key.
pub fn print_key(output: &mut Output, before: &[u8], key: Key)
    requires { array_vec_len output.old + length before.now + 41 ≤ OUTPUT_LEN }
    ensures { Prints output.old.items (before.now ++ key_text key) (length before.now + 41) output.new.items }
{
    print_number(output, before, u64::from(key.process));
    print_number(output, b".", u64::from(key.generation));
}
