//! Reads lines, has them answered, and writes the replies.
ghost use Rattle.std.specs.Prelude.{◌≡◌, ℕ, ◌+◌, ◌≤◌, ◌++◌, true, if◌then◌else◌, List, [], OnOk, IfOk, IsOkUnless};
ghost use Rattle.std.specs.Io.KnownBytes.{Appends, Consumes, IsAtEnd};
ghost use Rattle.arrayvec.specs.ArrayVec.{array_vec_len};
ghost use Rattle.mm_lines.specs.declared.input.Limits.{Limits};
ghost use Rattle.mm_lines.specs.Input.{unread, AreLimits};
ghost use Rattle.mm_lines.specs.Lines.{lines_of, IsOpen};
ghost use Rattle.mm_lines.specs.Output.{Writes};
ghost use Rattle.mm_lines.specs.Text.{AreAlike, Ends, Text};

use crate::cut::split_once;
use crate::output::{OUTPUT_LEN, Output, flush_output, make_room, write_output};
use crate::{Fault, Input, Limits};
use std::io::{Read, Write};

/// What answers lines, one after another. What it keeps between them is the state from which it answers.
pub trait Answerer {
    /// `answers s line reply malformed t`: from the state s a line is answered by this reply, to the state t; `malformed` is 1 if it is
    /// malformed, and else 0.
    ghost answers: { Self → List ℕ → List ℕ → ℕ → Self → Type 0 };

    ghost LIMITS: { Limits };

    /// How many bytes all lines have at most, and how many the longest line: those that have more are all answered alike.
    const LIMITS: Limits;

    ghost ROOM: { ℕ };

    /// Before each answer there is room for this many bytes.
    const ROOM: usize;

    /// Answers a line, which has no newline, and returns whether it is malformed. If there is no room for all of the reply it writes a
    /// part. At a fault a part of the reply, and of those before it, is lost.
    fn answer<W: Write>(
        &mut self,
        line: &[u8],
        output: &mut Output,
        writer: &mut W,
    ) -> Result<bool, Fault>
        requires { array_vec_len output.old + ROOM ≤ OUTPUT_LEN }
        ensures answered { (reply : List ℕ) × (one : ℕ) × (lost : List ℕ) × answers self.old line.now reply one self.new
            × Writes (W.contents writer.old) (W.contents writer.new) (output.old.items ++ reply) lost
            × IfOk result (λ malformed. (one ≡ (if malformed then 1 else 0)) × (lost ≡ output.new.items)) }
        ensures fault { IsOkUnless result Fault.Write };

    ghost long: { AreAlike answers (LIMITS.line) };
}

/// Reads lines to the reader's end, has each answered, writes the replies in their order, and returns how many lines are malformed.
///
/// The replies to the lines of a piece of input are written before the next read, and the writer is flushed once, at the end.
/// After a fault nothing is read or written:
///
/// - `Read`: a read failed. The replies to all lines whose newline was read are written.
/// - `TooLong`: one byte past the limit was read. The replies to the lines whose newline is within the limit are written.
/// - `Write`: a write or the flush failed, or a write took no byte. A part of the replies from the front on is written.
///
/// After a fault too the answerer is as the lines that were answered leave it, also if their replies are lost.
///
/// O(bytes) time beside that of the answers. It takes no memory; input and replies take about 100 KiB of the stack.
pub fn serve<A: Answerer, R: Read, W: Write>(
    answerer: &mut A,
    reader: &mut R,
    writer: &mut W,
) -> Result<u64, Fault>
    requires limits { AreLimits A.LIMITS }
    requires room { A.ROOM ≤ OUTPUT_LEN }
    ensures ends { (read : List ℕ) × (written : List ℕ) × Consumes (R.remaining reader.old) (R.remaining reader.new) read
        × Appends (W.contents writer.old) (W.contents writer.new) written × Ends A.answers A.LIMITS.input answerer.old result read written answerer.new }
    ensures end { OnOk result (IsAtEnd (R.remaining reader.new)) }
{
    let mut input = Input::new(A::LIMITS);
    let mut output = Output::new();
    serve_all(&mut input, &mut output, answerer, reader, writer)
}

/// Reads and answers lines from the first byte on.
fn serve_all<A: Answerer, R: Read, W: Write>(
    input: &mut Input,
    output: &mut Output,
    answerer: &mut A,
    reader: &mut R,
    writer: &mut W,
) -> Result<u64, Fault>
    requires limits { AreLimits A.LIMITS }
    requires room { A.ROOM ≤ OUTPUT_LEN }
    requires input { input.old ≡ unread A.LIMITS }
    requires output { output.old.items ≡ [] }
    ensures ends { (read : List ℕ) × (written : List ℕ) × Consumes (R.remaining reader.old) (R.remaining reader.new) read
        × Appends (W.contents writer.old) (W.contents writer.new) written × Ends A.answers A.LIMITS.input answerer.old result read written answerer.new }
    ensures end { OnOk result (IsAtEnd (R.remaining reader.new)) }
{
    let mut malformed = 0;
    while input.read(reader)? {
        while let Some((line, _)) = split_once(b'\n', input.held()) {
            let len = line.len();
            make_room(output, A::ROOM, writer)?;
            malformed += u64::from(answerer.answer(line, output, writer)?);
            input.drop_front(len + 1);
        }
        write_output(output, writer)?;
        if input.is_past_limit() {
            return Err(Fault::TooLong);
        }
    }
    malformed += u64::from(answer_open(answerer, input.held(), output, writer)?);
    flush_output(output, writer)?;
    Ok(malformed)
}

/// Answers the line that no newline ends, unless it is empty, and returns whether it is malformed.
fn answer_open<A: Answerer, W: Write>(
    answerer: &mut A,
    line: &[u8],
    output: &mut Output,
    writer: &mut W,
) -> Result<bool, Fault>
    requires room { array_vec_len output.old + A.ROOM ≤ OUTPUT_LEN }
    requires open { IsOpen line.now }
    ensures answered { (reply : List ℕ) × (one : ℕ) × (lost : List ℕ) × Text A.answers true answerer.old (lines_of line.now) reply one answerer.new
        × Writes (W.contents writer.old) (W.contents writer.new) (output.old.items ++ reply) lost
        × IfOk result (λ malformed. (one ≡ (if malformed then 1 else 0)) × (lost ≡ output.new.items)) }
    ensures fault { IsOkUnless result Fault.Write }
{
    if line.is_empty() {
        return Ok(false);
    }
    answerer.answer(line, output, writer)
}
