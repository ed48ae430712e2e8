//! Scripts: lines that call a table, and the replies to them, from any reader to any writer. It has no threads.
//!
//! - `line`: what a line is.
//! - `forms`: the calls that a line can make: a word, and what follows it.
//! - `reason`: why a line is malformed.
//! - `calls`: makes a call of the table that stands, if one does.
//! - `reply`: replies, and how they are printed.
//! - `script`: a script as far as it is answered.
//!
//! Lines are read and cut, and replies written, by `serve` of `mm_lines`.
#![tactic(auto)]

ghost use Rattle.std.specs.Prelude.{◌≤◌, ℕ, List, length, OnOk};
ghost use Rattle.std.specs.Io.KnownBytes.{Appends, Consumes, IsAtEnd};
ghost use Rattle.mm_script.specs.Script.{Ends};

mod calls;
mod forms;
mod line;
mod reason;
mod reply;
mod script;

pub use calls::make;
pub use line::{Call, Header, Line, line_of};
pub use mm_lines::Fault as ScriptFault;
use mm_lines::serve;
pub use reason::{LineFault, line_fault};
pub use reply::{MAX_REPLY, Reply, print_reply};
use script::Script;
use std::alloc::Global;
use std::io::{Read, Write};

/// The longest line in bytes, as `Limits` of mm_lines counts them.
pub const MAX_LINE: usize = 128;

/// A script has at most this many bytes: 16 MiB.
pub const INPUT_LIMIT: usize = 16_777_216;

/// Reads a script to the reader's end, writes one reply for each call and each malformed line, in their order, and returns how many
/// lines are malformed. A script has at most 16,777,216 bytes.
///
/// The replies to the lines of a piece of input are written before the next read, and the writer is flushed once, at the end.
/// After a fault nothing is read or written:
///
/// - `Read`: a read failed. The replies to all lines whose newline was read are written.
/// - `TooLong`: one byte past the limit was read. The replies to the lines whose newline is within the limit are written.
/// - `Write`: a write or the flush failed, or a write took no byte. A part of the replies from the front on is written.
///
/// O(bytes) time beside that of the table's calls. Only `table` and `table2` allocate; input and replies take about 100 KiB of the stack.
pub fn run_script<R: Read, W: Write>(
    alloc: Global,
    reader: &mut R,
    writer: &mut W,
) -> Result<u64, ScriptFault>
    ensures ends { (read : List ℕ) × (written : List ℕ) × Consumes (R.remaining reader.old) (R.remaining reader.new) read
        × Appends (W.contents writer.old) (W.contents writer.new) written × Ends result read written }
    ensures end { OnOk result (IsAtEnd (R.remaining reader.new)) }
    ensures limit { (read : List ℕ) × Consumes (R.remaining reader.old) (R.remaining reader.new) read × (length read ≤ 16777217) }
{
    let mut script = Script::new(alloc);
    let outcome = serve(&mut script, reader, writer);
    // The proof is short if the script, with its table, is dropped by a call.
    drop(script);
    outcome
}
