//! The bytes that are read and not yet answered.
ghost use Rattle.std.specs.Prelude.{◌≡◌, ◌+◌, ◌≤◌, ◌<◌, length, take, drop, IfOk, IsOkUnless, OnErr, IsTrue, ◌↔◌};
ghost use Rattle.std.specs.Io.KnownBytes.{Keeps};
ghost use Rattle.arrayvec.specs.ArrayVec.{array_vec_len};
ghost use Rattle.mm_lines.specs.Input.{unread, without_front, AreLimits, Reads};

use crate::Fault;
use arrayvec::ArrayVec;
use std::io::Read;
use std::marker::Model;

/// The most bytes that are held. A read returns at most this many.
const INPUT_LEN: usize = 32768;

/// How many bytes may be read.
#[derive(Clone, Copy, Debug, PartialEq, Eq)]
pub struct Limits {
    /// The whole input has at most this many bytes.
    pub input: usize,
    /// The longest line has this many bytes, at most 32,766, without its newline. A carriage return at its end counts here. Whether it counts
    /// where a language limits its lines, the language says: it does in a script, and not in a request of the lock service.
    pub line: usize,
}

/// The bytes within the limit that were read and belong to no answered line yet. A contract sees an `InputState`.
#[derive(Drop)]
pub struct Input {
    bytes: ArrayVec<u8, INPUT_LEN>,
    /// Where those that are held begin.
    start: usize,
    /// How many bytes were read in all.
    taken: usize,
    limits: Limits,
}

impl Model for Input {
    ghost use Rattle.std.specs.Prelude.{length, drop};
    ghost use Rattle.mm_lines.specs.Input.{InputState, IsWithin};

    ghost Value = { InputState };

    ghost view = { λ input. record { held = drop input.start input.bytes.items; taken = input.taken; limits = input.limits } };

    ghost invariant = { λ input. IsWithin input.start (length input.bytes.items) input.limits };
}

impl Input {
    /// No byte is read yet.
    pub fn new(limits: Limits) -> Self
        requires { AreLimits limits }
        ensures { result ≡ unread limits }
    {
        Input {
            bytes: ArrayVec::new(),
            start: 0,
            taken: 0,
            limits,
        }
    }

    /// Returns the bytes that are held.
    pub fn held(&self) -> &[u8]
        ensures { result.now ≡ self.now.held }
    {
        self.bytes.as_slice().split_at(self.start).1
    }

    /// Returns whether a byte past the limit was read.
    pub fn is_past_limit(&self) -> bool
        ensures { IsTrue result ↔ (self.now.limits.input < self.now.taken) }
    {
        self.taken > self.limits.input
    }

    /// Reads once, at most one byte past the limit, and returns whether a byte came. A byte past the limit is not held. Call it if no
    /// whole line is held: of the open line at most one byte more stays held than the longest line has.
    pub fn read<R: Read>(&mut self, reader: &mut R) -> Result<bool, Fault>
        requires { self.old.taken ≤ self.old.limits.input }
        ensures ok { IfOk result (Reads (R.remaining reader.old) (R.remaining reader.new) self.old self.new) }
        ensures fault { IsOkUnless result Fault.Read }
        ensures err { OnErr result (Keeps (R.remaining reader.old) (R.remaining reader.new)) }
    {
        let open = (self.bytes.len() - self.start).min(self.limits.line + 1);
        keep(&mut self.bytes, self.start, open);
        self.start = 0;
        let mut piece = [0; INPUT_LEN];
        let left = self.limits.input - self.taken;
        let most = self.bytes.remaining_capacity().min(left + 1);
        match reader.read(&mut piece[..most]) {
            Ok(count) => {
                let _fits = self.bytes.try_extend_from_slice(&piece[..count.min(left)]);
                self.taken += count;
                Ok(count > 0)
            }
            Err(_) => Err(Fault::Read),
        }
    }

    /// Removes `count` bytes at the front.
    pub fn drop_front(&mut self, count: usize)
        requires { count ≤ length self.old.held }
        ensures { self.new ≡ without_front self.old count }
    {
        self.start += count;
    }
}

/// Keeps the `len` bytes from `start` on.
fn keep(bytes: &mut ArrayVec<u8, INPUT_LEN>, start: usize, len: usize)
    requires { start + len ≤ array_vec_len bytes.old }
    ensures { bytes.new.items ≡ take len (drop start bytes.old.items) }
{
    bytes.as_mut_slice().copy_within(start..start + len, 0);
    bytes.truncate(len);
}
