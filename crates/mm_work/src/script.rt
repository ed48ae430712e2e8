//! Runs of scripts. In a run for a person standard error has the number of each malformed line, and what is wrong with it. If that cannot
//! be written, it is left out, and the run goes on.

use arrayvec::ArrayVec;
use mm_script::{INPUT_LIMIT, MAX_LINE, ScriptFault, line_fault, run_script};
use std::alloc::Global;
use std::fmt::Display;
use std::io;
use std::io::{Eprint, Read, Write};

/// How many bytes of a line are kept: one more than a line may have, so that a longer one is told from one of the greatest length.
const KEPT: usize = MAX_LINE + 1;

/// Runs a script. In a call of its own, since its input and replies take about 100 KiB of the stack, which other requests do not need.
#[inline(never)]
pub fn run_plain_script<I: Read, W: Write>(
    alloc: Global,
    reader: &mut I,
    writer: &mut W,
) -> Result<u64, ScriptFault> {
    run_script(alloc, reader, writer)
}

/// Runs a script as `run_script` does, and tells of each malformed line before the replies to the piece of input that ends it are written.
#[inline(never)]
pub fn run_verbose_script<R: Eprint, I: Read, W: Write>(
    rt: &R,
    alloc: Global,
    reader: &mut I,
    writer: &mut W,
) -> Result<u64, ScriptFault> {
    let mut script = VerboseReader {
        rt,
        reader,
        line: ArrayVec::new(),
        ended: 0,
        taken: 0,
    };
    let outcome = run_script(alloc, &mut script, writer);
    if let Err(ScriptFault::TooLong) = outcome {
        script.tell(&format_args!("the script has more than {INPUT_LIMIT} bytes"));
    }
    outcome
}

/// A reader that looks at the lines that it reads.
#[derive(Drop)]
struct VerboseReader<'a, R: Eprint, I: Read> {
    rt: &'a R,
    reader: &'a mut I,
    /// The line that no newline has ended yet, or the front of it.
    line: ArrayVec<u8, KEPT>,
    /// How many lines have ended.
    ended: u64,
    /// How many bytes were read.
    taken: usize,
}

impl<'a, R: Eprint, I: Read> Read for VerboseReader<'a, R, I> {
    fn read(&mut self, buf: &mut [u8]) -> io::Result<usize> {
        match self.reader.read(buf) {
            Ok(count) => {
                self.look_at(&buf[..count]);
                Ok(count)
            }
            Err(error) => {
                self.tell(&error);
                Err(error)
            }
        }
    }
}

impl<'a, R: Eprint, I: Read> VerboseReader<'a, R, I> {
    /// Looks at the bytes of a read, but at none past the limit of a script. No bytes end the last line.
    fn look_at(&mut self, piece: &[u8]) {
        if piece.is_empty() && !self.line.is_empty() {
            self.end_line();
        }
        let within = piece.len().min(INPUT_LIMIT.saturating_sub(self.taken));
        self.taken = self.taken.saturating_add(piece.len());
        for &byte in &piece[..within] {
            if byte == b'\n' {
                self.end_line();
            } else {
                // Of a line that is too long only the front is kept.
                let _ = self.line.try_push(byte);
            }
        }
    }

    /// Ends the line, and tells what is wrong with it.
    fn end_line(&mut self) {
        if let Some(fault) = line_fault(self.line.as_slice()) {
            self.tell(&fault);
        }
        self.ended = self.ended.saturating_add(1);
        self.line.clear();
    }

    /// Tells this of the line that no newline has ended yet.
    fn tell(&self, text: &impl Display) {
        let line = self.ended.saturating_add(1);
        let _ = eprintln!(self.rt; "line {line}: {text}");
    }
}
