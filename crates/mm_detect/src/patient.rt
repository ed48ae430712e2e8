//! Standard input and output of the program: a call that cannot be made now is made again.

use std::io::{ErrorKind, IsTerminal, Read, Write};
use std::time::{Clock, Duration};
use std::{io, thread};

/// A stream whose reads and writes are made again if a signal interrupted them. If its descriptor was set not to wait, and has nothing to read
/// or no room to write, they are made again after a pause of 1 ms. All other errors are those of the stream.
#[derive(Drop)]
pub struct Patient<'a, C: Clock, S> {
    clock: &'a C,
    stream: S,
}

impl<'a, C: Clock, S> Patient<'a, C, S> {
    /// Makes the calls of this stream.
    pub fn new(clock: &'a C, stream: S) -> Patient<'a, C, S> {
        Patient { clock, stream }
    }

    /// Returns whether the call that ended so is to be made again, after the pause that it needs.
    fn goes_on(&self, outcome: &io::Result<usize>) -> bool {
        let Err(error) = outcome else {
            return false;
        };
        match error.kind() {
            ErrorKind::Interrupted => true,
            ErrorKind::WouldBlock => {
                thread::sleep(self.clock, Duration::from_millis(1));
                true
            }
            _ => false,
        }
    }
}

impl<C: Clock, S: Read> Read for Patient<'_, C, S> {
    fn read(&mut self, buf: &mut [u8]) -> io::Result<usize> {
        let mut outcome = self.stream.read(buf);
        for _ in 0..u64::MAX {
            if !self.goes_on(&outcome) {
                break;
            }
            outcome = self.stream.read(buf);
        }
        outcome
    }
}

impl<C: Clock, S: Write> Write for Patient<'_, C, S> {
    fn write(&mut self, buf: &[u8]) -> io::Result<usize> {
        let mut outcome = self.stream.write(buf);
        for _ in 0..u64::MAX {
            if !self.goes_on(&outcome) {
                break;
            }
            outcome = self.stream.write(buf);
        }
        outcome
    }

    fn flush(&mut self) -> io::Result<()> {
        self.stream.flush()
    }
}

impl<C: Clock, S: IsTerminal> IsTerminal for Patient<'_, C, S> {
    fn is_terminal(&self) -> bool {
        self.stream.is_terminal()
    }
}
