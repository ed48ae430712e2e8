//! The replies of a script, by a writer that may fail in the middle of them. It is flushed once, at the end.

use mm_script::{ScriptFault, run_script};
use std::alloc::Global;
use std::io;
use std::io::{ErrorKind, Write};
use std::process::Abort;

/// What a writer answers.
#[derive(Clone, Copy)]
enum Answers {
    Well,
    /// Each flush fails.
    FlushFails,
    /// Once it has taken this many bytes, each write fails.
    FailsAfter(usize),
    /// Once it has taken this many bytes, a write takes none.
    TakesNoneAfter(usize),
}

/// Keeps what is written, and counts the flushes.
#[derive(Drop)]
struct KeepingWriter {
    taken: Vec<u8>,
    flushes: u32,
    answers: Answers,
}

impl Write for KeepingWriter {
    fn write(&mut self, buf: &[u8]) -> io::Result<usize> {
        let most = match self.answers {
            Answers::FailsAfter(most) | Answers::TakesNoneAfter(most) => most,
            Answers::Well | Answers::FlushFails => usize::MAX,
        };
        let count = most.saturating_sub(self.taken.len()).min(buf.len());
        if count == 0 && matches!(self.answers, Answers::FailsAfter(_)) {
            return Err(io::Error::from(ErrorKind::Other));
        }
        self.taken.extend_from_slice(&buf[..count])?;
        Ok(count)
    }

    fn flush(&mut self) -> io::Result<()> {
        self.flushes = self.flushes.saturating_add(1);
        if matches!(self.answers, Answers::FlushFails) {
            return Err(io::Error::from(ErrorKind::Other));
        }
        Ok(())
    }
}

/// A writer, what is written to it, how often it is flushed, and how the run ends.
type Case = (Answers, &'static str, u32, Result<u64, ScriptFault>);

/// The example of mm_script's page, whose last line is malformed and needs no newline.
const SCRIPT: &str = "table 1 1 9 9\nbegin\nfly";

const REPLIES: &str = "ok\nkey 0.1\nmalformed\n";

static CASES: [Case; 4] = [
    (Answers::Well, REPLIES, 1, Ok(1)),
    (Answers::FlushFails, REPLIES, 1, Err(ScriptFault::Write)),
    (Answers::FailsAfter(4), "ok\nk", 0, Err(ScriptFault::Write)),
    (
        Answers::TakesNoneAfter(3),
        "ok\n",
        0,
        Err(ScriptFault::Write),
    ),
];

/// Ends the test unless this comes of a run.
fn is_written(rt: &impl Abort, alloc: Global, case: &Case) {
    let (answers, replies, flushes, outcome) = *case;
    let mut writer = KeepingWriter {
        taken: Vec::new(alloc),
        flushes: 0,
        answers,
    };
    let came = run_script(alloc, &mut SCRIPT.as_bytes(), &mut writer);
    let is_written = writer.taken.as_slice() == replies.as_bytes();
    assert!(rt; came == outcome && writer.flushes == flushes && is_written);
}

#[test]
fn replies_are_written_and_flushed_once(rt: HostRuntime) {
    for case in &CASES {
        is_written(&rt, rt.alloc(), case);
    }
}
