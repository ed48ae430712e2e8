//! `LockService`: what callers open and run.
ghost use Rattle.std.specs.Prelude.{◌≡◌, ◌↔◌, ℕ, List, Err, OnOk, IfOk};
ghost use Rattle.std.specs.Io.KnownBytes.{Appends, Consumes, IsAtEnd};
ghost use Rattle.mm_manager.specs.Opening.{opening_state, IsTransactionsOut, IsNamesOut, IsNameBytesOut};
ghost use Rattle.mm_service.specs.Service.{Ends};

use crate::calls::answer_request;
use crate::holds::Numbers;
use crate::line::{Asked, Line, MAX_LINE, line_of};
use crate::reply::{MAX_NAMED, print_line};
use crate::{ManagerConfig, OpenError, ServiceFault};
use mm_lines::{Answerer, Limits, Output, serve};
use mm_manager::LockManager;
use std::alloc::Global;
use std::io::{Read, Write};
use std::marker::Model;

/// A lock manager that answers requests, one a line. A contract sees the manager.
#[derive(Drop)]
pub struct LockService {
    manager: LockManager,
    numbers: Numbers,
}

impl Model for LockService {
    ghost use Rattle.mm_manager.specs.LockState.{LockState};
    ghost use Rattle.mm_service.specs.Holds.{HasRoom};

    ghost Value = { LockState };

    ghost view = { λ it. it.manager };

    ghost invariant = { λ it. HasRoom it.manager it.numbers };
}

impl LockService {
    /// Returns a service of this configuration: no transaction is live, and nobody owns a name.
    ///
    /// Refused as `LockManager::open` is. This is the one call that takes memory: that of the manager, 4 bytes for each of `config.names`, and
    /// 4 KiB.
    pub fn open(alloc: Global, config: ManagerConfig) -> Result<LockService, OpenError>
        ensures opened { IfOk result (λ service. service ≡ opening_state config) }
        ensures transactions { (result ≡ Err OpenError.Transactions) ↔ IsTransactionsOut config }
        ensures names { (result ≡ Err OpenError.Names) ↔ (¬ IsTransactionsOut config × IsNamesOut config) }
        ensures name_bytes { (result ≡ Err OpenError.NameBytes) ↔ (¬ IsTransactionsOut config × ¬ IsNamesOut config × IsNameBytesOut config) }
    {
        let manager = LockManager::open(alloc, config)?;
        let numbers = Numbers::new(alloc, config.names)?;
        Ok(LockService { manager, numbers })
    }

    /// Reads requests to the reader's end, writes one reply for each request and each malformed line, and a line for each wait that a
    /// request ended, in their order, and returns how many lines are malformed. A later run goes on with the manager as this one left it.
    ///
    /// The replies to the lines of a piece of input are written before the next read, and the writer is flushed once, at the end.
    /// After a fault nothing is read or written:
    ///
    /// - `Read`: a read failed. The replies to all lines whose newline was read are written.
    /// - `TooLong`: a byte past 2 to the 64, less two, was read, which is no case in practice.
    /// - `Write`: a write or the flush failed, or a write took no byte. A part of the replies from the front on is written.
    ///
    /// After a fault too the manager is the one after the lines that were answered, also if their replies are lost.
    ///
    /// O(bytes) time beside that of the manager's calls. It takes no memory; input and replies take about 100 KiB of the stack.
    pub fn run<R: Read, W: Write>(
        &mut self,
        reader: &mut R,
        writer: &mut W,
    ) -> Result<u64, ServiceFault>
        ensures ends { (read : List ℕ) × (written : List ℕ) × Consumes (R.remaining reader.old) (R.remaining reader.new) read
            × Appends (W.contents writer.old) (W.contents writer.new) written × Ends self.old result read written self.new }
        ensures end { OnOk result (IsAtEnd (R.remaining reader.new)) }
    {
        serve(self, reader, writer)
    }
}

impl Answerer for LockService {
    ghost use Rattle.mm_service.specs.Service.{input_limit};
    ghost use Rattle.mm_service.specs.Text.{Answers};
    ghost use Rattle.mm_service.specs.private.Long.{answers_long};

    ghost answers = { Answers };

    ghost LIMITS = { record { input = input_limit; line = 1049 } };

    /// A run reads at most 2 to the 64 bytes, less two. That is no limit in practice: at 10 GB a second it lasts 58 years.
    const LIMITS: Limits = Limits {
        input: usize::MAX - 1,
        line: MAX_LINE,
    };

    ghost ROOM = { 1200 };

    const ROOM: usize = MAX_NAMED;

    fn answer<W: Write>(
        &mut self,
        line: &[u8],
        output: &mut Output,
        writer: &mut W,
    ) -> Result<bool, ServiceFault> {
        let named = line_of(line);
        match named.line {
            Line::Silent => Ok(false),
            Line::Malformed => {
                print_line(output, b"malformed");
                Ok(true)
            }
            Line::Request(request) => {
                self.manager.keeps_laws();
                let asked = Asked {
                    request,
                    name: named.name,
                };
                let outcome = answer_request(
                    &mut self.manager,
                    &mut self.numbers,
                    asked,
                    output,
                    writer,
                );
                self.manager.keeps_laws();
                outcome.and(Ok(false))
            }
        }
    }

    ghost long = { answers_long };
}
