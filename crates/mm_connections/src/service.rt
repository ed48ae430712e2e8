//! `ConnectionService`: what callers open and run.
ghost use Rattle.std.specs.Prelude.{◌≡◌, ◌≤◌, ◌↔◌, ℕ, List, Err, OnOk, IfOk};
ghost use Rattle.std.specs.Io.KnownBytes.{Appends, Consumes, IsAtEnd};
ghost use Rattle.mm_manager.specs.Opening.{IsTransactionsOut, IsNamesOut, IsNameBytesOut};
ghost use Rattle.mm_connections.specs.Service.{Ends, opening_hub};

use crate::begun::Begun;
use crate::counts::Counts;
use crate::line::MAX_LINE;
use crate::served::{MAX_ANSWER, ServedManager};
use crate::{ConnectionOptions, ManagerConfig, OpenError, ServiceFault};
use mm_lines::{Answerer, Limits, Output, serve};
use mm_manager::LockManager;
use mm_service::Numbers;
use std::alloc::Global;
use std::io::{Read, Write};
use std::marker::Model;

/// A lock manager that answers the requests of numbered connections, one a line, and keeps the transactions of each from the others. A contract
/// sees it as a `Hub`: the manager, which connection began each transaction, and how many are live of each.
#[derive(Drop)]
pub struct ConnectionService {
    served: ServedManager,
    numbers: Numbers,
}

impl Model for ConnectionService {
    ghost use Rattle.std.specs.Prelude.{◌≡◌, ◌≤◌, ◌*◌, length};
    ghost use Rattle.mm_service.specs.Holds.{HasRoom};
    ghost use Rattle.mm_connections.specs.Hub.{Hub};
    ghost use Rattle.mm_connections.specs.private.Served.{hub_of};

    ghost Value = { Hub };

    ghost view = { λ it. hub_of it.served };

    ghost invariant = { λ it. (length it.served.begun.lists ≡ it.served.options.connections * 2) × (it.served.manager.table.config.processes ≤ length it.served.begun.spots) × HasRoom it.served.manager it.numbers };
}

impl ConnectionService {
    /// Returns a service of this configuration for the connections below `options.connections`: no transaction is live, and nobody owns a name.
    /// Connection 0 is the operator's.
    ///
    /// Refused as `LockManager::open` is. This is the one call that takes memory: that of the manager, 4 bytes for each of `config.names`, 16
    /// for each transaction that can be live, 12 for each connection, and 4 KiB. It is refused as `Memory` too if there are 2,147,483,648
    /// connections or more.
    pub fn open(
        alloc: Global,
        config: ManagerConfig,
        options: ConnectionOptions,
    ) -> Result<ConnectionService, OpenError>
        ensures opened { IfOk result (λ service. service ≡ opening_hub config options) }
        ensures transactions { (result ≡ Err OpenError.Transactions) ↔ IsTransactionsOut config }
        ensures names { (result ≡ Err OpenError.Names) ↔ (¬ IsTransactionsOut config × IsNamesOut config) }
        ensures name_bytes { (result ≡ Err OpenError.NameBytes) ↔ (¬ IsTransactionsOut config × ¬ IsNamesOut config × IsNameBytesOut config) }
    {
        let manager = LockManager::open(alloc, config)?;
        let numbers = Numbers::new(alloc, config.names)?;
        let begun = Begun::new(alloc, options.connections, config.transactions)?;
        let counts = Counts::new(alloc, options.connections)?;
        Ok(ConnectionService {
            served: ServedManager {
                manager,
                begun,
                counts,
                options,
            },
            numbers,
        })
    }

    /// Reads lines to the reader's end, writes what each is answered, in their order, and returns how many lines are malformed. A later run goes
    /// on with the service as this one left it.
    ///
    /// The answers to the lines of a piece of input are written before the next read, and the writer is flushed once, at the end.
    /// After a fault nothing is read or written:
    ///
    /// - `Read`: a read failed. The answers to all lines whose newline was read are written.
    /// - `TooLong`: a byte past 2 to the 64, less two, was read, which is no case in practice.
    /// - `Write`: a write or the flush failed, or a write took no byte. A part of the answers from the front on is written.
    ///
    /// After a fault too the service is the one after the lines that were answered, also if their answers are lost.
    ///
    /// O(bytes) time beside that of the manager's calls. It takes no memory; input and answers take about 100 KiB of the stack.
    pub fn run<R: Read, W: Write>(
        &mut self,
        reader: &mut R,
        writer: &mut W,
    ) -> Result<u64, ServiceFault>
        ensures ends { (read : List ℕ) × (written : List ℕ) × Consumes (R.remaining reader.old) (R.remaining reader.new) read
            × Appends (W.contents writer.old) (W.contents writer.new) written × Ends self.old result read written self.new }
        ensures end { OnOk result (IsAtEnd (R.remaining reader.new)) }
    {
        serve(self, reader, writer)
    }
}

impl Answerer for ConnectionService {
    ghost use Rattle.mm_connections.specs.Service.{input_limit};
    ghost use Rattle.mm_connections.specs.Text.{Answers};
    ghost use Rattle.mm_connections.specs.private.Long.{answers_long};

    ghost answers = { Answers };

    ghost LIMITS = { record { input = input_limit; line = 1055 } };

    /// A run reads at most 2 to the 64 bytes, less two. That is no limit in practice: at 10 GB a second it lasts 58 years.
    const LIMITS: Limits = Limits {
        input: usize::MAX - 1,
        line: MAX_LINE,
    };

    ghost ROOM = { 1221 };

    const ROOM: usize = MAX_ANSWER;

    fn answer<W: Write>(
        &mut self,
        line: &[u8],
        output: &mut Output,
        writer: &mut W,
    ) -> Result<bool, ServiceFault> {
        self.served.answer(line, &mut self.numbers, output, writer)
    }

    ghost long = { answers_long };
}
