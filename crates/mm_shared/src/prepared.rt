//! A shared table before it has its names.
ghost use Rattle.std.specs.Prelude.{◌≡◌, ◌≤◌, Ok, Err, IfOk, IfErr, vec_capacity};
ghost use Rattle.mm_board.specs.Views.{opening_labels, processes_of};
ghost use Rattle.mm_rules.specs.TableState.{opening};
ghost use Rattle.mm_rules.specs.Event.{Opens};
ghost use Rattle.mm_counts.specs.Shares.{all_parts, empty_shares};

use crate::inside::Inside;
use crate::pass::{ALL_PARTS, Pass};
use crate::shared::SharedTable;
use mm_board::{Name, RawBoard};
use mm_table::{Config, Refusal, Table};
use std::alloc::Global;
use std::sync::ledger::{Blank, Ledger};

/// A table that was just opened, its board, and three ledgers, which no type names yet.
#[derive(Drop)]
pub struct Prepared {
    table: Table,
    board: RawBoard,
    changed: Vec<u32>,
    processes: u32,
    accepted: Blank,
    verdicts: Blank,
    aborts: Blank,
    ghost opened: { table ≡ opening table.config },
    ghost sized: { processes ≡ table.config.processes },
    ghost as_many: { processes_of board ≡ processes },
    ghost room: { processes ≤ vec_capacity changed },
    ghost whole: { (accepted.parts ≡ all_parts) × (verdicts.parts ≡ all_parts) × (aborts.parts ≡ all_parts) },
}

impl Prepared {
    /// Opens a table of this configuration, which has no transaction, and in which no resource has an owner.
    ///
    /// Refused as `BadConfig` or `Memory`, as `Table::open` is. This is the one call of this crate that takes memory: for the table, for
    /// the board, and for a list of the processes that an event changed.
    pub fn new(alloc: Global, config: Config) -> Result<Prepared, Refusal>
        ensures opened { IfOk result (λ prepared. Opens config (Ok prepared.table)) }
        ensures refused { IfErr result (λ refusal. Opens config (Err refusal)) }
    {
        let table = Table::open(alloc, config)?;
        let (board, changed) = board_and_list(alloc, config.processes)?;
        Ok(Prepared::of(table, board, changed, config.processes))
    }

    fn of(table: Table, board: RawBoard, changed: Vec<u32>, processes: u32) -> Prepared
        requires opened { table ≡ opening table.config }
        requires sized { processes ≡ table.config.processes }
        requires as_many { processes_of board ≡ processes }
        requires room { processes ≤ vec_capacity changed }
        ensures { result.table ≡ table }
    {
        Prepared {
            table,
            board,
            changed,
            processes,
            accepted: Blank::new(ALL_PARTS),
            verdicts: Blank::new(ALL_PARTS),
            aborts: Blank::new(ALL_PARTS),
        }
    }

    /// Returns the table under its names, and the pass that has all parts.
    ///
    /// It is called in a function over the four names, which is itself called with `Brand` for each: the caller's proof then picks the
    /// board and the ledgers of this `Prepared`. Constant time.
    pub fn open<N: Name, A: Ledger, V: Ledger, B: Ledger>(
        self,
    ) -> (SharedTable<N, A, V, B>, Pass<N, A, V, B>)
        requires board { self.board ≡ N.board }
        requires accepted { (self.accepted.name ≡ A.name) × (self.accepted.parts ≡ A.parts) }
        requires verdicts { (self.verdicts.name ≡ V.name) × (self.verdicts.parts ≡ V.parts) }
        requires aborts { (self.aborts.name ≡ B.name) × (self.aborts.parts ≡ B.parts) }
        ensures processes { result.0 ≡ self.table.config.processes }
        ensures pass { result.1 ≡ empty_shares all_parts (opening_labels self.table.config.processes) }
    {
        let Prepared {
            table,
            board,
            changed,
            processes,
            accepted,
            verdicts,
            aborts,
        } = self;
        let (board, publisher, reader) = board.open::<N>();
        let (accepted_book, accepted_share) = accepted.open::<A>();
        let (verdict_book, verdict_share) = verdicts.open::<V>();
        let (abort_book, abort_share) = aborts.open::<B>();
        let inside = Inside::new(
            table,
            publisher,
            changed,
            accepted_book,
            verdict_book,
            abort_book,
        );
        let pass = Pass::new(
            reader,
            accepted_share,
            verdict_share,
            abort_share,
            ALL_PARTS,
        );
        (SharedTable::new(board, inside, processes), pass)
    }
}

/// Returns what the board and the list of the changed need, for this many processes.
fn board_and_list(alloc: Global, processes: u32) -> Result<(RawBoard, Vec<u32>), Refusal>
    requires some_processes { 1 ≤ processes }
    requires in_range { processes ≤ Config.MAX_PROCESSES }
    ensures as_many { IfOk result (λ made. processes_of made.0 ≡ processes) }
    ensures room { IfOk result (λ made. processes ≤ vec_capacity made.1) }
    ensures refusal { IfErr result (λ refusal. refusal ≡ Refusal.Memory) }
{
    let Ok(board) = RawBoard::new(alloc, processes) else {
        return Err(Refusal::Memory);
    };
    let Ok(changed) = Vec::with_capacity(alloc, processes as usize) else {
        return Err(Refusal::Memory);
    };
    Ok((board, changed))
}
