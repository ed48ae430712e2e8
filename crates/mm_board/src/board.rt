//! The words of a board, which all threads share.
ghost use Rattle.std.specs.Prelude.{◌≡◌, ◌≤◌, IfOk};
ghost use Rattle.mm_board.specs.Views.{processes_of, opening_published, opening_labels, new_seen};
ghost use Rattle.mm_board.specs.private.Opening.{AreOpening};

use crate::holder;
use crate::publisher::Publisher;
use crate::reader::Reader;
use crate::rule::{BoardRule, Name};
use crate::steps::Shows;
use crate::views::View;
use atomic_table::{Seat, Table};
use mm_arena::Memory;
use mm_label::Label;
use std::alloc::{AllocError, Global};
use std::marker::{Model, PhantomData};

/// A board has at most this many processes.
pub const MAX_PROCESSES: u32 = mm_limits::MAX_PROCESSES;

/// The label words of all processes, and then their holder words. Each split and join loads the first, the label word of process 0.
type Words = Table<(), View, u32, BoardRule, Global>;

/// The words that all threads share. A contract sees the number of processes.
#[derive(Drop)]
pub struct Board<N: Name> {
    pub(crate) table: Words,
    pub(crate) processes: u32,
    of: PhantomData<N>,
}

impl<N: Name> Model for Board<N> {
    ghost use Rattle.std.specs.Prelude.{ℕ};
    ghost use Rattle.mm_board.specs.private.Seats.{IsBoardOf};

    ghost Value = { ℕ };

    ghost view = { λ b. b.processes };

    ghost invariant = { λ b. IsBoardOf N.board b.table.shared.table_id b.processes };
}

impl<N: Name> Board<N> {
    /// Returns how many processes it has. Constant time.
    pub fn processes(&self) -> u32
        ensures { result ≡ self.now }
    {
        self.processes
    }
}

/// A board that has no name yet, and its publisher. A contract sees which board it is.
#[derive(Drop)]
pub struct RawBoard {
    table: Words,
    seat: Seat<(), View>,
    processes: u32,
}

impl Model for RawBoard {
    ghost use Rattle.std.specs.Prelude.{◌≡◌, []};
    ghost use Rattle.atomic_table.specs.Seated.{TableId, table_id_coded};
    ghost use Rattle.mm_board.specs.declared.views.View.TheVariants.{Publishes};
    ghost use Rattle.mm_board.specs.Views.{opening_published};
    ghost use Rattle.mm_board.specs.private.Seats.{IsBoardOf};

    ghost Value = { TableId };

    ghost coded = { table_id_coded };

    ghost view = { λ b. b.table.shared.table_id };

    ghost invariant = { λ b. (b.seat.table_id ≡ b.table.shared.table_id) × IsBoardOf b.table.shared.table_id b.table.shared.table_id b.processes × (b.seat.me ≡ (Publishes (opening_published b.processes), [])) };
}

impl RawBoard {
    /// Returns a board of this many processes, each of which has its opening label, (0, i) of process i, and no holder. `O(processes)`: it takes
    /// 16 bytes a process, and as many again until it returns. No later call takes memory.
    ///
    /// `Err` only if a request for memory was refused.
    pub fn new(alloc: Global, processes: u32) -> Result<RawBoard, Memory>
        requires some_processes { 1 ≤ processes }
        requires processes_in_range { processes ≤ MAX_PROCESSES }
        ensures { IfOk result (λ board. processes_of board ≡ processes) }
    {
        let Ok(words) = opening_words(alloc, processes) else {
            return Err(Memory);
        };
        let Ok((table, seat)) = Table::of_words(alloc, words.as_slice(), &processes) else {
            return Err(Memory);
        };
        Ok(RawBoard {
            table,
            seat,
            processes,
        })
    }

    /// Returns the board under its name `N`, with its publisher and its first reader, which has seen the opening labels. Constant time.
    pub fn open<N: Name>(self) -> (Board<N>, Publisher<N>, Reader<N>)
        requires { self ≡ N.board }
        ensures processes { result.0 ≡ processes_of self }
        ensures publisher { result.1 ≡ opening_published (processes_of self) }
        ensures reader { result.2 ≡ new_seen (opening_labels (processes_of self)) }
    {
        let RawBoard {
            table,
            mut seat,
            processes,
        } = self;
        let first = table.shared.split_seat::<Shows>(&mut seat);
        let board = Board {
            table,
            processes,
            of: PhantomData,
        };
        let publisher = Publisher {
            seat,
            of: PhantomData,
        };
        let reader = Reader {
            seat: first,
            of: PhantomData,
        };
        (board, publisher, reader)
    }
}

/// Returns the words of a new board.
fn opening_words(alloc: Global, processes: u32) -> Result<Vec<u64>, AllocError>
    requires { processes ≤ MAX_PROCESSES }
    ensures { IfOk result (λ words. AreOpening words.items processes) }
{
    let mut words = Vec::with_capacity(alloc, 2 * processes as usize)?;
    for process in 0..processes {
        let Some(label) = Label::new(0, process) else {
            unreachable!()
        };
        words.push_reserved(label.word());
    }
    for _ in 0..processes {
        words.push_reserved(holder::word_of(None));
    }
    Ok(words)
}
