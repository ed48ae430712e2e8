//! Who loads labels and holders.
ghost use Rattle.std.specs.Prelude.{◌≡◌, ◌<◌, length, IfSome, IsTrue};
ghost use Rattle.mm_label.specs.Label.{label_le};
ghost use Rattle.mm_board.specs.Views.{label_at, with_seen, new_seen, IsAnother};

use crate::board::Board;
use crate::holder;
use crate::rule::Name;
use crate::steps::{LoadsHolder, LoadsLabel, Splits};
use crate::views::View;
use atomic_table::Seat;
use mm_label::Label;
use std::marker::{Model, PhantomData};

/// One that loads. A contract sees what it has seen: of each process a label, and how many labels it has loaded.
///
/// It takes no memory. A thread needs one of its own, which `split` makes.
#[derive(Drop)]
pub struct Reader<N: Name> {
    pub(crate) seat: Seat<(), View>,
    pub(crate) of: PhantomData<N>,
}

impl<N: Name> Model for Reader<N> {
    ghost use Rattle.mm_board.specs.declared.views.Seen.{Seen};
    ghost use Rattle.mm_board.specs.Steps.{seen_of};
    ghost use Rattle.mm_board.specs.private.Seats.{IsReaderOf};

    ghost Value = { Seen };

    ghost view = { λ r. seen_of r.seat.me.0 };

    ghost invariant = { λ r. IsReaderOf N.board r.seat.table_id r.seat.me };
}

impl<N: Name> Reader<N> {
    /// Loads the label of a process, which is one that the publisher stored there, or the opening label. It is not below the one that
    /// this reader had seen. Constant time: one load.
    #[inline]
    pub fn read_label(&mut self, board: &Board<N>, process: u32) -> Label
        requires { process < board.now }
        ensures seen { self.new ≡ with_seen self.old process result }
        ensures label { result ≡ label_at self.new.labels process }
        ensures rises { IsTrue (label_le (label_at self.old.labels process) result) }
    {
        let word = board
            .table
            .shared
            .load::<LoadsLabel>(&mut self.seat, process as usize);
        Label::of_word(word)
    }

    /// Loads the holder of a process: none, or another process of the board. Constant time: one load.
    #[inline]
    pub fn read_holder(&mut self, board: &Board<N>, process: u32) -> Option<u32>
        requires { process < board.now }
        ensures holder { IfSome result (λ holder. IsAnother board.now process holder) }
        ensures same { self.new ≡ self.old }
    {
        let place = board.processes as usize + process as usize;
        let word = board
            .table
            .shared
            .load::<LoadsHolder>(&mut self.seat, place);
        holder::of_word(word)
    }

    /// Another reader, which has seen the same labels and has loaded none. Constant time: one load.
    pub fn split(&mut self, board: &Board<N>) -> Reader<N>
        ensures new { result ≡ new_seen self.old.labels }
        ensures same { self.new ≡ self.old }
    {
        Reader {
            seat: board.table.shared.split_seat::<Splits>(&mut self.seat),
            of: PhantomData,
        }
    }

    /// Does nothing: a reader has seen a label of each process of its board.
    pub fn fits(&self, board: &Board<N>)
        ensures { length self.now.labels ≡ board.now }
    {
        let _ = &self.seat;
        let _ = &board.processes;
    }
}
