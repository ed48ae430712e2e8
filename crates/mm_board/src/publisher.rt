//! The one who stores labels and holders.
ghost use Rattle.std.specs.Prelude.{◌≡◌, ◌<◌, length, IfSome, IsTrue};
ghost use Rattle.mm_label.specs.Label.{label_le};
ghost use Rattle.mm_board.specs.Views.{current_label, current_labels, current_holder, with_label, with_holder, with_met, new_seen, IsAnother, NoneFalls};

use crate::board::Board;
use crate::holder;
use crate::reader::Reader;
use crate::rule::Name;
use crate::steps::{Looks, Shows, StoresHolder, StoresLabel};
use crate::views::View;
use atomic_table::Seat;
use mm_label::Label;
use std::marker::{Model, PhantomData};
use std::mem;

/// The one that stores. A contract sees what it stored: every label of each process in order, and each holder.
///
/// It takes no memory. Each board has one, so what it knows of the board is what stands there.
#[derive(Drop)]
pub struct Publisher<N: Name> {
    pub(crate) seat: Seat<(), View>,
    pub(crate) of: PhantomData<N>,
}

impl<N: Name> Model for Publisher<N> {
    ghost use Rattle.mm_board.specs.declared.views.Published.{Published};
    ghost use Rattle.mm_board.specs.Steps.{published_of};
    ghost use Rattle.mm_board.specs.private.Seats.{IsPublisherOf};

    ghost Value = { Published };

    ghost view = { λ p. published_of p.seat.me.0 };

    ghost invariant = { λ p. IsPublisherOf N.board p.seat.table_id p.seat.me };
}

impl<N: Name> Publisher<N> {
    /// Stores a label of a process, which is not below the current one. It goes last in the history of that process, and all else stays.
    /// Constant time: one store.
    #[inline]
    pub fn store_label(&mut self, board: &Board<N>, process: u32, label: Label)
        requires process_in_range { process < board.now }
        requires rises { IsTrue (label_le (current_label self.old process) label) }
        ensures stored { self.new ≡ with_label self.old process label }
        ensures current { current_label self.new process ≡ label }
    {
        let word = label.word();
        board
            .table
            .shared
            .store::<StoresLabel>(&mut self.seat, process as usize, word);
    }

    /// Stores the holder of a process: none, or another process of the board. All else stays. Constant time: one store.
    #[inline]
    pub fn store_holder(&mut self, board: &Board<N>, process: u32, holder: Option<u32>)
        requires process_in_range { process < board.now }
        requires another { IfSome holder (λ other. IsAnother board.now process other) }
        ensures stored { self.new ≡ with_holder self.old process holder }
        ensures current { current_holder self.new process ≡ holder }
    {
        let word = holder::word_of(holder);
        let place = board.processes as usize + process as usize;
        board
            .table
            .shared
            .store::<StoresHolder>(&mut self.seat, place, word);
    }

    /// Lets a reader see each current label, in place of what it had seen. No label that it had seen was above. Constant time: three loads.
    ///
    /// A new reader, which has seen the current labels and loaded none, takes the place of the old one.
    pub fn show(&mut self, board: &Board<N>, reader: &mut Reader<N>)
        ensures shown { reader.new ≡ new_seen (current_labels self.old) }
        ensures rises { NoneFalls reader.old.labels reader.new.labels }
        ensures met { self.new ≡ with_met self.old reader.old.labels }
    {
        let shared = &board.table.shared;
        let new = shared.split_seat::<Shows>(&mut self.seat);
        let old = mem::replace(&mut reader.seat, new);
        shared.join_seat::<Shows>(&mut self.seat, old);
        shared.load::<Looks>(&mut self.seat, 0);
    }

    /// Does nothing: a publisher has a history and a holder for each process of its board.
    pub fn fits(&self, board: &Board<N>)
        ensures histories { length self.now.histories ≡ board.now }
        ensures holders { length self.now.holders ≡ board.now }
    {
        let _ = &self.seat;
        let _ = &board.processes;
    }
}
