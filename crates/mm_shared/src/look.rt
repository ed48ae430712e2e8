//! Reads of the board, which take no lock.
ghost use Rattle.std.specs.Prelude.{◌≡◌, ◌<◌, IfSome, IsTrue};
ghost use Rattle.mm_board.specs.Views.{label_at, with_seen, NoneFalls};
ghost use Rattle.mm_label.specs.Label.{label_le};
ghost use Rattle.mm_board.specs.Hints.{IsHint};

use crate::pass::Pass;
use crate::shared::SharedTable;
use mm_board::{Hint, Name};
use mm_table::Label;
use std::sync::ledger::Ledger;

impl<N: Name, A: Ledger, V: Ledger, B: Ledger> SharedTable<N, A, V, B> {
    /// Returns the public label of a process, read on the board without the lock: its opening label, or one that an event gave it, not below the
    /// one that this pass had seen. The table may have changed since.
    ///
    /// Constant time: one load. It takes no lock and no memory.
    ///
    /// Kept for the published interface: no crate of the program calls it.
    pub fn peek(&self, pass: &mut Pass<N, A, V, B>, process: u32) -> Label
        requires { process < self.now }
        ensures answer { result ≡ label_at pass.new.seen.labels process }
        ensures rises { IsTrue (label_le (label_at pass.old.seen.labels process) result) }
        ensures loaded { pass.new ≡ record pass.old { seen = with_seen pass.old.seen process result } }
    {
        pass.reader.read_label(&self.board, process)
    }

    /// Looks at the processes from `from` on, in ascending order, without the lock, and returns the first that has a holder whose label is
    /// seen above its own or is the same. `None` if there is none; so it is if `from` is not below the number of processes.
    ///
    /// The two labels are read one after the other, and the table may have changed since: a hint promises nothing of it.
    /// `O(processes looked at)`: one load for each, and two more if it has a holder. It takes no lock and no memory.
    pub fn scan(&self, pass: &mut Pass<N, A, V, B>, from: u32) -> Option<Hint>
        ensures hint { IfSome result (λ hint. IsHint self.now from pass.new.seen.labels hint) }
        ensures rises { NoneFalls pass.old.seen.labels pass.new.seen.labels }
        ensures shares { pass.new ≡ record pass.old { seen = pass.new.seen } }
    {
        pass.reader.first_hint(&self.board, from)
    }
}
