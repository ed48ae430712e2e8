//! A walk along the processes for one that has a holder.
ghost use Rattle.std.specs.Prelude.{◌≡◌, IfSome};
ghost use Rattle.mm_board.specs.Waiter.{IsWaiter};

use crate::board::Board;
use crate::holder::Waiter;
use crate::reader::Reader;
use crate::rule::Name;

impl<N: Name> Reader<N> {
    /// Loads the holders of the processes from this one on, in ascending order, and returns the first that has one. `None` if none had
    /// one as its word was loaded. `O(processes looked at)`: one load for each.
    pub fn next_waiter(&mut self, board: &Board<N>, from: u32) -> Option<Waiter>
        ensures found { IfSome result (IsWaiter board.now from) }
        ensures same { self.new ≡ self.old }
    {
        for process in from..board.processes {
            if let Some(holder) = self.read_holder(board, process) {
                return Some(Waiter { process, holder });
            }
        }
        None
    }
}
