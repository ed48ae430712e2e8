//! What a look at the board suggests.
ghost use Rattle.std.specs.Prelude.{◌≡◌, ◌<◌, IfSome};
ghost use Rattle.mm_board.specs.Views.{IsAnother, NoneFalls};
ghost use Rattle.mm_board.specs.Hints.{IsHint};

use crate::{Board, Name, Reader, Waiter};

/// How the two labels compare that were seen.
#[derive(Clone, Copy, Debug, PartialEq, Eq)]
pub enum HintKind {
    /// The holder's label is greater: a transmit may raise the process.
    Raise,
    /// The two labels are the same: a detect may give a verdict.
    Equal,
}

/// A process that waits for another one, by what was seen of both without the lock.
///
/// It promises nothing of the table, which may have changed since: the event under the lock makes its own test.
#[derive(Clone, Copy, Debug, PartialEq, Eq)]
pub struct Hint {
    pub process: u32,
    /// The process for which it waits.
    pub holder: u32,
    pub kind: HintKind,
}

/// Looks at the labels of a process and of its holder. `None` if the holder's is seen below its own.
fn hint_of<N: Name>(board: &Board<N>, reader: &mut Reader<N>, waiter: Waiter) -> Option<Hint>
    requires process { waiter.process < board.now }
    requires holder { IsAnother board.now waiter.process waiter.holder }
    ensures hint { IfSome result (λ hint. IsHint board.now waiter.process reader.new.labels hint) }
    ensures rises { NoneFalls reader.old.labels reader.new.labels }
{
    reader.fits(board);
    let Waiter { process, holder } = waiter;
    let own = reader.read_label(board, process);
    let its = reader.read_label(board, holder);
    if own < its {
        return Some(Hint {
            process,
            holder,
            kind: HintKind::Raise,
        });
    }
    if own == its {
        return Some(Hint {
            process,
            holder,
            kind: HintKind::Equal,
        });
    }
    None
}

impl<N: Name> Reader<N> {
    /// Looks at the processes from this one on, in ascending order, and returns the first that waits for another one whose label is seen
    /// above its own or is the same. `None` if there is none. `O(processes looked at)`: one load for each, and two more if it has a
    /// holder.
    pub fn first_hint(&mut self, board: &Board<N>, from: u32) -> Option<Hint>
        ensures hint { IfSome result (λ hint. IsHint board.now from self.new.labels hint) }
        ensures rises { NoneFalls self.old.labels self.new.labels }
    {
        let processes = board.processes();
        let mut next = from;
        while next < processes {
            let waiter = self.next_waiter(board, next)?;
            let hint = hint_of(board, self, waiter);
            if hint.is_some() {
                return hint;
            }
            next = waiter.process + 1;
        }
        None
    }
}
