//! What is stored on the board after an event.
ghost use Rattle.std.specs.Prelude.{◌≡◌, ◌+◌, length};
ghost use Rattle.mm_shared.specs.Published.{AppendsOnly, IsPublished};
ghost use Rattle.mm_shared.specs.private.Publishing.{HoldersAreShown, IdleAreShown, IsToPublish};

use mm_board::{Board, Name, Publisher};
use mm_table::Table;

/// Stores the holder that each of these processes has in the table, once, and the public label of those that have one. The board shows
/// the labels of the others already. `O(processes listed)`.
pub(crate) fn publish<N: Name>(
    publisher: &mut Publisher<N>,
    board: &Board<N>,
    table: &Table,
    processes: &[u32],
)
    requires left { IsToPublish processes.now publisher.old table.now }
    requires idle { IdleAreShown publisher.old table.now }
    ensures published { IsPublished publisher.new table.now }
    ensures appends { AppendsOnly publisher.old publisher.new table.now }
    ensures held { publisher.new.holders_stored ≡ publisher.old.holders_stored + length processes.now }
{
    publisher.fits(board);
    for process in processes {
        let holder = table.holder(*process);
        if holder.is_some() {
            publisher.store_label(board, *process, table.public_label(*process));
        }
        publisher.store_holder(board, *process, holder);
    }
}

/// Stores the public labels of these processes, the holders of which the board shows already. `O(processes listed)`.
pub(crate) fn publish_labels<N: Name>(
    publisher: &mut Publisher<N>,
    board: &Board<N>,
    table: &Table,
    processes: &[u32],
)
    requires labels { IsToPublish processes.now publisher.old table.now }
    requires holders { HoldersAreShown publisher.old table.now }
    ensures published { IsPublished publisher.new table.now }
    ensures appends { AppendsOnly publisher.old publisher.new table.now }
    ensures held { publisher.new.holders_stored ≡ publisher.old.holders_stored }
{
    publisher.fits(board);
    for process in processes {
        publisher.store_label(board, *process, table.public_label(*process));
    }
}
