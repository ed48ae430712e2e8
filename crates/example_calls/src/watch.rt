//! What two readers of a board see while its publisher stores labels.
ghost use Rattle.std.specs.Prelude.{◌≡◌, ◌<◌, ◌≤◌, IfOk, IsTrue};
ghost use Rattle.mm_label.specs.Label.{label_le, opening_label};
ghost use Rattle.mm_board.specs.Views.{processes_of};

use mm_board::{MAX_PROCESSES, Memory, Name, RawBoard};
use mm_label::Label;
use std::alloc::Global;
use std::marker::Brand;

/// What two readers saw of one process.
#[derive(Clone, Copy, Debug, PartialEq, Eq)]
pub struct Watched {
    /// By a reader to which nothing was shown, after the first label was stored.
    pub unshown: Label,
    /// By a reader to which the board was shown after the second label was stored.
    pub shown: Label,
}

/// Opens a board of this many processes, stores two labels of one process, the first of which is not below the opening label and the
/// second not below the first, and returns what two readers see of that process.
///
/// The reader to which the board was shown sees the second label. Of the other one it is known that what it sees is not below the
/// opening label, with which it began, nor above the first label, since it is shown the board afterwards.
///
/// `Err` only if a request for memory was refused.
pub fn watch_labels(
    alloc: Global,
    processes: u32,
    process: u32,
    first: Label,
    second: Label,
) -> Result<Watched, Memory>
    requires processes_in_range { processes ≤ MAX_PROCESSES }
    requires process_in_range { process < processes }
    requires first_rises { IsTrue (label_le (opening_label process) first) }
    requires second_rises { IsTrue (label_le first second) }
    ensures shown { IfOk result (λ watched. watched.shown ≡ second) }
    ensures unshown { IfOk result (λ watched. IsTrue (label_le (opening_label process) watched.unshown) × IsTrue (label_le watched.unshown first)) }
{
    let raw = RawBoard::new(alloc, processes)?;
    Ok(watch_on::<Brand>(raw, process, first, second))
}

/// The same on the board that `N` names.
fn watch_on<N: Name>(raw: RawBoard, process: u32, first: Label, second: Label) -> Watched
    requires named { raw ≡ N.board }
    requires process_in_range { process < processes_of raw }
    requires first_rises { IsTrue (label_le (opening_label process) first) }
    requires second_rises { IsTrue (label_le first second) }
    ensures shown { result.shown ≡ second }
    ensures unshown { IsTrue (label_le (opening_label process) result.unshown) × IsTrue (label_le result.unshown first) }
{
    let (board, mut publisher, mut reader) = raw.open::<N>();
    let mut other = reader.split(&board);
    publisher.store_label(&board, process, first);
    let unshown = reader.read_label(&board, process);
    publisher.show(&board, &mut reader);
    publisher.store_label(&board, process, second);
    publisher.show(&board, &mut other);
    let shown = other.read_label(&board, process);
    publisher.show(&board, &mut other);
    Watched { unshown, shown }
}
