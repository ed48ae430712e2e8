//! The eight kinds of step on a board. There are no others.
//!
//! | Kind | Word | Whose view changes |
//! |---|---|---|
//! | `LoadsLabel` | a label word | the reader's: it has seen that label |
//! | `LoadsHolder` | a holder word | none |
//! | `Splits` | label word of process 0, a load | none; a new reader has seen what the splitting reader has |
//! | `StoresLabel` | a label word | the publisher's: the label goes last in that process's history |
//! | `StoresHolder` | a holder word | the publisher's: that holder |
//! | `Shows`, as a split | label word of process 0, a load | none; a new reader has seen every current label |
//! | `Shows`, as a join | label word of process 0, a load | the publisher's: the labels met are the old reader's, whose view is spent |
//! | `Looks` | label word of process 0, a load | none; by the rule no label met is above the current one |
use crate::views::View;
use atomic_table::{Join, Play, Split};

/// A reader loads a label.
pub(crate) struct LoadsLabel;

impl Play<(), View> for LoadsLabel {
    ghost use Rattle.mm_board.specs.Steps.{LabelLoaded};

    ghost then = { LabelLoaded };
}

/// A reader loads a holder.
pub(crate) struct LoadsHolder;

impl Play<(), View> for LoadsHolder {
    ghost use Rattle.mm_board.specs.Steps.{HolderLoaded};

    ghost then = { HolderLoaded };
}

/// The publisher stores a label.
pub(crate) struct StoresLabel;

impl Play<(), View> for StoresLabel {
    ghost use Rattle.mm_board.specs.Steps.{LabelStored};

    ghost then = { LabelStored };
}

/// The publisher stores a holder.
pub(crate) struct StoresHolder;

impl Play<(), View> for StoresHolder {
    ghost use Rattle.mm_board.specs.Steps.{HolderStored};

    ghost then = { HolderStored };
}

/// A reader is split off a reader.
pub(crate) struct Splits;

impl Split<View> for Splits {
    ghost use Rattle.mm_board.specs.Steps.{reader_of_reader};

    ghost left = { λ view. view };

    ghost right = { reader_of_reader };
}

/// A reader is split off the publisher, and another one is joined to it.
pub(crate) struct Shows;

impl Split<View> for Shows {
    ghost use Rattle.mm_board.specs.Steps.{reader_of_publisher};

    ghost left = { λ view. view };

    ghost right = { reader_of_publisher };
}

impl Join<View> for Shows {
    ghost use Rattle.mm_board.specs.Steps.{having_met};
    ghost use Rattle.mm_board.specs.declared.views.View.TheVariants.{Spent};

    ghost both = { having_met };

    ghost spent = { Spent };
}

/// The publisher looks at the board, after a reader was joined to it.
pub(crate) struct Looks;

impl Play<(), View> for Looks {
    ghost use Rattle.mm_board.specs.Steps.{Looked};

    ghost then = { Looked };
}
