//! The kinds of step. There are no others.
use crate::text::Text;
use crate::views::View;
use atomic_table::{Join, Play, Split};

/// A part's seat is joined to another's.
pub(crate) struct Meeting;

impl Join<View> for Meeting {
    ghost use Rattle.std.specs.Prelude.{[]};
    ghost use Rattle.mm_thin.specs.Steps.{meeting};

    ghost both = { meeting };

    ghost spent = { [] };
}

/// It is split off again.
pub(crate) struct Parting;

impl Split<View> for Parting {
    ghost use Rattle.mm_thin.specs.Steps.{first_of, others_of};

    ghost left = { first_of };

    ghost right = { others_of };
}

/// A seat without a part is split off.
pub(crate) struct Blank;

impl Split<View> for Blank {
    ghost use Rattle.std.specs.Prelude.{[]};

    ghost left = { λ view. view };

    ghost right = { λ _. [] };
}

/// A record takes a bucket: a compare-and-swap of free to thin. Its text goes home.
pub(crate) struct Takes;

impl Play<Text, View> for Takes {
    ghost use Rattle.mm_thin.specs.Steps.{Taken};

    ghost then = { Taken };
}

/// A record gives up a bucket: a compare-and-swap of thin to free, or of lent to fat. Its text is in hand again.
pub(crate) struct GivesUp;

impl Play<Text, View> for GivesUp {
    ghost use Rattle.mm_thin.specs.Steps.{GivenUp};

    ghost then = { GivenUp };
}

/// The office reads a word: a load.
pub(crate) struct Sees;

impl Play<Text, View> for Sees {
    ghost use Rattle.mm_thin.specs.Steps.{Seen};

    ghost then = { Seen };
}

/// The office looks whether a bucket is lent: a load.
pub(crate) struct Looks;

impl Play<Text, View> for Looks {
    ghost use Rattle.mm_thin.specs.Steps.{Looked};

    ghost then = { Looked };
}

/// The office makes a free bucket fat: a compare-and-swap.
pub(crate) struct Fattens;

impl Play<Text, View> for Fattens {
    ghost use Rattle.mm_thin.specs.Steps.{Fattened};

    ghost then = { Fattened };
}

/// The office makes a thin bucket fat: a compare-and-swap. The text of the record that had taken it is in hand.
pub(crate) struct Borrows;

impl Play<Text, View> for Borrows {
    ghost use Rattle.mm_thin.specs.Steps.{Borrowed};

    ghost then = { Borrowed };
}

/// The office puts the text back: a store.
pub(crate) struct Reads;

impl Play<Text, View> for Reads {
    ghost use Rattle.mm_thin.specs.Steps.{HasRead};

    ghost then = { HasRead };
}

/// The office makes a bucket that was lent thin again: a compare-and-swap.
pub(crate) struct Thins;

impl Play<Text, View> for Thins {
    ghost use Rattle.mm_thin.specs.Steps.{Thinned};

    ghost then = { Thinned };
}

/// The office frees a bucket: a store.
pub(crate) struct Frees;

impl Play<Text, View> for Frees {
    ghost use Rattle.mm_thin.specs.Steps.{Freed};

    ghost then = { Freed };
}

/// The office makes a record: a load.
pub(crate) struct Makes;

impl Play<Text, View> for Makes {
    ghost use Rattle.mm_thin.specs.Steps.{IsMade};

    ghost then = { IsMade };
}

/// A record and the office look: a load.
pub(crate) struct Meets;

impl Play<Text, View> for Meets {
    ghost use Rattle.mm_thin.specs.Steps.{Met};

    ghost then = { Met };
}

/// Two records look: a load.
pub(crate) struct RecordsMeet;

impl Play<Text, View> for RecordsMeet {
    ghost use Rattle.mm_thin.specs.Steps.{RecordsMet};

    ghost then = { RecordsMet };
}
