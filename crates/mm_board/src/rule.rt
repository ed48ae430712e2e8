//! The rule that holds of a board between any two steps, and what names a board.
use crate::views::View;
use atomic_table::TableRule;
use std::marker::Brand;

/// Names one board. The board, its publisher and its readers carry the name in their types, so that none of them is used with another board.
///
/// A function over `N: Name` is called with `Brand`, by which its caller picks the board that `N` names. The trait has no functions.
pub trait Name {
    ghost use Rattle.atomic_table.specs.Seated.{TableId};

    ghost board: { TableId };
}

impl Name for Brand {
    ghost use Rattle.mm_board.specs.Views.{no_board};

    ghost board = { no_board };
}

/// What holds between any two steps: `IsBoard` of `specs/Rule.antt`. The key is the number of processes.
pub struct BoardRule;

impl TableRule<(), View, u32> for BoardRule {
    ghost use Rattle.mm_board.specs.Views.{opening_published};
    ghost use Rattle.mm_board.specs.Rule.{IsBoard};
    ghost use Rattle.mm_board.specs.declared.views.View.TheVariants.{Publishes};

    ghost holds = { λ _ s. IsBoard s };

    ghost first = { λ processes. Publishes (opening_published processes) };
}
