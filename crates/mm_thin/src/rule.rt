//! The rule that holds of the words between any two steps.
use crate::text::Text;
use crate::views::{Part, View};
use atomic_table::{Shared, Table, TableRule};
use std::alloc::Global;

/// What holds between any two steps: `IsKept` of `specs/Rule.antt`. The key is the number of words.
pub struct WordsRule;

impl TableRule<Text, View, u64> for WordsRule {
    ghost use Rattle.std.specs.Prelude.{[], ◌∷◌};
    ghost use Rattle.mm_thin.specs.Views.{no_desk};
    ghost use Rattle.mm_thin.specs.Rule.{IsKept};
    ghost use Rattle.mm_thin.specs.declared.views.Part.TheVariants.{Desk};

    ghost holds = { λ count s. IsKept count s };

    ghost first = { λ _. Desk no_desk ∷ [] };
}

/// The words as threads see them.
pub(crate) type Steps = Shared<Text, View, u64, WordsRule>;

/// The words, with their memory and that of the texts.
pub(crate) type Words = Table<Text, View, u64, WordsRule, Global>;
