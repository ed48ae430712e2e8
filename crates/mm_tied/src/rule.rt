//! The rule of the table, and what each step tells.
ghost use Rattle.mm_tied.specs.Rule.{Taken};

use crate::story::{Events, Story};
use crate::views::View;
use atomic_table::{Play, TableRule};
use std::marker::{Brand, PhantomData};
use std::snapshot::Snapshot;

/// What holds between any two steps: `IsKept` of `specs/Rule.antt`. The key is the value that the lock was opened with.
pub struct Kept<Y> {
    story: PhantomData<Y>,
}

impl<T, S, E, Y: Story<T, S, E>> TableRule<T, View<S, E>, Snapshot<T>> for Kept<Y> {
    ghost use Rattle.mm_tied.specs.Rule.{IsKept};
    ghost use Rattle.mm_tied.specs.History.{nobody};

    ghost holds = { λ key s. IsKept Y.state Y.makes (Y.state key.value) s };

    ghost first = { λ key. nobody };
}

/// The lock is taken, if it is free, and the value is in hand.
pub(crate) struct Takes<Y> {
    story: PhantomData<Y>,
}

impl<T, S, E, Y: Story<T, S, E>> Play<T, View<S, E>> for Takes<Y> {
    ghost then = { λ step before found now. Taken Y.state before found now };
}

/// What a step on the lock's word tells of the pass before and after. The proof of the call picks it (`Brand`).
pub(crate) trait Tells<T, S, E> {
    ghost use Rattle.atomic_table.specs.Table.{Me};
    ghost use Rattle.mm_tied.specs.declared.views.View.{View};

    ghost tells: { Me T (View S E) → Me T (View S E) → Type 0 };
}

impl<T, S, E> Tells<T, S, E> for Brand {
    ghost tells = { λ _ _. Unit {0} };
}

/// The lock is given back, with the value, and events are noted.
pub(crate) struct Puts<N> {
    told: PhantomData<N>,
}

impl<T, S, E, N: Tells<T, S, E>> Play<T, View<S, E>> for Puts<N> {
    ghost then = { λ step before found now. N.tells before now };
}

/// A new pass comes.
pub(crate) struct Comes;

impl<T, S, E> Play<T, View<S, E>> for Comes {
    ghost use Rattle.std.specs.Prelude.{◌≡◌, []};
    ghost use Rattle.mm_tied.specs.History.{nobody};

    ghost then = { λ step before found now. now ≡ (nobody, []) };
}
