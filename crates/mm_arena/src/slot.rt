//! One slot of an arena.
ghost use Rattle.std.specs.Prelude.{◌≡◌, ◌+◌, ◌<◌, ◌^◌, Some, IsSome, option_copied, is_some, None};
ghost use Rattle.std.specs.Borrow.{Lends, sem};
ghost use Rattle.mm_arena.specs.Slots.{value_under};
ghost use Rattle.mm_arena.specs.private.Layout.{place_of, IsFree, IsLive};

use std::mem;

/// A slot, and the generation of its key.
#[derive(Drop)]
pub(crate) struct Slot<T> {
    pub(crate) generation: u32,
    pub(crate) state: State<T>,
}

#[derive(Drop)]
pub(crate) enum State<T> {
    /// Free, with the slot that was freed before it.
    Free(Option<u32>),
    Live(T),
    /// Freed at the last generation, and never given again.
    Retired,
}

impl<T> State<T> {
    ghost use Rattle.mm_arena.specs.contracts.slot.State.{the_row};

    /// Returns the value of a live slot for writing.
    fn value_mut(&mut self) -> &mut T
        requires { IsLive self.old }
        ensures* lends { sem 𝓛 (Lends (the_row T.row) T.row self.entry result State.Live) }
        ensures value { self.old ≡ State.Live result.now }
    {
        match self {
            State::Live(value) => value,
            _ => unreachable!(),
        }
    }
}

impl<T> Slot<T> {
    ghost use Rattle.mm_arena.specs.contracts.slot.Slot.{the_row};

    /// Returns a slot that was never used.
    pub(crate) fn new() -> Self
        ensures { result ≡ record { generation = 1; state = State.Free None } }
    {
        Slot {
            generation: 1,
            state: State::Free(None),
        }
    }

    /// Returns the value, if the slot is live under this generation.
    pub(crate) fn value(&self, generation: u32) -> Option<&T>
        ensures { option_copied result ≡ value_under generation (place_of self.now) }
    {
        match &self.state {
            State::Live(value) if self.generation == generation => Some(value),
            _ => None,
        }
    }

    /// Returns whether the slot is live.
    pub(crate) fn is_live(&self) -> bool
        ensures { result ≡ is_some (place_of self.now).value }
    {
        matches!(self.state, State::Live(_))
    }

    /// Returns the value of a live slot for writing.
    pub(crate) fn value_mut(&mut self) -> &mut T
        requires { IsLive self.old.state }
        ensures* lends { sem 𝓛 (Lends (the_row T.row) T.row self.entry result (λ value. record self.old { state = State.Live value })) }
        ensures value { self.old.state ≡ State.Live result.now }
    {
        self.state.value_mut()
    }

    /// Stores a value in a free slot, and returns the slot that it led to.
    pub(crate) fn fill(&mut self, value: T) -> Option<u32>
        requires { IsFree self.old.state }
        ensures link { self.old.state ≡ State.Free result }
        ensures filled { self.new ≡ record self.old { state = State.Live value } }
    {
        match mem::replace(&mut self.state, State::Live(value)) {
            State::Free(next) => next,
            _ => unreachable!(),
        }
    }

    /// Takes the value out of a live slot, which is free from now on under the next generation and leads to `next`.
    pub(crate) fn free(&mut self, next: Option<u32>) -> T
        requires live { IsLive self.old.state }
        requires rises { self.old.generation + 1 < 2 ^ 32 }
        ensures value { self.old.state ≡ State.Live result }
        ensures freed { self.new ≡ record { generation = self.old.generation + 1; state = State.Free next } }
    {
        self.generation += 1;
        match mem::replace(&mut self.state, State::Free(next)) {
            State::Live(value) => value,
            _ => unreachable!(),
        }
    }

    /// Takes the value out of a live slot, which is never given again.
    pub(crate) fn retire(&mut self) -> T
        requires { IsLive self.old.state }
        ensures value { self.old.state ≡ State.Live result }
        ensures retired { self.new ≡ record self.old { state = State.Retired } }
    {
        match mem::replace(&mut self.state, State::Retired) {
            State::Live(value) => value,
            _ => unreachable!(),
        }
    }
}
