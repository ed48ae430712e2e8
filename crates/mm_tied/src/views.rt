//! What passes know. No value of these types is made: they stand in contracts alone, and take no memory.
use std::collections::LinkedList;

/// An event of the history, and which pass it is of.
pub struct Told<E> {
    pub by: u64,
    pub event: E,
}

/// Whether a pass has the lock.
pub enum Stage<S, E> {
    Away,
    /// It has: the history so far, and the state that was found.
    Holds(LinkedList<Told<E>>, S),
}

/// What a pass knows.
pub struct View<S, E> {
    pub stage: Stage<S, E>,
    /// The history up to the last call of its own.
    pub seen: LinkedList<Told<E>>,
    /// Its own events.
    pub mine: LinkedList<E>,
}
