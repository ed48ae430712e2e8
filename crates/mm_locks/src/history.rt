//! What the history of the lock tells.
use crate::error::LockError;
use crate::hall::Hall;
use mm_desk::Desk;
use mm_tied::Story;
use std::collections::LinkedList;

/// What a request for a name was told. No value of it is made.
pub enum Found {
    /// The transaction owns the name.
    Owns,
    /// It waits for the name, or another one owns it.
    Waits,
    /// Another thread changed a bucket meanwhile: it is to ask again.
    Again,
}

/// A call under the lock: of which worker, for which name, and what was answered. No value of it is made.
pub enum Event {
    /// The name was asked for.
    Asked(u32, LinkedList<u8>, Result<Found, LockError>),
    /// The name was tried.
    Tried(u32, LinkedList<u8>, Result<Found, LockError>),
    /// It was looked up what a request for the name has come to.
    Looked(u32, LinkedList<u8>, Result<Found, LockError>),
    /// A request for the name was taken back, or its wait was over.
    TookBack(u32, LinkedList<u8>, Result<(), LockError>),
    /// The name was given back.
    Unlocked(u32, LinkedList<u8>, Result<(), LockError>),
    /// The transaction was ended, or a portion of its names handed over.
    Ended(u32, Option<Result<(), LockError>>),
    /// The transaction was rolled back, or a portion of its names handed over.
    RolledBack(u32, bool),
}

/// The history speaks of the desk, and each event is one call of it. No value of this is made.
pub struct DeskStory;

impl Story<Hall, Desk, Event> for DeskStory {
    ghost use Rattle.mm_locks.specs.History.{Makes};

    ghost state = { λ hall. hall.desk };

    ghost makes = { Makes };
}
