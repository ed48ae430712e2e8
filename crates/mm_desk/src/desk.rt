//! The desk.
ghost use Rattle.std.specs.Prelude.{◌≡◌, slice_get};

use crate::books::Books;
use mm_manager::Key;
use mm_thin::Office;
use std::marker::Model;

/// A lock manager, the part of the words that makes buckets fat, and of each worker its transaction's key. A contract sees a `DeskState`.
///
/// In each value of this type the bucket of each name that the manager owns is fat, and a name whose bucket was lent is owned by the
/// transaction of the record's worker.
#[derive(Drop)]
pub struct Desk {
    pub(crate) books: Books,
    pub(crate) office: Office,
    /// By worker.
    pub(crate) keys: Vec<Key>,
    /// By bucket: the record to which it was lent last.
    pub(crate) lent_to: Vec<u32>,
}

impl Model for Desk {
    ghost use Rattle.mm_desk.specs.Desk.{DeskState, IsDesk};

    ghost Value = { DeskState };

    ghost view = { λ d. record { manager = d.books.manager; office = d.office; keys = d.keys.items } };

    ghost invariant = { λ d. IsDesk d.books d.office d.keys.items d.lent_to.items };
}

impl Desk {
    /// The key of a worker's transaction.
    pub fn key_of(&self, at: u32) -> Option<Key>
        ensures { result ≡ slice_get self.now.keys at }
    {
        self.keys.get(at as usize).copied()
    }
}
