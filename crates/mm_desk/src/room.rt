//! Room for what the end of a transaction looks at.
ghost use Rattle.std.specs.Prelude.{◌≡◌, ◌≤◌, IfOk, vec_capacity};

use std::alloc::{AllocError, Global};

/// Room for the numbers of a transaction's names, and for their buckets. It lies beside the desk, behind the same lock.
#[derive(Drop)]
pub struct Room {
    pub(crate) numbers: Vec<u32>,
    pub(crate) buckets: Vec<usize>,
}

impl Room {
    /// Room for this many names. This takes memory.
    pub fn open(alloc: Global, names: u32) -> Result<Room, AllocError>
        ensures { IfOk result (λ room. names ≤ vec_capacity room.numbers) }
    {
        let numbers = Vec::with_capacity(alloc, names as usize)?;
        let buckets = Vec::with_capacity(alloc, names as usize)?;
        Ok(Room { numbers, buckets })
    }

    /// Returns what `Desk::list_owned` listed last, until an end of any transaction.
    pub fn numbers(&self) -> &[u32]
        ensures { result.now ≡ self.now.numbers.items }
    {
        self.numbers.as_slice()
    }
}
