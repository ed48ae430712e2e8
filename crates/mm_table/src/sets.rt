//! The sets of processes that a table works with.
ghost use Rattle.std.specs.Prelude.{◌≡◌, false, replicate, IfOk};

use mm_bit_set::BitSet;
use std::alloc::{AllocError, Global};

/// Sets of processes, each with a place for every process of the table.
#[derive(Drop)]
pub struct Sets {
    /// Each process that may transmit or newly detect is one of these, or waits for one of these.
    pub changed: BitSet,
    /// The processes that the call under way changed, if it lists them. Between calls it is empty.
    pub touched: BitSet,
    /// Those to which a settle has still to come. What it has between calls means nothing.
    pub pending: BitSet,
    /// Those that may still detect in a settle. What it has between calls means nothing.
    pub checks: BitSet,
}

impl Sets {
    /// Four empty sets, in `O(processes)`. It takes memory for each.
    pub fn open(alloc: Global, processes: u32) -> Result<Sets, AllocError>
        ensures changed { IfOk result (λ sets. sets.changed ≡ replicate processes false) }
        ensures touched { IfOk result (λ sets. sets.touched ≡ replicate processes false) }
        ensures pending { IfOk result (λ sets. sets.pending ≡ replicate processes false) }
        ensures checks { IfOk result (λ sets. sets.checks ≡ replicate processes false) }
    {
        Ok(Sets {
            changed: BitSet::new(alloc, processes)?,
            touched: BitSet::new(alloc, processes)?,
            pending: BitSet::new(alloc, processes)?,
            checks: BitSet::new(alloc, processes)?,
        })
    }
}
