//! Sets of small numbers, a bit each, from which the first member at or above a place is found without a look at each place.
//!
//! - `bit_set`: `BitSet`, the sets that callers use: bits, and above them one bit for each word of these that has a member.
//! - `bits`: `Bits`, one of the two levels.
#![tactic(auto)]

mod bit_set;
mod bits;

pub use bit_set::BitSet;
