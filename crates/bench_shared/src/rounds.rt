//! What one thread does: transactions, each of which takes sixteen resources and finishes.

use crate::seat::Calls;
use mm_shared::Refusal;

/// How many resources each transaction takes.
pub const RESOURCES: u32 = 16;

/// One transaction, which takes sixteen resources from `first` on.
fn round<C: Calls>(seat: &mut C, first: u32) -> Result<(), Refusal> {
    let key = seat.begin()?;
    for place in 0..RESOURCES {
        seat.acquire(key, first.wrapping_add(place))?;
    }
    seat.finish(key)
}

/// This many transactions, one after another. Returns how many were done.
fn rounds<C: Calls>(seat: &mut C, first: u32, count: u32) -> u64 {
    let mut done = 0u64;
    for _ in 0..count {
        if round(seat, first).is_ok() {
            done = done.wrapping_add(1);
        }
    }
    done
}

/// This many transactions at this seat, one after another. Returns how many were done.
pub fn rounds_by<C: Calls + Drop>(seat: C, first: u32, count: u32) -> u64 {
    let mut seat = seat;
    rounds(&mut seat, first, count)
}
