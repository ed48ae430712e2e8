//! How long something took.

use std::time::{Clock, Instant};

const NANOSECONDS: u64 = 1_000_000_000;

/// The present, if the clock can be read.
pub fn now<R: Clock>(rt: &R) -> Option<Instant> {
    Instant::now(rt).ok()
}

/// The nanoseconds since then; 0 if the clock cannot be read.
pub fn nanoseconds_since<R: Clock>(rt: &R, start: Option<Instant>) -> u64 {
    let Some(start) = start else {
        return 0;
    };
    match start.elapsed(rt) {
        Ok(took) => took
            .as_secs()
            .wrapping_mul(NANOSECONDS)
            .wrapping_add(u64::from(took.subsec_nanos())),
        Err(_) => 0,
    }
}
