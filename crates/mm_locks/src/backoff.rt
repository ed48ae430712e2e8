//! The pauses of one who tries again.
ghost use Rattle.std.specs.Prelude.{◌≡◌, ◌*◌, ◌<◌, ◌≤◌, min};
ghost use Rattle.std.specs.Duration.{as_nanos};

use rand_core::utils::NextWord;
use rand_pcg::Lcg64Xsh32;
use std::time::Duration;

/// The bound of the first pause, in microseconds.
const FIRST: u32 = 32;

/// The greatest bound, in microseconds.
const MAX_BOUND: u32 = 32_768;

/// Pauses of random lengths, each below a bound that is twice the one before, up to 33 milliseconds.
#[derive(Clone, Copy)]
pub struct Backoff {
    /// Who pauses.
    at: u32,
    /// The bound of the pause that comes next, in microseconds.
    bound: u32,
    ghost some: { 0 < bound },
    ghost bounded: { bound ≤ 32768 },
}

impl Backoff {
    /// The pauses of the session of this place.
    pub fn first(at: u32) -> Backoff
        ensures { result.bound ≡ 32 }
    {
        Backoff { at, bound: FIRST }
    }

    /// Returns the next pause. No two sessions have one place, so those that met get lengths of their own.
    pub fn next(&mut self) -> Duration
        ensures below { as_nanos result < 1_000 * self.old.bound }
        ensures doubles { self.new.bound ≡ min (2 * self.old.bound) 32_768 }
    {
        let seed = (u64::from(self.at) << 32) | u64::from(self.bound);
        let mut words = Lcg64Xsh32::new(seed, 0);
        let pause = words.next_word() % self.bound;
        self.bound = (2 * self.bound).min(MAX_BOUND);
        Duration::from_micros(u64::from(pause))
    }
}
