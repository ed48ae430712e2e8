//! How long a thread is to wait.
use std::time::{Clock, Duration, Instant};

/// A time by which a thread is to have what it waits for.
#[derive(Clone, Copy)]
pub struct Deadline {
    /// `None` if the clock could not be read.
    start: Option<Instant>,
    limit: Duration,
}

impl Deadline {
    pub fn new(clock: &impl Clock, limit: Duration) -> Deadline {
        Deadline {
            start: Instant::now(clock).ok(),
            limit,
        }
    }

    /// Returns what is left of the time; `None` if it is up, or the clock cannot be read.
    pub fn left(&self, clock: &impl Clock) -> Option<Duration> {
        let took = self.start?.elapsed(clock).ok()?;
        self.limit.checked_sub(took)
    }
}
