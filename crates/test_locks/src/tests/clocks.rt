//! A clock that a test moves.
use std::io;
use std::sync::Wait;
use std::sync::atomic::AtomicU64;
use std::sync::atomic::Ordering::SeqCst;
use std::time::{Clock, Duration};

/// How many nanoseconds a millisecond has.
pub const MILLISECOND: u64 = 1_000_000;

/// A clock that another thread moves, or each reading.
#[derive(Drop)]
pub struct Hand {
    /// The time, in nanoseconds.
    pub time: AtomicU64,
    /// How often the clock was read before it was moved.
    pub early: AtomicU64,
    /// How often the clock was read after it was moved.
    pub readings: AtomicU64,
    /// Not 0 once what the clock is for is over.
    pub over: AtomicU64,
}

impl Hand {
    pub fn new() -> Hand {
        Hand {
            time: AtomicU64::new(0),
            early: AtomicU64::new(0),
            readings: AtomicU64::new(0),
            over: AtomicU64::new(0),
        }
    }

    /// Says that it is over.
    pub fn end(&self) {
        self.over.store(1, SeqCst);
    }

    /// Returns whether it is over.
    pub fn is_over(&self) -> bool {
        self.over.load(SeqCst) != 0
    }
}

/// A runtime with that clock.
#[derive(Drop)]
pub struct Timed<'a, R: Wait> {
    _rt: &'a R,
    hand: &'a Hand,
    /// By how much each reading moves the clock, in nanoseconds.
    step: u64,
}

impl<'a, R: Wait> Timed<'a, R> {
    pub fn new(rt: &'a R, hand: &'a Hand, step: u64) -> Timed<'a, R> {
        Timed {
            _rt: rt,
            hand,
            step,
        }
    }
}

impl<'a, R: Wait> Wait for Timed<'a, R> {}

impl<'a, R: Wait> Clock for Timed<'a, R> {
    fn monotonic(&self) -> io::Result<Duration> {
        let time = self.hand.time.fetch_add(self.step, SeqCst);
        if time > 0 {
            self.hand.readings.fetch_add(1, SeqCst);
        } else {
            self.hand.early.fetch_add(1, SeqCst);
        }
        Ok(Duration::from_nanos(time))
    }

    fn since_1970(&self) -> io::Result<Duration> {
        self.monotonic()
    }
}
