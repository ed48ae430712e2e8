//! A lock round a value. A thread that finds it taken stays away from it for a while before it asks again.
#![tactic(auto)]

use crossbeam_utils::CachePadded;
use std::sync::{Mutex, MutexGuard, Wait};
use std::thread;
use std::time::{Clock, Duration, Instant};

/// How often a thread that finds the lock taken yields its processor before it asks for the lock again.
const FIRST_YIELDS: u32 = 2;

/// How often a thread asks again before it sleeps until the lock is free. Before each further time it yields twice as often.
const TURNS: u32 = 8;

/// How many microseconds a thread that reads a clock stays awake. On a busy machine each yield is a turn of another program, and it sleeps after
/// the first.
const AWAKE_MICROS: u64 = 50;

/// A value that one thread at a time may use. What its type promises of all its values, a thread finds there whenever it takes the lock.
///
/// The word of the lock has a cache line of its own: a thread that waits for it slows down neither the one that has the lock nor those who
/// read what stands beside it.
pub struct YieldingMutex<T> {
    inside: CachePadded<Mutex<CachePadded<T>>>,
}

// By hand, so that a crate that drops a lock proves nothing of how its parts are dropped.
impl<T: Drop> Drop for YieldingMutex<T> {
    fn drop(self) {
        drop(self.into_inner());
    }
}

impl<T> YieldingMutex<T> {
    /// Returns a free lock with this value behind it. Constant time, and it takes no memory.
    pub fn new(value: T) -> YieldingMutex<T> {
        YieldingMutex {
            inside: CachePadded::new(Mutex::new(CachePadded::new(value))),
        }
    }

    /// Returns the value behind the lock, which nobody else can take any more. Constant time.
    pub fn into_inner(self) -> T {
        let YieldingMutex { inside } = self;
        inside.into_inner().into_inner().into_inner()
    }

    /// Takes the lock. Constant time if it is free; else the thread waits until the thread that has it lets go.
    // In place if it is free, since `Mutex::lock` itself is too long for that.
    #[inline(always)]
    pub fn take<R: Wait>(&self, rt: &R) -> Guard<'_, T> {
        match self.inside.try_lock() {
            Some(guard) => Guard { guard },
            None => self.contended(rt),
        }
    }

    /// Waits for the lock, and takes it. Asking again at once would slow down the one that has it, who is done soon: so the thread stays away
    /// for longer and longer, and the other one makes several calls in the meantime.
    #[inline(never)]
    fn contended<R: Wait>(&self, rt: &R) -> Guard<'_, T> {
        let mut yields = FIRST_YIELDS;
        for _ in 0..TURNS {
            stay_away(yields);
            if let Some(guard) = self.inside.try_lock() {
                return Guard { guard };
            }
            yields = yields.saturating_mul(2);
        }
        let guard = self.inside.lock(rt);
        Guard { guard }
    }
}

/// A time in which a thread stays awake: 50 microseconds.
#[derive(Clone, Copy)]
pub struct Awake {
    /// `None` if the clock could not be read.
    start: Option<Instant>,
}

impl Awake {
    /// Begins now.
    pub fn new(clock: &impl Clock) -> Awake {
        Awake {
            start: Instant::now(clock).ok(),
        }
    }

    /// Yields the processor so often, if the time is not over before. Returns whether it is not. A clock that cannot be read says that it is.
    pub fn stay_away(&self, clock: &impl Clock, yields: u32) -> bool {
        for _ in 0..yields {
            thread::yield_now();
            if self.is_over(clock) {
                return false;
            }
        }
        true
    }

    /// Returns whether the time is over.
    pub fn is_over(&self, clock: &impl Clock) -> bool {
        let Some(start) = self.start else {
            return true;
        };
        match start.elapsed(clock) {
            Ok(took) => took >= Duration::from_micros(AWAKE_MICROS),
            Err(_) => true,
        }
    }
}

/// Has the lock, until it is dropped, and lends the value behind it.
pub struct Guard<'a, T> {
    guard: MutexGuard<'a, CachePadded<T>>,
}

impl<T> Guard<'_, T> {
    /// Returns the value behind the lock. Constant time.
    #[inline(always)]
    pub fn inside(&mut self) -> &mut T {
        &mut self.guard
    }
}

// By hand, so that a crate that drops a guard proves nothing of how its parts are dropped.
impl<T> Drop for Guard<'_, T> {
    fn drop(self) {
        let Guard { guard } = self;
        drop(guard);
    }
}

/// Yields the processor so often, which takes the time of several calls each.
pub fn stay_away(yields: u32) {
    for _ in 0..yields {
        thread::yield_now();
    }
}
