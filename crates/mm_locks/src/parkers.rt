//! Where threads sleep.
use crate::wakes::Wakes;
use crossbeam_utils::CachePadded;
use mm_mutex::Awake;
use std::alloc::{AllocError, Global};
use std::sync::Wait;
use std::sync::atomic::AtomicBool;
use std::sync::atomic::Ordering::SeqCst;
use std::thread::Parker;
use std::time::{Clock, Duration};

/// How often a thread yields its processor before it sleeps. Often it is woken in that time, and goes on at once.
const YIELDS: u32 = 32;

/// A parker that tells a thread which yields whether it was woken.
#[derive(Drop)]
pub struct FlaggedParker {
    parker: Parker,
    is_woken: AtomicBool,
}

impl FlaggedParker {
    fn new() -> FlaggedParker {
        FlaggedParker {
            parker: Parker::new(),
            is_woken: AtomicBool::new(false),
        }
    }

    /// Yields until the thread is woken, `YIELDS` times at most and for no longer than it may stay awake, and then sleeps until it is woken. A wake
    /// since the last sleep counts too.
    pub fn yield_and_park<R: Wait + Clock>(&self, rt: &R) {
        self.is_woken.store(false, SeqCst);
        let awake = Awake::new(rt);
        for _ in 0..YIELDS {
            if self.is_woken.load(SeqCst) || !awake.stay_away(rt, 1) {
                break;
            }
        }
        self.parker.park(rt);
    }

    /// Sleeps until the thread is woken or the time is up. A wake since the last sleep counts too.
    pub fn park_timeout<R: Wait + Clock>(&self, rt: &R, limit: Duration) {
        self.parker.park_timeout(rt, limit);
    }

    /// Wakes the thread.
    fn wake(&self) {
        // The parker is told first: a thread that sees the flag does not sleep in it.
        self.parker.unpark();
        self.is_woken.store(true, SeqCst);
    }
}

/// A place to sleep for the thread of each transaction, by its process.
#[derive(Drop)]
pub struct Parkers {
    parkers: Vec<CachePadded<FlaggedParker>>,
}

impl Parkers {
    /// This many places. This takes memory once.
    pub fn open(alloc: Global, count: u32) -> Result<Parkers, AllocError> {
        let mut parkers = Vec::with_capacity(alloc, count as usize)?;
        for _ in 0..count {
            parkers.push_reserved(CachePadded::new(FlaggedParker::new()));
        }
        Ok(Parkers { parkers })
    }

    /// Where the thread of this process's transaction sleeps.
    pub fn of(&self, process: u32) -> Option<&FlaggedParker> {
        let parker = self.parkers.get(process as usize)?;
        Some(&**parker)
    }

    /// Wakes these. A thread that does not sleep now does not sleep the next time.
    pub fn wake(&self, wakes: &Wakes) {
        for process in wakes.processes() {
            if let Some(parker) = self.of(*process) {
                parker.wake();
            }
        }
    }
}
