//! Chains of transactions that wait with a time.

use crate::threads::nanoseconds_since;
use mm_locks::{LockError, Locks, LocksConfig, ManagerConfig, Transaction};
use std::alloc::{AllocError, Global};
use std::sync::atomic::AtomicU64;
use std::sync::atomic::Ordering::SeqCst;
use std::sync::{Barrier, Wait};
use std::thread;
use std::thread::Threads;
use std::time::{Clock, Duration, Instant};

/// The time that a request is given, in milliseconds.
const LIMIT: u64 = 20;

/// This many milliseconds after a request with a time the front blocks, if it blocks after it.
const LATER: u64 = 5;

/// This many milliseconds pass before the last one asks, if it alone has a time, and one more for every two of the others: they wait by then.
const PAUSE: u64 = 10;

/// How many transactions a chain has at the most.
const LONGEST: u32 = 4_096;

/// How many buckets the locks of a chain have.
const BUCKETS: u32 = 16_384;

/// How often a thread looks whether all have come back, a millisecond apart. So nobody keeps a name for much more than ten seconds.
const LOOKS: u32 = 10_000;

/// A chain: its first transaction waits for nobody, the second one, its front, for the first one, and each other one for the one before it.
#[derive(Clone, Copy)]
pub struct Chain {
    /// The number of the last one.
    pub last: u16,
    /// Whether all behind the front have a time, or the last one alone.
    pub are_all_timed: bool,
    /// Whether the front blocks after the requests with a time, with a label above all others: so these carry its label.
    pub is_carried: bool,
}

impl Chain {
    /// How many make a request with a time.
    fn timed(self) -> u64 {
        if self.are_all_timed {
            u64::from(self.last).saturating_sub(1)
        } else {
            1
        }
    }

    /// How many milliseconds pass before a request with a time.
    fn ask_after(self) -> u64 {
        if self.are_all_timed {
            0
        } else {
            (u64::from(self.last) / 2).saturating_add(PAUSE)
        }
    }

    /// How many milliseconds pass before the front blocks.
    fn front_after(self) -> u64 {
        if self.is_carried {
            self.ask_after().saturating_add(LATER)
        } else {
            0
        }
    }
}

/// What the threads of a chain share.
#[derive(Drop)]
struct Shared<'a> {
    locks: &'a Locks,
    chain: Chain,
    gate: &'a Barrier,
    /// How many have come back from their requests with a time.
    back: &'a AtomicU64,
}

impl Shared<'_> {
    /// Waits until all have come back.
    fn await_all<R: Clock>(&self, rt: &R) {
        for _ in 0..LOOKS {
            if self.back.load(SeqCst) >= self.chain.timed() {
                return;
            }
            thread::sleep(rt, Duration::from_millis(1));
        }
    }

    /// Waits for the front, once for each of the chain, and takes that back at once. Each wait raises its label by one, so the front's next
    /// label is above all others of the chain.
    fn rise<R: Wait + Clock>(&self, transaction: &mut Transaction<'_, '_, '_, R>) {
        for _ in 0..self.chain.last {
            let _ = transaction.lock_for(&1_u16.to_be_bytes(), Duration::from_millis(0));
        }
    }

    /// Makes the request with a time. Returns how many nanoseconds after its time it came back; `None` if it was granted the name.
    fn time_out<R: Wait + Clock>(
        &self,
        rt: &R,
        transaction: &mut Transaction<'_, '_, '_, R>,
        name: &[u8],
    ) -> Option<u64> {
        thread::sleep(rt, Duration::from_millis(self.chain.ask_after()));
        let start = Instant::now(rt).ok();
        let answer = transaction.lock_for(name, Duration::from_millis(LIMIT));
        let took = nanoseconds_since(rt, start);
        self.back.fetch_add(1, SeqCst);
        self.await_all(rt);
        match answer {
            Err(LockError::TimedOut) => { Some(took.saturating_sub(LIMIT * 1_000_000)) }
            _ => None,
        }
    }

    /// What one of the threads does: it locks its own name and then waits for that of the one before. The first one keeps its name until all
    /// requests with a time have come back.
    fn part<R: Wait + Clock>(&self, rt: &R, number: u16) -> Result<Option<u64>, LockError> {
        let mut session = self.locks.session(rt)?;
        let mut transaction = session.begin();
        transaction.lock(&number.to_be_bytes())?;
        self.gate.wait(rt);
        if number == 0 && self.chain.is_carried {
            self.rise(&mut transaction);
        }
        self.gate.wait(rt);
        let late = self.wait_for_the_one_before(rt, &mut transaction, number)?;
        transaction.commit()?;
        Ok(late)
    }

    fn wait_for_the_one_before<R: Wait + Clock>(
        &self,
        rt: &R,
        transaction: &mut Transaction<'_, '_, '_, R>,
        number: u16,
    ) -> Result<Option<u64>, LockError> {
        if number == 0 {
            self.await_all(rt);
            return Ok(None);
        }
        let name = number.wrapping_sub(1).to_be_bytes();
        if number == 1 {
            thread::sleep(rt, Duration::from_millis(self.chain.front_after()));
        } else if self.chain.are_all_timed || number == self.chain.last {
            return Ok(self.time_out(rt, transaction, &name));
        }
        transaction.lock(&name)?;
        Ok(None)
    }
}

/// Lets the transactions of a chain wait. Returns for each that has a time how many nanoseconds after it its request came back. `None` for the
/// others, and for each that was granted its name.
pub fn late<R: Threads + Wait + Clock + Sync>(
    rt: &R,
    alloc: Global,
    chain: Chain,
) -> Result<Vec<Option<u64>>, AllocError> {
    let config = LocksConfig {
        manager: ManagerConfig {
            transactions: LONGEST,
            names: LONGEST,
            name_bytes: 2,
            names_each: 0,
            seed: 7,
        },
        buckets: BUCKETS,
    };
    let Ok(locks) = Locks::open(alloc, config) else {
        return Ok(Vec::new(alloc));
    };
    let parts = waits(rt, alloc, &locks, chain);
    drop(locks);
    parts
}

/// The threads of a chain, at these locks.
fn waits<R: Threads + Wait + Clock + Sync>(
    rt: &R,
    alloc: Global,
    locks: &Locks,
    chain: Chain,
) -> Result<Vec<Option<u64>>, AllocError> {
    let threads = usize::from(chain.last) + 1;
    let gate = Barrier::new(threads);
    let back = AtomicU64::new(0);
    let shared = Shared {
        locks,
        chain,
        gate: &gate,
        back: &back,
    };
    thread::map_indices(
        rt,
        alloc,
        threads,
        &|number| shared.part(rt, number as u16).unwrap_or(None),
    )
}
