//! Threads that are at work at once.

use crate::crowd::visit_by_chance;
use crate::names::Name;
use crate::shared::{Done, Shared, Way};
use crate::transfers::transfer_at_last;
use mm_locks::{LockError, Locks, Session};
use rand_pcg::Lcg64Xsh32;
use std::alloc::{AllocError, Global};
use std::sync::atomic::Ordering::SeqCst;
use std::sync::atomic::{AtomicBool, AtomicU64};
use std::sync::{Barrier, Wait};
use std::thread;
use std::thread::Threads;
use std::time::{Clock, Duration, Instant};

const NANOSECONDS: u64 = 1_000_000_000;

/// The name for which all but one wait.
const BED: &[u8] = b"bed";

/// The nanoseconds since then; 0 if the clock cannot be read.
pub fn nanoseconds_since<R: Clock>(rt: &R, start: Option<Instant>) -> u64 {
    match start.and_then(|start| start.elapsed(rt).ok()) {
        Some(took) => took
            .as_secs()
            .wrapping_mul(NANOSECONDS)
            .wrapping_add(u64::from(took.subsec_nanos())),
        None => 0,
    }
}

/// Lets the others work for so long, and says how long it was.
fn stop_after<R: Clock>(rt: &R, shared: &Shared<'_>, milliseconds: u32) -> Done {
    let mut done = Done::NOTHING;
    let start = Instant::now(rt).ok();
    thread::sleep(rt, Duration::from_millis(u64::from(milliseconds)));
    done.nanoseconds = nanoseconds_since(rt, start);
    shared.stop.store(true, SeqCst);
    done
}

/// The same by one who owns a name for which the others wait.
fn sleep_beside<R: Wait + Clock>(
    rt: &R,
    shared: &Shared<'_>,
    milliseconds: u32,
) -> Result<Done, LockError> {
    let mut session = shared.locks.session(rt)?;
    let mut transaction = session.begin();
    transaction.lock(BED)?;
    shared.gate.wait(rt);
    let done = stop_after(rt, shared, milliseconds);
    transaction.commit()?;
    Ok(done)
}

/// A transaction that waits until the one who owns the name is done.
fn sleep<R: Wait + Clock>(session: &mut Session<'_, '_, R>) -> Done {
    let mut done = Done::NOTHING;
    let answer = mm_locks::run(session.begin(), 1, |transaction| -> Result<(), LockError> {
        transaction.lock(BED)?;
        Ok(())
    });
    match answer {
        Ok(()) => done.commits = 1,
        Err(_) => done.aborts = 1,
    }
    done
}

/// Makes transactions until it is to stop.
fn work<R: Wait + Clock>(session: &mut Session<'_, '_, R>, shared: &Shared<'_>, seed: u64) -> Done {
    let mut random = Lcg64Xsh32::new(seed, 0);
    let mut done = Done::NOTHING;
    for _ in 0..u64::MAX {
        if shared.stop.load(SeqCst) {
            break;
        }
        done = done.and(match shared.way {
            Way::Crowd => visit_by_chance(session, shared, &mut random),
            _ => transfer_at_last(session, shared, &mut random),
        });
    }
    done
}

/// What the first thread does: it lets the others work.
fn first_part<R: Wait + Clock>(rt: &R, shared: &Shared<'_>, milliseconds: u32) -> Done {
    if let Way::Sleep = shared.way {
        return sleep_beside(rt, shared, milliseconds).unwrap_or(Done::NOTHING);
    }
    shared.gate.wait(rt);
    stop_after(rt, shared, milliseconds)
}

/// What one of the threads does, by one session if it is not the first.
fn part<R: Wait + Clock>(rt: &R, shared: &Shared<'_>, milliseconds: u32, number: usize) -> Done {
    if number == 0 {
        return first_part(rt, shared, milliseconds);
    }
    let session = shared.locks.session(rt);
    shared.gate.wait(rt);
    let Ok(mut session) = session else {
        return Done::NOTHING;
    };
    match shared.way {
        Way::Sleep => sleep(&mut session),
        _ => work(&mut session, shared, number as u64),
    }
}

/// This many threads and one more, which work for so long.
pub fn timed<'a, R: Threads + Wait + Clock + Sync>(
    rt: &R,
    alloc: Global,
    locks: &'a Locks,
    names: &'a [Name],
    owners: &'a [AtomicU64],
    way: Way,
    threads: u32,
    milliseconds: u32,
) -> Result<Done, AllocError> {
    let all = (threads as usize).saturating_add(1);
    let gate = Barrier::new(all);
    let stop = AtomicBool::new(false);
    let shared = Shared {
        locks,
        names,
        owners,
        way,
        gate: &gate,
        stop: &stop,
    };
    let parts = thread::map_indices(
        rt,
        alloc,
        all,
        &|number| part(rt, &shared, milliseconds, number),
    )?;
    let mut sum = Done::NOTHING;
    for part in parts.as_slice() {
        sum = sum.and(*part);
    }
    Ok(sum)
}
