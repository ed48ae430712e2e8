//! Threads that are at work at one shared table at once.

use crate::clock::{nanoseconds_since, now};
use crate::rounds::{RESOURCES, rounds_by};
use crate::seat::Calls;
use crate::timed::Taken;
use std::alloc::{AllocError, Global};
use std::sync::Wait;
use std::thread;
use std::thread::{JoinHandle, Scope, Threads};
use std::time::Clock;

/// Starts a thread for each seat, with sixteen resources of its own.
fn start_all<'s, 'e, C: Calls + Send + Drop + 'e>(
    scope: &'s Scope<'s, &'e ()>,
    seats: Vec<C>,
    count: u32,
    started: &mut Vec<JoinHandle<u64>>,
) -> Result<(), AllocError> {
    let mut first = 0u32;
    for seat in seats {
        started.push(scope.spawn(move || rounds_by(seat, first, count))?)?;
        first = first.wrapping_add(RESOURCES);
    }
    Ok(())
}

/// Waits for these threads. Returns how many transactions were done.
fn joined<R: Threads + Wait>(rt: &R, started: Vec<JoinHandle<u64>>) -> u64 {
    let mut done = 0u64;
    for thread in started {
        done = done.wrapping_add(thread.join(rt));
    }
    done
}

/// Starts a thread for each seat, with sixteen resources of its own, and waits for all. Returns how many transactions were done.
fn run_all<'s, 'e, C: Calls + Send + Drop + 'e, R: Threads + Wait>(
    scope: &'s Scope<'s, &'e ()>,
    rt: &'e R,
    alloc: Global,
    seats: Vec<C>,
    count: u32,
) -> Result<u64, AllocError> {
    let mut started = Vec::with_capacity(alloc, seats.len())?;
    start_all(scope, seats, count, &mut started)?;
    Ok(joined(rt, started))
}

/// Runs a thread for each seat. Returns how many transactions were done.
fn at_once<C: Calls + Send + Drop, R: Threads + Wait + Sync>(
    rt: &R,
    alloc: Global,
    seats: Vec<C>,
    count: u32,
) -> Result<u64, AllocError> {
    thread::scope(
        thread::scope_env(),
        rt,
        |scope| -> Result<u64, AllocError> { run_all(scope, rt, alloc, seats, count) },
    )
}

/// Runs a thread for each seat, which makes `count` transactions. Returns how many nanoseconds it took, and how many were done.
pub fn time_at_once<C: Calls + Send + Drop, R: Threads + Wait + Clock + Sync>(
    rt: &R,
    alloc: Global,
    seats: Vec<C>,
    count: u32,
) -> Result<Taken, AllocError> {
    let start = now(rt);
    let done = at_once(rt, alloc, seats, count)?;
    Ok(Taken {
        nanoseconds: nanoseconds_since(rt, start),
        done: Some(done),
    })
}
