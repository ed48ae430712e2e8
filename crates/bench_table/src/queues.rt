//! Transactions that wait for one resource, which goes from one to the next.
use crate::{PROCESSES, open};
use mm_table::{Key, Refusal, Released, Table};
use std::alloc::Global;

/// Releases resource 0 to the longest waiter, and waits for it again. Answers the new owner.
fn pass_on(table: &mut Table, owner: Key) -> Result<Key, Refusal> {
    let released = table.release(owner, 0)?;
    table.acquire(owner, 0)?;
    Ok(match released {
        Released::To(next) => next,
        Released::Free => owner,
    })
}

/// A table with room for one transaction that owns resource 0 and this many that wait for it.
fn open_for(alloc: Global, waiters: u32) -> Result<Table, Refusal> {
    open(alloc, PROCESSES.max(waiters.saturating_add(1)), 1)
}

/// One transaction acquires resource 0, and `waiters` wait for it. Answers the owner.
fn fill(table: &mut Table, waiters: u32) -> Result<Key, Refusal> {
    let owner = table.begin()?;
    table.acquire(owner, 0)?;
    for _ in 0..waiters {
        let key = table.begin()?;
        table.acquire(key, 0)?;
    }
    Ok(owner)
}

fn hand_overs(alloc: Global, waiters: u32, count: u64) -> Result<u64, Refusal> {
    let mut table = open_for(alloc, waiters)?;
    let accepted = fill_and_pass_around(&mut table, waiters, count);
    drop(table);
    accepted
}

/// Fills the queue, and passes resource 0 on.
fn fill_and_pass_around(table: &mut Table, waiters: u32, count: u64) -> Result<u64, Refusal> {
    let owner = fill(table, waiters)?;
    pass_around(table, owner, count)
}

/// Passes resource 0 on this many times. Answers how many events were accepted.
fn pass_around(table: &mut Table, first: Key, count: u64) -> Result<u64, Refusal> {
    let mut owner = first;
    for _ in 0..count {
        owner = pass_on(table, owner)?;
    }
    Ok(table.totals().accepted)
}

/// One transaction owns a resource and `waiters` wait for it. `count` times its owner releases it and waits for it again.
#[unsafe(no_mangle)]
pub extern "C" fn mm_bench_hand_overs(alloc: Global, waiters: u32, count: u64) -> u64 {
    hand_overs(alloc, waiters, count).unwrap_or(0)
}

fn give_ups(alloc: Global, waiters: u32, count: u64) -> Result<u64, Refusal> {
    let mut table = open_for(alloc, waiters)?;
    let accepted = fill_and_take_turns(&mut table, waiters, count);
    drop(table);
    accepted
}

/// Fills the queue, and lets the waiters take turns.
fn fill_and_take_turns(table: &mut Table, waiters: u32, count: u64) -> Result<u64, Refusal> {
    fill(table, waiters)?;
    take_turns(table, waiters, count)
}

/// The waiters from the middle of the queue on take turns, so it is always the one in the middle that gives up. Answers how many events
/// were accepted.
fn take_turns(table: &mut Table, waiters: u32, count: u64) -> Result<u64, Refusal> {
    let middle = waiters / 2 + 1;
    let mut process = middle;
    for _ in 0..count {
        let key = Key {
            process,
            generation: 1,
        };
        table.give_up(key)?;
        table.acquire(key, 0)?;
        process = if process < waiters {
            process + 1
        } else {
            middle
        };
    }
    Ok(table.totals().accepted)
}

/// One transaction owns a resource and `waiters` wait for it. `count` times the one in the middle of the queue gives up, and then waits
/// again, last in the queue.
#[unsafe(no_mangle)]
pub extern "C" fn mm_bench_give_ups(alloc: Global, waiters: u32, count: u64) -> u64 {
    give_ups(alloc, waiters, count).unwrap_or(0)
}
