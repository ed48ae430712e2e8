//! Transactions that wait for one another in a row, which is closed to a ring.
use crate::open;
use mm_table::{Key, Refusal, Table};
use std::alloc::Global;

/// The process at a place of a row of `size`, in which each waits for the next place.
fn process_at(place: u32, size: u32, is_rising: bool) -> u32 {
    if is_rising {
        place
    } else {
        size.wrapping_sub(1).wrapping_sub(place)
    }
}

/// The transaction at one place waits for the one at another.
fn wait(table: &mut Table, size: u32, is_rising: bool, from: u32, to: u32) -> Result<(), Refusal> {
    let key = Key {
        process: process_at(from, size, is_rising),
        generation: 1,
    };
    table.acquire(key, process_at(to, size, is_rising))?;
    Ok(())
}

/// Begins `size` transactions, each of which acquires the resource of its own number.
pub fn own_each(table: &mut Table, size: u32) -> Result<(), Refusal> {
    for process in 0..size {
        let key = table.begin()?;
        table.acquire(key, process)?;
    }
    Ok(())
}

/// Each transaction but the last comes to wait for its neighbour, from the end on, so that no label is below its holder's.
fn wait_in_row(table: &mut Table, size: u32, is_rising: bool) -> Result<(), Refusal> {
    for place in (1..size).rev() {
        wait(table, size, is_rising, place - 1, place)?;
    }
    Ok(())
}

/// A row that is settled this many times and then, if `is_closed`, closed to a ring and settled again. Counts the verdict too.
fn ring(
    alloc: Global,
    size: u32,
    is_rising: bool,
    settles: u32,
    is_closed: bool,
) -> Result<u64, Refusal> {
    let mut table = open(alloc, size, size)?;
    let counted = wait_and_settle(&mut table, size, is_rising, settles, is_closed);
    drop(table);
    counted
}

/// Makes a row of `size` transactions, and does so.
fn wait_and_settle(
    table: &mut Table,
    size: u32,
    is_rising: bool,
    settles: u32,
    is_closed: bool,
) -> Result<u64, Refusal> {
    own_each(table, size)?;
    wait_in_row(table, size, is_rising)?;
    settle_ring(table, size, is_rising, settles, is_closed)
}

/// Settles a row this many times, closes it if `is_closed`, and settles it again.
fn settle_ring(
    table: &mut Table,
    size: u32,
    is_rising: bool,
    settles: u32,
    is_closed: bool,
) -> Result<u64, Refusal> {
    for _ in 0..settles {
        table.settle()?;
    }
    if is_closed {
        wait(table, size, is_rising, size.wrapping_sub(1), 0)?;
        table.settle()?;
    }
    let totals = table.totals();
    Ok(totals.accepted.wrapping_add(totals.verdicts))
}

/// `count` rows of `size` transactions, each in a table of its own, in which a process waits for the one after it if `is_rising`,
/// and else for the one before it. Each is settled `settles` times and then, if `is_closed`, closed to a ring and settled again.
#[unsafe(no_mangle)]
pub extern "C" fn mm_bench_rings(
    alloc: Global,
    size: u32,
    is_rising: bool,
    settles: u32,
    is_closed: bool,
    count: u64,
) -> u64 {
    let mut accepted: u64 = 0;
    for _ in 0..count {
        let more = ring(alloc, size, is_rising, settles, is_closed).unwrap_or(0);
        accepted = accepted.wrapping_add(more);
    }
    accepted
}

/// A row whose waits come from its head on, so that each label is below its holder's, settled this many times, in a table of this many
/// processes and as many resources.
fn chain(alloc: Global, processes: u32, size: u32, settles: u32) -> Result<u64, Refusal> {
    let mut table = open(alloc, processes, processes)?;
    let accepted = settle_chain(&mut table, size, settles);
    drop(table);
    accepted
}

/// Makes a row whose waits come from its head on, and settles it this many times. Answers how many events were accepted.
fn settle_chain(table: &mut Table, size: u32, settles: u32) -> Result<u64, Refusal> {
    own_each(table, size)?;
    for place in 1..size {
        wait(table, size, true, place - 1, place)?;
    }
    for _ in 0..settles {
        table.settle()?;
    }
    Ok(table.totals().accepted)
}

/// `count` rows of `size` transactions, each in a table of its own of this many processes and as many resources. The waits of a row come from
/// its head on, and it is settled this many times.
#[unsafe(no_mangle)]
pub extern "C" fn mm_bench_chains(
    alloc: Global,
    processes: u32,
    size: u32,
    settles: u32,
    count: u64,
) -> u64 {
    let mut accepted: u64 = 0;
    for _ in 0..count {
        let more = chain(alloc, processes, size, settles).unwrap_or(0);
        accepted = accepted.wrapping_add(more);
    }
    accepted
}
