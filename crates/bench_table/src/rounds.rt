//! Transactions that begin and end in one table, over and over.
use crate::open;
use mm_table::{Key, Refusal, Table};
use std::alloc::Global;

/// From one resource to the next. It is odd, so resources whose number is a power of two are gone through whole.
const STRIDE: u32 = 40_503;

/// Acquires sixteen resources from `first` on, and answers the next one.
fn take_sixteen(table: &mut Table, first: u32, mask: u32) -> Result<u32, Refusal> {
    let key = table.begin()?;
    let mut resource = first;
    for _ in 0..16 {
        table.acquire(key, resource & mask)?;
        resource = resource.wrapping_add(STRIDE);
    }
    table.finish(key)?;
    Ok(resource)
}

fn rounds(
    alloc: Global,
    processes: u32,
    resources: u32,
    mask: u32,
    others: u32,
    count: u64,
) -> Result<u64, Refusal> {
    let mut table = open(alloc, processes, resources)?;
    let last = resources.wrapping_sub(1);
    let accepted = crowd_and_take_turns(&mut table, others, last, mask, count);
    drop(table);
    accepted
}

/// This many transactions hold and await the last resource, while others take turns. Answers how many events were accepted.
fn crowd_and_take_turns(
    table: &mut Table,
    others: u32,
    last: u32,
    mask: u32,
    count: u64,
) -> Result<u64, Refusal> {
    crowd(table, others, last)?;
    take_turns(table, mask, count)
}

/// This many transactions hold and await a resource.
fn crowd(table: &mut Table, others: u32, resource: u32) -> Result<(), Refusal> {
    for _ in 0..others {
        let key = table.begin()?;
        table.acquire(key, resource)?;
    }
    Ok(())
}

/// This many transactions take sixteen resources each. Answers how many events were accepted.
fn take_turns(table: &mut Table, mask: u32, count: u64) -> Result<u64, Refusal> {
    let mut resource = 0;
    for _ in 0..count {
        resource = take_sixteen(table, resource, mask)?;
    }
    Ok(table.totals().accepted)
}

/// In a table of `processes` processes, `count` transactions one after another take sixteen resources each, of the numbers up to
/// `mask`, and finish. Meanwhile `others` transactions hold and await the last resource.
#[unsafe(no_mangle)]
pub extern "C" fn mm_bench_rounds(
    alloc: Global,
    processes: u32,
    resources: u32,
    mask: u32,
    others: u32,
    count: u64,
) -> u64 {
    rounds(alloc, processes, resources, mask, others, count).unwrap_or(0)
}

/// Begins two transactions.
#[inline(always)]
fn begin_two(table: &mut Table) -> Result<(Key, Key), Refusal> {
    let first = table.begin()?;
    let second = table.begin()?;
    Ok((first, second))
}

/// Each of two acquires a resource, and asks for that of the other.
#[inline(always)]
fn cross(table: &mut Table, first: Key, second: Key) -> Result<(), Refusal> {
    table.acquire(first, 0)?;
    table.acquire(second, 1)?;
    table.acquire(first, 1)?;
    table.acquire(second, 0)?;
    Ok(())
}

/// Two transactions wait for each other; the one that gets the verdict is aborted, and the other one finishes.
fn wait_crosswise(table: &mut Table) -> Result<(), Refusal> {
    let (first, second) = begin_two(table)?;
    cross(table, first, second)?;
    table.transmit(first)?;
    table.detect(second)?;
    table.abort(second)?;
    table.finish(first)
}

fn crosswise(alloc: Global, processes: u32, count: u64) -> Result<u64, Refusal> {
    let mut table = open(alloc, processes, processes)?;
    let accepted = deadlocks(&mut table, count);
    drop(table);
    accepted
}

/// This many deadlocks. Answers how many events were accepted.
fn deadlocks(table: &mut Table, count: u64) -> Result<u64, Refusal> {
    for _ in 0..count {
        wait_crosswise(table)?;
    }
    Ok(table.totals().accepted)
}

/// `count` deadlocks of two transactions, from begin to finish, in a table of this many processes and as many resources.
#[unsafe(no_mangle)]
pub extern "C" fn mm_bench_crosswise(alloc: Global, processes: u32, count: u64) -> u64 {
    crosswise(alloc, processes, count).unwrap_or(0)
}
