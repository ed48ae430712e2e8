//! Chains of transactions that come to wait, one after another, at one end.
use crate::rings::own_each;
use crate::{PROCESSES, open};
use mm_table::{Key, Refusal, Table};
use std::alloc::Global;

/// A wait between a process and the next one, which is settled: the process waits if `is_at_head`, and else the next one.
fn block(table: &mut Table, process: u32, is_at_head: bool) -> Result<(), Refusal> {
    let next = process.wrapping_add(1);
    let (waiter, holder) = if is_at_head {
        (process, next)
    } else {
        (next, process)
    };
    let key = Key {
        process: waiter,
        generation: 1,
    };
    table.acquire(key, holder)?;
    table.settle()?;
    Ok(())
}

/// From the process `first` on, this many come to wait.
fn extend(table: &mut Table, first: u32, waiting: u32, is_at_head: bool) -> Result<(), Refusal> {
    for place in 0..waiting {
        block(table, first.wrapping_add(place), is_at_head)?;
    }
    Ok(())
}

fn blocks(alloc: Global, room: u32, waiting: u32, is_at_head: bool) -> Result<u64, Refusal> {
    let mut table = open(alloc, PROCESSES, PROCESSES)?;
    let accepted = chains(&mut table, room, waiting, is_at_head);
    drop(table);
    accepted
}

/// Makes all chains that there is room for. Answers how many events were accepted.
fn chains(table: &mut Table, room: u32, waiting: u32, is_at_head: bool) -> Result<u64, Refusal> {
    own_each(table, PROCESSES)?;
    for chain in 0..PROCESSES.checked_div(room).unwrap_or(0) {
        extend(table, chain.wrapping_mul(room), waiting, is_at_head)?;
    }
    Ok(table.totals().accepted)
}

/// Makes as many chains of waits as there is room for, each of `room` processes, and settles each wait. In each chain `waiting` transactions
/// begin to wait, one after another. If `is_at_head`, each of them is the transaction that all earlier ones wait for; else each waits for
/// the one before it.
#[unsafe(no_mangle)]
pub extern "C" fn mm_bench_blocks(alloc: Global, room: u32, waiting: u32, is_at_head: bool) -> u64 {
    blocks(alloc, room, waiting, is_at_head).unwrap_or(0)
}
