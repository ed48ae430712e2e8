//! The calls of a settled table that need no settle, and those of a table in the same loops.
//!
//! Each loop comes in two forms. One borrows its table and stands apart, so that what surrounds it changes nothing of how it is compiled.
//! The other is part of the function that owns the table: there a compiler may keep what a loop counts in registers.
use crate::{PROCESSES, open};
use mm_settled::SettledTable;
use mm_table::{Config, Key, Refusal, Table};
use std::alloc::Global;

/// The transaction that begins first.
const FIRST: Key = Key {
    process: 0,
    generation: 1,
};

/// A settled table with the widest limits.
fn open_settled(alloc: Global) -> Result<SettledTable, Refusal> {
    SettledTable::open(
        alloc,
        Config {
            processes: PROCESSES,
            resources: Config::MAX_RESOURCES,
            label_limit: Config::MAX_LABEL_LIMIT,
            generation_limit: u32::MAX,
        },
    )
}

/// Begins this many transactions.
#[inline(always)]
fn begin_settled(table: &mut SettledTable, begins: u32) -> Result<(), Refusal> {
    for _ in 0..begins {
        table.begin()?;
    }
    Ok(())
}

/// The first transaction locks resources up to `locks`.
#[inline(always)]
fn lock_settled(table: &mut SettledTable, locks: u32) -> Result<(), Refusal> {
    for resource in 0..locks {
        table.acquire(FIRST, resource)?;
    }
    Ok(())
}

#[inline(never)]
fn begin_borrowed(table: &mut SettledTable, begins: u32) -> Result<(), Refusal> {
    begin_settled(table, begins)
}

#[inline(never)]
fn lock_borrowed(table: &mut SettledTable, locks: u32) -> Result<(), Refusal> {
    lock_settled(table, locks)
}

/// Makes these calls in loops that stand apart, and answers how many events were accepted.
fn make_borrowed(table: &mut SettledTable, begins: u32, locks: u32) -> Result<u64, Refusal> {
    begin_borrowed(table, begins)?;
    lock_borrowed(table, locks)?;
    Ok(table.table().totals().accepted)
}

/// Makes these calls in place, and answers how many events were accepted.
#[inline(always)]
fn make_owned(table: &mut SettledTable, begins: u32, locks: u32) -> Result<u64, Refusal> {
    begin_settled(table, begins)?;
    lock_settled(table, locks)?;
    Ok(table.table().totals().accepted)
}

fn settled_borrowed(alloc: Global, begins: u32, locks: u32) -> Result<u64, Refusal> {
    let mut table = open_settled(alloc)?;
    let accepted = make_borrowed(&mut table, begins, locks);
    drop(table);
    accepted
}

fn settled_owned(alloc: Global, begins: u32, locks: u32) -> Result<u64, Refusal> {
    let mut table = open_settled(alloc)?;
    let accepted = make_owned(&mut table, begins, locks);
    drop(table);
    accepted
}

/// Begins this many transactions.
#[inline(always)]
fn begin_plain(table: &mut Table, begins: u32) -> Result<(), Refusal> {
    for _ in 0..begins {
        table.begin()?;
    }
    Ok(())
}

/// The first transaction acquires resources up to `locks`.
#[inline(always)]
fn acquire_plain(table: &mut Table, locks: u32) -> Result<(), Refusal> {
    for resource in 0..locks {
        table.acquire(FIRST, resource)?;
    }
    Ok(())
}

#[inline(never)]
fn begin_plain_borrowed(table: &mut Table, begins: u32) -> Result<(), Refusal> {
    begin_plain(table, begins)
}

#[inline(never)]
fn acquire_plain_borrowed(table: &mut Table, locks: u32) -> Result<(), Refusal> {
    acquire_plain(table, locks)
}

/// Makes the same calls of a table in loops that stand apart.
fn make_plain_borrowed(table: &mut Table, begins: u32, locks: u32) -> Result<u64, Refusal> {
    begin_plain_borrowed(table, begins)?;
    acquire_plain_borrowed(table, locks)?;
    Ok(table.totals().accepted)
}

/// Makes the same calls of a table in place.
#[inline(always)]
fn make_plain_owned(table: &mut Table, begins: u32, locks: u32) -> Result<u64, Refusal> {
    begin_plain(table, begins)?;
    acquire_plain(table, locks)?;
    Ok(table.totals().accepted)
}

fn plain_borrowed(alloc: Global, begins: u32, locks: u32) -> Result<u64, Refusal> {
    let mut table = open(alloc, PROCESSES, Config::MAX_RESOURCES)?;
    let accepted = make_plain_borrowed(&mut table, begins, locks);
    drop(table);
    accepted
}

fn plain_owned(alloc: Global, begins: u32, locks: u32) -> Result<u64, Refusal> {
    let mut table = open(alloc, PROCESSES, Config::MAX_RESOURCES)?;
    let accepted = make_plain_owned(&mut table, begins, locks);
    drop(table);
    accepted
}

/// In a settled table of `PROCESSES` processes, `begins` transactions begin, and the first locks as many resources as `locks` says. The
/// loops borrow the table.
#[unsafe(no_mangle)]
pub extern "C" fn mm_bench_settled_borrowed(alloc: Global, begins: u32, locks: u32) -> u64 {
    settled_borrowed(alloc, begins, locks).unwrap_or(0)
}

/// The same in loops of the function that owns the settled table.
#[unsafe(no_mangle)]
pub extern "C" fn mm_bench_settled_owned(alloc: Global, begins: u32, locks: u32) -> u64 {
    settled_owned(alloc, begins, locks).unwrap_or(0)
}

/// The same in a table, in loops that borrow it.
#[unsafe(no_mangle)]
pub extern "C" fn mm_bench_plain_borrowed(alloc: Global, begins: u32, locks: u32) -> u64 {
    plain_borrowed(alloc, begins, locks).unwrap_or(0)
}

/// The same in loops of the function that owns the table.
#[unsafe(no_mangle)]
pub extern "C" fn mm_bench_plain_owned(alloc: Global, begins: u32, locks: u32) -> u64 {
    plain_owned(alloc, begins, locks).unwrap_or(0)
}
