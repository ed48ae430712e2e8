//! Calls on resources of a large table, one here and one there.
use crate::names::next_number;
use crate::{PROCESSES, open};
use mm_table::{Config, Key, Refusal, Table};
use std::alloc::Global;

/// The transaction that owns a resource.
fn owner_of(resource: u32) -> Key {
    Key {
        process: resource % PROCESSES,
        generation: 1,
    }
}

fn random(alloc: Global, count: u64) -> Result<u64, Refusal> {
    let mut table = open(alloc, PROCESSES, Config::MAX_RESOURCES)?;
    let accepted = own_and_change_hands(&mut table, count);
    drop(table);
    accepted
}

/// Has all resources owned, and then has them change hands. Answers how many events were accepted.
fn own_and_change_hands(table: &mut Table, count: u64) -> Result<u64, Refusal> {
    own_all(table)?;
    change_hands(table, count)
}

/// Begins `PROCESSES` transactions, which acquire all resources.
fn own_all(table: &mut Table) -> Result<(), Refusal> {
    for _ in 0..PROCESSES {
        table.begin()?;
    }
    for resource in 0..Config::MAX_RESOURCES {
        table.acquire(owner_of(resource), resource)?;
    }
    Ok(())
}

/// Releases a resource by chance and acquires it again, this many times. Answers how many events were accepted.
fn change_hands(table: &mut Table, count: u64) -> Result<u64, Refusal> {
    let mut number = 1;
    for _ in 0..count {
        number = next_number(number);
        let resource = number % Config::MAX_RESOURCES;
        let key = owner_of(resource);
        table.release(key, resource)?;
        table.acquire(key, resource)?;
    }
    Ok(table.totals().accepted)
}

/// This many transactions as `PROCESSES` says own all resources. `count` times one of these, as by chance, is released and acquired again.
#[unsafe(no_mangle)]
pub extern "C" fn mm_bench_random(alloc: Global, count: u64) -> u64 {
    random(alloc, count).unwrap_or(0)
}
