//! Tables that are opened and dropped.
use crate::open;
use mm_table::Refusal;
use std::alloc::Global;

fn openings(alloc: Global, processes: u32, count: u64) -> Result<u64, Refusal> {
    let mut opened: u64 = 0;
    for _ in 0..count {
        opened = opened.wrapping_add(opening(alloc, processes)?);
    }
    Ok(opened)
}

/// One table, in which a transaction begins. Answers how many events were accepted.
fn opening(alloc: Global, processes: u32) -> Result<u64, Refusal> {
    let mut table = open(alloc, processes, processes)?;
    let begun = table.begin();
    let accepted = table.totals().accepted;
    drop(table);
    begun?;
    Ok(accepted)
}

/// This many tables of `processes` processes and as many resources, one after another. In each one transaction begins.
#[unsafe(no_mangle)]
pub extern "C" fn mm_bench_openings(alloc: Global, processes: u32, count: u64) -> u64 {
    openings(alloc, processes, count).unwrap_or(0)
}
