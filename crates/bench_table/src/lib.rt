//! Workloads over a table, to be timed from outside.
//!
//! Each opens tables of its own, works on them in a loop, and answers how many events were accepted, or 0 if a call was
//! refused.
#![tactic(auto)]

ghost use Rattle.std.specs.Prelude.{◌≡◌};

use mm_table::{Config, Refusal, Table};
use std::alloc::Global;

mod blocks;
mod locks;
mod names;
mod openings;
mod queues;
mod random;
mod rings;
mod rounds;
mod settled;
mod withdrawals;

/// How many processes the tables have whose size is not what is timed.
const PROCESSES: u32 = 4_096;

/// A table with the widest limits.
fn open(alloc: Global, processes: u32, resources: u32) -> Result<Table, Refusal> {
    Table::open(
        alloc,
        Config {
            processes,
            resources,
            label_limit: Config::MAX_LABEL_LIMIT,
            generation_limit: u32::MAX,
        },
    )
}

/// Does nothing: what a call from C costs by itself.
#[unsafe(no_mangle)]
pub extern "C" fn mm_bench_nothing(number: u64) -> u64
    ensures { result ≡ number }
{
    number
}
