//! A whole program with a table inside: two transactions lock crosswise, a settle finds the deadlock, one of them is aborted, and the
//! other one is woken.
#![tactic(auto)]

ghost use Rattle.std.specs.Prelude.{◌≤◌, vec_capacity};

use mm_table::{Config, Key, Mode, Refusal, Table};
use std::alloc::Global;
use std::io;
use std::rt::Runtime;

const CONFIG: Config = Config {
    processes: 2,
    resources: 2,
    label_limit: 1_000_000,
    generation_limit: 9,
};

/// Begins a transaction that owns this resource.
fn begin_with(table: &mut Table, resource: u32) -> Result<Key, Refusal> {
    let key = table.begin()?;
    table.acquire(key, resource)?;
    Ok(key)
}

/// Two transactions own a resource each, and then each asks for the other's.
fn lock_crosswise(table: &mut Table) -> Result<(), Refusal> {
    let first = begin_with(table, 0)?;
    let second = begin_with(table, 1)?;
    table.acquire(first, 1)?;
    table.acquire(second, 0)?;
    Ok(())
}

/// Tells each of these processes' transactions what has become of it, and returns the last one that has a verdict.
fn tell<R: Runtime>(rt: &R, table: &Table, processes: &[u32]) -> io::Result<Option<Key>> {
    let mut convicted = None;
    for process in processes {
        let Some(key) = table.tenant(*process) else {
            println!(rt; "process {process}: its transaction is gone")?;
            continue;
        };
        match table.state(key) {
            Ok(state) => match state.mode {
                Mode::Active => println!(rt; "{key}: wake up, and go on")?,
                Mode::Waiting(resource) => println!(rt; "{key}: wait on for {resource}")?,
                Mode::Convicted(_) => {
                    println!(rt; "{key}: abort")?;
                    convicted = Some(key);
                }
            },
            Err(refusal) => println!(rt; "{key}: {refusal}")?,
        }
    }
    Ok(convicted)
}

/// Settles, and aborts a transaction that has a verdict. `changed` has room for each process that a table may have.
fn break_deadlock<R: Runtime>(rt: &R, table: &mut Table, changed: &mut Vec<u32>) -> io::Result<()>
    requires room { 65536 ≤ vec_capacity changed.old }
{
    table.keeps_laws();
    if let Ok(settled) = table.settle_waking(changed) {
        println!(rt;
            "settled: {} raised, {} convicted",
            settled.raises, settled.verdicts
        )?;
        if let Some(key) = tell(rt, table, changed.as_slice())? {
            table.keeps_laws();
            if table.abort_waking(key, changed).is_ok() {
                println!(rt; "{key} is aborted")?;
                tell(rt, table, changed.as_slice())?;
            }
        }
    }
    Ok(())
}

/// Locks crosswise, and breaks the deadlock.
fn lock_and_settle<R: Runtime>(rt: &R, table: &mut Table, changed: &mut Vec<u32>) -> io::Result<()>
    requires room { 65536 ≤ vec_capacity changed.old }
{
    match lock_crosswise(table) {
        Ok(()) => break_deadlock(rt, table, changed),
        Err(refusal) => println!(rt; "refused: {refusal}"),
    }
}

/// Opens a table, and does so.
fn run<R: Runtime>(rt: &R, alloc: Global, changed: &mut Vec<u32>) -> io::Result<()>
    requires room { 65536 ≤ vec_capacity changed.old }
{
    let Ok(mut table) = Table::open(alloc, CONFIG) else {
        return println!(rt; "no memory");
    };
    let done = lock_and_settle(rt, &mut table, changed);
    drop(table);
    done
}

fn main(rt: HostRuntime) -> io::Result<()> {
    let Ok(mut changed) = Vec::with_capacity(rt.alloc(), Config::MAX_PROCESSES as usize) else {
        return println!(rt; "no memory");
    };
    run(&rt, rt.alloc(), &mut changed)
}
