//! A table that is opened, timed and dropped.
ghost use Rattle.std.specs.Prelude.{◌≡◌};

use crate::board::{Work, time_of_work};
use crate::seat::{Calls, Seat};
use crate::threads::time_at_once;
use mm_shared::{Name, Pass, Prepared, SharedTable};
use std::alloc::{AllocError, Global};
use std::sync::Wait;
use std::sync::ledger::Ledger;
use std::thread::Threads;
use std::time::Clock;

/// What is done with a table.
#[derive(Clone, Copy)]
pub enum Task {
    /// This many threads make transactions.
    Threads(u32),
    /// One thread does this work.
    Work(Work),
}

impl Task {
    /// How many threads call the table.
    fn threads(self) -> u32 {
        match self {
            Task::Threads(threads) => threads,
            Task::Work(Work::PeeksBeside) => 2,
            Task::Work(_) => 1,
        }
    }

    /// Does the task at these seats.
    fn done<C: Calls + Send + Drop, R: Threads + Wait + Clock + Sync>(
        self,
        rt: &R,
        alloc: Global,
        seats: Vec<C>,
        count: u32,
    ) -> Result<Taken, AllocError> {
        let mut seats = seats;
        match self {
            Task::Threads(_) => time_at_once(rt, alloc, seats, count),
            Task::Work(work) => Ok(Taken {
                nanoseconds: time_of_work(rt, &mut seats, work, count),
                done: None,
            }),
        }
    }
}

/// How many nanoseconds it took, and how many transactions threads have done.
#[derive(Clone, Copy)]
pub struct Taken {
    pub nanoseconds: u64,
    pub done: Option<u64>,
}

/// Does the task on a table that was prepared for it.
pub fn timed<
    N: Name + Send + Sync,
    A: Ledger + Send + Sync,
    V: Ledger + Send + Sync,
    B: Ledger + Send + Sync,
    R: Threads + Wait + Clock + Sync,
>(rt: &R, alloc: Global, prepared: Prepared, task: Task, count: u32) -> Result<Taken, AllocError>
    requires board { prepared.board ≡ N.board }
    requires accepted { (prepared.accepted.name ≡ A.name) × (prepared.accepted.parts ≡ A.parts) }
    requires verdicts { (prepared.verdicts.name ≡ V.name) × (prepared.verdicts.parts ≡ V.parts) }
    requires aborts { (prepared.aborts.name ≡ B.name) × (prepared.aborts.parts ≡ B.parts) }
{
    let (table, mut pass) = prepared.open::<N, A, V, B>();
    let taken = timed_on(rt, alloc, &table, &mut pass, task, count);
    drop(table);
    taken
}

/// Seats for this many threads at the table.
fn seats<'a, N: Name, A: Ledger, V: Ledger, B: Ledger, R: Wait>(
    rt: &'a R,
    alloc: Global,
    table: &'a SharedTable<N, A, V, B>,
    pass: &mut Pass<N, A, V, B>,
    count: u32,
) -> Result<Vec<Seat<'a, N, A, V, B, R>>, AllocError> {
    let mut seats = Vec::new(alloc);
    for _ in 0..count {
        if pass.parts() > 1 {
            seats.push(Seat::new(rt, table, pass.split(table, 1)))?;
        }
    }
    Ok(seats)
}

/// The same, on a table that is open.
fn timed_on<
    'a,
    N: Name + Send + Sync,
    A: Ledger + Send + Sync,
    V: Ledger + Send + Sync,
    B: Ledger + Send + Sync,
    R: Threads + Wait + Clock + Sync,
>(
    rt: &'a R,
    alloc: Global,
    table: &'a SharedTable<N, A, V, B>,
    pass: &mut Pass<N, A, V, B>,
    task: Task,
    count: u32,
) -> Result<Taken, AllocError> {
    let seats = seats(rt, alloc, table, pass, task.threads())?;
    task.done(rt, alloc, seats, count)
}
