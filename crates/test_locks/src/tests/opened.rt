//! How locks are opened and lent to threads. `on_locks` opens the locks, lends them to the threads, and drops them: so no test owns locks.

use crate::tests::clocks::Hand;
use crate::tests::helpers::{holds, same};
use crate::tests::steps::{End, Row, take};
use crate::tests::{again, alone, ends, patience, together, wakes};
use mm_locks::{Locks, LocksConfig, ManagerConfig, Totals};
use std::alloc::Global;
use std::process::Abort;
use std::sync::{Barrier, Wait};
use std::thread;
use std::thread::Threads;
use std::time::Clock;

/// What threads do with locks.
#[derive(Clone, Copy)]
pub enum Work {
    /// Each makes its steps.
    Rows(&'static [Row]),
    EachName,
    ManyNames,
    OneNameByTwo,
    /// One transaction may own this many names.
    Bulk(u64),
    Sessions,
    Cross,
    CrossOnce,
    /// The manager has room for one name: one transaction may own this many.
    OnePlace(u64),
    Portions(End),
    Outcomes,
    /// One makes this many attempts, and gives up.
    GiveUp(u32),
    Pause,
    GoBack,
    GiveIn,
    Patience,
    BehindDeadlock,
    Wakes,
}

impl Work {
    /// What the thread of this number does.
    fn part<R: Wait + Clock + Abort>(
        self,
        rt: &R,
        locks: &Locks,
        gate: &Barrier,
        hand: &Hand,
        number: usize,
    ) {
        match self {
            Work::Rows(rows) => take(rt, locks, gate, rows, number),
            Work::EachName => alone::each_name_is_known(rt, locks),
            Work::ManyNames => alone::many_names_and_a_long_one(rt, locks),
            Work::OneNameByTwo => alone::one_name_by_two(rt, locks),
            Work::Bulk(most) => alone::is_refused_a_bulk(rt, locks, most),
            Work::Sessions => alone::sessions_are_full(rt, locks),
            Work::Cross => together::cross_often(rt, locks, gate, number),
            Work::CrossOnce => together::cross_once(rt, locks, gate, number),
            Work::OnePlace(most) => together::share_one_place(rt, locks, gate, number, most),
            Work::Portions(end) => ends::hand_over_in_portions(rt, locks, gate, hand, number, end),
            Work::Outcomes => again::outcomes(rt, locks, gate),
            Work::GiveUp(attempts) => again::give_up(rt, locks, gate, number, attempts),
            Work::Pause => again::pause(rt, locks, gate, number),
            Work::GoBack => again::go_back_once(rt, locks, gate, number),
            Work::GiveIn => again::give_in_once(rt, locks, gate, number),
            Work::Patience => patience::each_time_passes(rt, locks),
            Work::BehindDeadlock => patience::behind_a_deadlock(rt, locks, gate, hand, number),
            Work::Wakes => wakes::one_wakes_all(rt, locks, gate, number),
        }
    }
}

/// What the manager is to have counted when the threads have ended. It does not see a transaction whose names nobody else asked for.
#[derive(Clone, Copy)]
pub struct Counts {
    /// How many were committed, at the most.
    pub committed: u64,
    /// How many were rolled back, at the most.
    pub aborted: u64,
    /// How many requests were told of a deadlock.
    pub deadlocks: u64,
    /// How many requests were told to wait, at the least.
    pub waits: u64,
    /// How many requests were taken back.
    pub withdrawn: u64,
}

impl Counts {
    pub const NONE: Counts = Counts {
        committed: 0,
        aborted: 0,
        deadlocks: 0,
        waits: 0,
        withdrawn: 0,
    };

    /// Ends the test unless the manager has counted so.
    fn are<R: Wait + Clock + Abort>(&self, rt: &R, locks: &Locks) {
        let Totals {
            committed,
            aborted,
            deadlocks,
            waits,
            withdrawn,
            ..
        } = locks.totals(rt);
        holds(rt, "no more were committed", committed <= self.committed);
        holds(rt, "no more were rolled back", aborted <= self.aborted);
        same(rt, deadlocks, self.deadlocks);
        holds(rt, "so many were told to wait", waits >= self.waits);
        same(rt, withdrawn, self.withdrawn);
    }
}

/// What a test does at locks of which sizes.
#[derive(Clone, Copy)]
pub struct Case {
    pub transactions: u32,
    pub names: u32,
    pub names_each: u32,
    pub threads: usize,
    pub work: Work,
    /// What comes of it, where that is the same each time.
    pub counts: Option<Counts>,
}

impl Case {
    /// Lets the threads do the work at once, and looks at what came of it.
    fn done<R: Threads + Wait + Clock + Abort + Sync>(&self, rt: &R, alloc: Global, locks: &Locks) {
        let gate = &Barrier::new(self.threads);
        let hand = &Hand::new();
        let work = self.work;
        let _ended = thread::map_indices(
            rt,
            alloc,
            self.threads,
            &|number| work.part(rt, locks, gate, hand, number),
        )
        .expect(rt, "memory");
        if let Some(counts) = self.counts {
            counts.are(rt, locks);
        }
    }
}

/// How many bytes a name may have.
const NAME_BYTES: u32 = 80;

/// Opens locks of so many buckets for the case, lets its threads do the work, and looks at what came of it.
pub fn on_locks<R: Threads + Wait + Clock + Abort + Sync>(
    rt: &R,
    alloc: Global,
    case: &Case,
    buckets: u32,
) {
    let config = LocksConfig {
        manager: ManagerConfig {
            transactions: case.transactions,
            names: case.names,
            name_bytes: NAME_BYTES,
            names_each: case.names_each,
            seed: 7,
        },
        buckets,
    };
    let locks = Locks::open(alloc, config).expect(rt, "memory");
    case.done(rt, alloc, &locks);
    drop(locks);
}

/// One bucket for all names: as soon as two names are locked, both are the manager's.
pub const ONE_BUCKET: u32 = 1;

/// Fewer buckets than there are names.
pub const FEW_BUCKETS: u32 = 4;

/// More buckets than there are names: most names are taken by their words.
pub const MANY_BUCKETS: u32 = 4_096;

/// The numbers of buckets with which a case runs.
const BUCKETS: [u32; 3] = [ONE_BUCKET, FEW_BUCKETS, MANY_BUCKETS];

/// Runs the case at locks of one bucket, of a few, and of many.
pub fn on_each<R: Threads + Wait + Clock + Abort + Sync>(rt: &R, alloc: Global, case: &Case) {
    for buckets in BUCKETS {
        on_locks(rt, alloc, case, buckets);
    }
}
