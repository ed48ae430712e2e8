//! Threads that do more than a script can say: each case with the numbers of its locks, and what comes of it.

use crate::tests::again::PAUSED;
use crate::tests::opened::{
    Case, Counts, FEW_BUCKETS, MANY_BUCKETS, ONE_BUCKET, Work, on_each, on_locks,
};
use crate::tests::steps::End;
use crate::tests::wakes::WAITERS;

/// One thread at names of which the manager can have all.
const ONE: Case = Case {
    transactions: 4,
    names: 32,
    names_each: 0,
    threads: 1,
    work: Work::EachName,
    counts: None,
};

/// Two threads at such names.
const TWO: Case = Case { threads: 2, ..ONE };

#[test]
fn each_name_is_known(rt: HostRuntime) {
    on_each(&rt, rt.alloc(), &ONE);
}

#[test]
fn many_names_and_a_long_one(rt: HostRuntime) {
    let case = Case {
        work: Work::ManyNames,
        ..ONE
    };
    on_each(&rt, rt.alloc(), &case);
}

#[test]
fn one_name_by_two(rt: HostRuntime) {
    let case = Case {
        work: Work::OneNameByTwo,
        ..ONE
    };
    on_each(&rt, rt.alloc(), &case);
}

#[test]
fn sessions_are_full(rt: HostRuntime) {
    let case = Case {
        transactions: 2,
        work: Work::Sessions,
        ..ONE
    };
    on_each(&rt, rt.alloc(), &case);
}

/// One that owns as many names as one may is refused the others: with one bucket all are the manager's, and with many sixteen are locked by
/// their words, and one in the manager.
#[test]
fn a_bulk_is_refused(rt: HostRuntime) {
    for (buckets, most) in [(ONE_BUCKET, 1), (MANY_BUCKETS, 17)] {
        let case = Case {
            names_each: 1,
            work: Work::Bulk(most),
            ..ONE
        };
        on_locks(&rt, rt.alloc(), &case, buckets);
    }
}

#[test]
fn threads_that_cross(rt: HostRuntime) {
    let case = Case {
        work: Work::Cross,
        ..TWO
    };
    on_each(&rt, rt.alloc(), &case);
}

/// One of the two is told of the deadlock, once, and the same again before it has given something back. Both commit.
#[test]
fn both_of_a_deadlock_commit(rt: HostRuntime) {
    let case = Case {
        work: Work::CrossOnce,
        counts: Some(Counts {
            committed: 2,
            deadlocks: 2,
            waits: 1,
            ..Counts::NONE
        }),
        ..TWO
    };
    on_each(&rt, rt.alloc(), &case);
}

/// Two threads at a manager that has room for one name.
const ONE_PLACE: Case = Case {
    names: 1,
    work: Work::OnePlace(1),
    ..TWO
};

/// One name has the bucket.
#[test]
fn one_place_in_one_bucket(rt: HostRuntime) {
    on_locks(&rt, rt.alloc(), &ONE_PLACE, ONE_BUCKET);
}

/// One transaction can lock sixteen names by their words, and one in the manager.
#[test]
fn one_place_in_many_buckets(rt: HostRuntime) {
    let case = Case {
        work: Work::OnePlace(17),
        ..ONE_PLACE
    };
    on_locks(&rt, rt.alloc(), &case, MANY_BUCKETS);
}

/// A transaction with many names ends in portions: while it goes on, one of the names has been granted.
const MANY_NAMES: Case = Case {
    names: 1_024,
    work: Work::Portions(End::Commit),
    ..TWO
};

#[test]
fn a_commit_hands_over_in_portions(rt: HostRuntime) {
    on_locks(&rt, rt.alloc(), &MANY_NAMES, MANY_BUCKETS);
}

#[test]
fn a_drop_hands_over_in_portions(rt: HostRuntime) {
    let case = Case {
        work: Work::Portions(End::Drop),
        ..MANY_NAMES
    };
    on_locks(&rt, rt.alloc(), &case, MANY_BUCKETS);
}

/// The last thread owns twelve names, and commits once each has a waiter. Each of the thirteen has ended then.
#[test]
fn a_commit_wakes_all(rt: HostRuntime) {
    let case = Case {
        transactions: 13,
        names: 12,
        threads: 13,
        work: Work::Wakes,
        counts: Some(Counts {
            committed: 13,
            waits: WAITERS as u64,
            ..Counts::NONE
        }),
        ..ONE
    };
    on_each(&rt, rt.alloc(), &case);
}

/// A value is returned once its transaction is committed; an error of the work is returned, and its transaction rolled back. Four look whether
/// a name is free then.
#[test]
fn returns_what_came(rt: HostRuntime) {
    let case = Case {
        transactions: 2,
        names: 2,
        work: Work::Outcomes,
        counts: Some(Counts {
            committed: 2,
            aborted: 2 + 4,
            ..Counts::NONE
        }),
        ..ONE
    };
    on_each(&rt, rt.alloc(), &case);
}

/// Two transactions over two names, one of which is told of a deadlock.
const CLOSE: Case = Case {
    transactions: 2,
    names: 2,
    ..TWO
};

/// If each attempt meets a deadlock, the last one's error is returned. Each attempt was made, and rolled back.
#[test]
fn ends_after_so_many_attempts(rt: HostRuntime) {
    let case = Case {
        work: Work::GiveUp(3),
        counts: Some(Counts {
            committed: 3,
            aborted: 3,
            deadlocks: 3,
            waits: 3,
            ..Counts::NONE
        }),
        ..CLOSE
    };
    on_each(&rt, rt.alloc(), &case);
}

/// Between the attempts there are pauses. Each roll-back of an attempt yields the processor often, which takes long if others want it: so there
/// is a test for each number of buckets.
const PAUSES: Case = Case {
    work: Work::Pause,
    counts: Some(Counts {
        committed: PAUSED as u64,
        aborted: PAUSED as u64,
        deadlocks: PAUSED as u64,
        waits: PAUSED as u64,
        ..Counts::NONE
    }),
    ..CLOSE
};

#[test]
fn pauses_in_one_bucket(rt: HostRuntime) {
    on_locks(&rt, rt.alloc(), &PAUSES, ONE_BUCKET);
}

#[test]
fn pauses_in_few_buckets(rt: HostRuntime) {
    on_locks(&rt, rt.alloc(), &PAUSES, FEW_BUCKETS);
}

#[test]
fn pauses_in_many_buckets(rt: HostRuntime) {
    on_locks(&rt, rt.alloc(), &PAUSES, MANY_BUCKETS);
}

/// Work that goes back to a savepoint after a deadlock, and then succeeds, is committed.
#[test]
fn goes_back_to_a_savepoint(rt: HostRuntime) {
    let case = Case {
        names: 3,
        work: Work::GoBack,
        counts: Some(Counts {
            committed: 2,
            deadlocks: 1,
            waits: 1,
            ..Counts::NONE
        }),
        ..CLOSE
    };
    on_each(&rt, rt.alloc(), &case);
}

/// Work that goes back to a savepoint after a deadlock, and then fails, is not done again.
#[test]
fn gives_in_after_a_savepoint(rt: HostRuntime) {
    let case = Case {
        names: 3,
        work: Work::GiveIn,
        counts: Some(Counts {
            committed: 1,
            aborted: 1,
            deadlocks: 1,
            waits: 1,
            ..Counts::NONE
        }),
        ..CLOSE
    };
    on_each(&rt, rt.alloc(), &case);
}

/// A request for a name that stays owned is not taken back before its time.
#[test]
fn waits_its_time(rt: HostRuntime) {
    let case = Case {
        threads: 1,
        work: Work::Patience,
        counts: Some(Counts {
            committed: 1,
            aborted: 7,
            waits: 7,
            withdrawn: 7,
            ..Counts::NONE
        }),
        ..CLOSE
    };
    on_each(&rt, rt.alloc(), &case);
}

/// A request behind one that was told of a deadlock is taken back once its time is up. The two of the deadlock commit, by a savepoint.
#[test]
fn behind_a_deadlock(rt: HostRuntime) {
    let case = Case {
        transactions: 3,
        threads: 3,
        work: Work::BehindDeadlock,
        counts: Some(Counts {
            committed: 2,
            aborted: 1,
            deadlocks: 1,
            waits: 2,
            withdrawn: 1,
        }),
        ..CLOSE
    };
    on_each(&rt, rt.alloc(), &case);
}
