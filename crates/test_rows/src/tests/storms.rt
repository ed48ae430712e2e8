//! A generated workload that is made twice.

use crate::tests::same::same;
use mm_workload::{Config, WorkFault, Workload, storm};
use std::alloc::Global;
use std::process::Abort;
use std::test::Fail;

/// A storm of eight clients and two transmitters.
fn first_storm(alloc: Global) -> Result<Workload, WorkFault> {
    storm(alloc, 1, 8, 2)
}

/// The table of the storm.
const CONFIG: Config = Config {
    processes: 8,
    resources: 8,
    label_limit: 1_000_000_000,
    generation_limit: 9,
};

/// Ends the test unless both are one workload with these numbers.
fn are_equal(rt: &impl Abort, one: &Workload, other: &Workload) {
    for work in [one, other] {
        let workers = (work.clients().len(), work.transmitters());
        same(
            rt,
            (work.config(), workers, work.turns()),
            (CONFIG, (8, 2), 10_000_000),
        );
    }
    for (steps, others) in one.clients().iter().zip(other.clients()) {
        same(rt, steps.as_slice(), others.as_slice());
    }
}

#[test]
fn a_storm_is_made_twice(rt: HostRuntime) -> Result<(), Fail> {
    let one = first_storm(rt.alloc())?;
    let other = first_storm(rt.alloc())?;
    are_equal(&rt, &one, &other);
    Ok(())
}
