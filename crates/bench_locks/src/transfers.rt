//! Transactions of four locks, each of which is made again after a deadlock.

use crate::names::{chosen, names_of};
use crate::shared::{Done, Shared, Way};
use mm_locks::{LockError, Session};
use rand_pcg::Lcg64Xsh32;
use std::sync::Wait;
use std::time::Clock;

/// How many names a transaction locks.
const COUNT: usize = 4;

/// A transaction that locks these names one after the other.
fn one_by_one<R: Wait + Clock>(
    session: &mut Session<'_, '_, R>,
    names: &[&[u8]],
) -> Result<(), LockError> {
    let mut transaction = session.begin();
    for name in names {
        transaction.lock(name)?;
    }
    transaction.commit()
}

/// The same by one call.
fn all_at_once<R: Wait + Clock>(
    session: &mut Session<'_, '_, R>,
    names: &[&[u8]],
) -> Result<(), LockError> {
    let mut transaction = session.begin();
    transaction.lock_all(names)?;
    transaction.commit()
}

/// The same by `run`.
fn run<R: Wait + Clock>(
    session: &mut Session<'_, '_, R>,
    names: &[&[u8]],
) -> Result<(), LockError> {
    mm_locks::run(session.begin(), u32::MAX, |transaction| {
        transaction.lock_all(names)?;
        Ok(())
    })
}

/// One transaction, be it committed or not.
fn transfer<R: Wait + Clock>(
    session: &mut Session<'_, '_, R>,
    way: Way,
    names: &[&[u8]],
) -> Result<(), LockError> {
    match way {
        Way::One => one_by_one(session, names),
        Way::All => all_at_once(session, names),
        _ => run(session, names),
    }
}

/// Makes a transaction of four names by chance until it is committed.
pub fn transfer_at_last<R: Wait + Clock>(
    session: &mut Session<'_, '_, R>,
    shared: &Shared<'_>,
    random: &mut Lcg64Xsh32,
) -> Done {
    let mut done = Done::NOTHING;
    let bound = shared.names.len().min(65_536) as u32;
    if bound == 0 {
        return done;
    }
    let numbers = chosen(random, bound, COUNT);
    let names = names_of(shared.names, &numbers);
    for _ in 0..u64::MAX {
        if transfer(session, shared.way, &names[..COUNT]).is_ok() {
            break;
        }
        done.aborts = done.aborts.saturating_add(1);
    }
    done.commits = 1;
    done
}
