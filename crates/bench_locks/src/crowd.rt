//! Transactions of one to six locks, each of which looks whether it is the only owner of its names.

use crate::names::{chosen, names_of};
use crate::shared::{Done, Shared};
use mm_locks::{LockError, Session};
use rand_core::utils::NextWord;
use rand_pcg::Lcg64Xsh32;
use std::sync::Wait;
use std::sync::atomic::Ordering::SeqCst;
use std::time::Clock;

impl Shared<'_> {
    /// Says of each of these names that it is owned, and takes that back. Returns how many were owned by another one too.
    fn owned_twice(&self, numbers: &[u32]) -> u64 {
        let mut twice = 0u64;
        for number in numbers {
            if let Some(count) = self.owners.get(*number as usize) {
                twice = twice.saturating_add(count.fetch_add(1, SeqCst));
            }
        }
        for number in numbers {
            if let Some(count) = self.owners.get(*number as usize) {
                count.fetch_sub(1, SeqCst);
            }
        }
        twice
    }
}

/// Locks these names, one after the other, and commits. Returns how many were owned by another one too.
fn visit_each<R: Wait + Clock>(
    session: &mut Session<'_, '_, R>,
    shared: &Shared<'_>,
    numbers: &[u32],
    names: &[&[u8]],
) -> Result<u64, LockError> {
    let mut transaction = session.begin();
    for name in names {
        transaction.lock(name)?;
    }
    let twice = shared.owned_twice(numbers);
    transaction.commit()?;
    Ok(twice)
}

/// The same by one call.
fn visit_all<R: Wait + Clock>(
    session: &mut Session<'_, '_, R>,
    shared: &Shared<'_>,
    numbers: &[u32],
    names: &[&[u8]],
) -> Result<u64, LockError> {
    let mut transaction = session.begin();
    transaction.lock_all(names)?;
    let twice = shared.owned_twice(numbers);
    transaction.commit()?;
    Ok(twice)
}

/// Locks these names, one after the other or by one call, and commits. Returns how many were owned by another one too.
fn visit<R: Wait + Clock>(
    session: &mut Session<'_, '_, R>,
    shared: &Shared<'_>,
    numbers: &[u32],
    names: &[&[u8]],
    is_one_call: bool,
) -> Result<u64, LockError> {
    if is_one_call {
        return visit_all(session, shared, numbers, names);
    }
    visit_each(session, shared, numbers, names)
}

/// One transaction, be it committed or not.
pub fn visit_by_chance<R: Wait + Clock>(
    session: &mut Session<'_, '_, R>,
    shared: &Shared<'_>,
    random: &mut Lcg64Xsh32,
) -> Done {
    let mut done = Done::NOTHING;
    let bound = shared.names.len().min(65_536) as u32;
    if bound == 0 {
        return done;
    }
    let count = 1 + (random.next_word() % 6) as usize;
    let is_one_call = random.next_word() % 2 == 0;
    let numbers = chosen(random, bound, count);
    let names = names_of(shared.names, &numbers);
    match visit(
        session,
        shared,
        &numbers[..count],
        &names[..count],
        is_one_call,
    ) {
        Ok(twice) => {
            done.commits = 1;
            done.shared = twice;
        }
        Err(_) => done.aborts = 1,
    }
    done
}
