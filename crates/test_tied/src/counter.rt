//! A plain lock: nothing is told.
use mm_tied::{Story, TiedMutex};
use std::alloc::{AllocError, Global};
use std::marker::Brand;
use std::sync::Wait;
use std::time::Clock;

/// Tells nothing.
pub struct Nothing;

impl<T> Story<T, (), ()> for Nothing {
    ghost state = { λ _. tt };

    ghost makes = { λ _ _ _. Unit {0} };
}

/// A counter that threads share.
#[derive(Drop)]
pub struct Counter {
    lock: TiedMutex<u64, (), (), Nothing>,
}

impl Counter {
    /// A counter at 0.
    pub fn new(alloc: Global) -> Result<Counter, AllocError> {
        let lock = TiedMutex::new(alloc, 0)?;
        Ok(Counter { lock })
    }

    /// Counts one more, and returns what was counted before.
    pub fn count<R: Wait + Clock>(&self, rt: &R) -> u64 {
        let mut pass = self.lock.pass();
        self.lock.take(rt, &mut pass);
        let value = pass.slot_mut(self.lock.steps(), 0);
        let old = *value;
        *value = old.wrapping_add(1);
        self.lock.put::<Brand, _>(&mut pass, &());
        old
    }
}
