//! What is given out if a transaction owns a name.
//!
//! `taken` and `Hall::granted` alone make a `Granted`: the one requires that the worker has taken the name, and the other that its transaction
//! owns the name in the manager. The fields are private to this module, and no token can be copied. So a caller that has one was given it
//! during the call at hand.
ghost use Rattle.std.specs.Prelude.{◌≡◌, IfOk};
ghost use Rattle.mm_thin.specs.Calls.{HasTaken};
ghost use Rattle.mm_locks.specs.Granted.{IsFor, OwnsAt};

use crate::hall::Hall;
use mm_thin::{Take, Worker};

/// Says that the transaction of a worker owned a name: when this was made, the worker had taken it, or the manager had it so.
#[derive(Drop)]
pub struct Granted<'n> {
    at: u32,
    name: &'n [u8],
}

impl<'n> Granted<'n> {
    /// Returns the name.
    pub fn name(&self) -> &'n [u8]
        ensures { result.now ≡ self.now.name.now }
    {
        self.name
    }
}

/// Takes a name by the worker alone, if its bucket is free or the worker has the name already; else tells why not.
#[inline(always)]
pub(crate) fn take_thinly<'n>(worker: &mut Worker, name: &'n [u8]) -> Result<Granted<'n>, Take>
    ensures granted { IfOk result (IsFor worker.old.at name.now) }
    ensures taken { IfOk result (λ granted. HasTaken worker.new.records name.now) }
    ensures at { worker.new.at ≡ worker.old.at }
{
    match worker.take(name) {
        Take::Taken => Ok(taken(worker, name)),
        Take::Held => Ok(taken(worker, name)),
        Take::Busy => Err(Take::Busy),
        Take::Fat => Err(Take::Fat),
        Take::Full => Err(Take::Full),
        Take::NotThin => Err(Take::NotThin),
    }
}

/// Says that the worker's transaction owns the name, which the worker has taken.
#[inline(always)]
fn taken<'n>(worker: &Worker, name: &'n [u8]) -> Granted<'n>
    requires { HasTaken worker.now.records name.now }
    ensures { IsFor worker.now.at name.now result }
{
    Granted {
        at: worker.at(),
        name,
    }
}

impl Hall {
    /// Says that the transaction of a worker owns the name, as it does now in the manager.
    pub(crate) fn granted<'n>(&self, at: u32, name: &'n [u8]) -> Granted<'n>
        requires { OwnsAt self.now.desk at name.now }
        ensures { IsFor at name.now result }
    {
        Granted { at, name }
    }
}
