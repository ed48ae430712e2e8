//! Locks with a time.
ghost use Rattle.std.specs.Prelude.{◌≡◌, ◌⊎◌, true, IfErr, IfOk};
ghost use Rattle.mm_locks.specs.Calls.{done_of};
ghost use Rattle.mm_locks.specs.Errors.{of_lock};
ghost use Rattle.mm_locks.specs.Granted.{IsFor};
ghost use Rattle.mm_locks.specs.Told.{IsKnownIfTold, IsSame, LocksForSo, LooksUntil, owning};

use crate::deadline::Deadline;
use crate::error::LockError;
use crate::hall::Outcome;
use crate::history::Event;
use crate::session::Session;
use crate::tokens::{Granted, take_thinly};
use crate::transaction::Transaction;
use mm_mutex::stay_away;
use std::sync::Wait;
use std::time::{Clock, Duration};

impl<'s, 'r, 'm, R: Wait + Clock> Transaction<'s, 'r, 'm, R> {
    /// `lock` that gives up: `TimedOut` if the name was not granted in this time. The transaction then goes on, and keeps what it owns.
    ///
    /// It returns after the time and a scheduling delay at most, and never gives up before the time. A clock that cannot be read counts as a
    /// time that is up. Else refused as `lock` is.
    pub fn lock_for<'n>(
        &mut self,
        name: &'n [u8],
        limit: Duration,
    ) -> Result<Granted<'n>, LockError>
        ensures granted { IfOk result (IsFor self.old.session.now.worker.at name.now) }
        ensures refused { IfErr result (λ error. (error ≡ LockError.TimedOut) ⊎ (of_lock error ≡ true)) }
        ensures same { IsSame self.old.session.now self.new.session.now }
        ensures told { LocksForSo self.old.session.now name.now result self.new.session.now }
        ensures known { IsKnownIfTold self.old.is_known self.old.session.now self.new.is_known self.new.session.now }
    {
        // No clock is read for a name that nobody else has.
        let session = &mut *self.session;
        let why = match take_thinly(&mut session.worker, name) {
            Ok(granted) => return Ok(granted),
            Err(why) => why,
        };
        let deadline = Deadline::new(self.session.rt, limit);
        match self.begin_wait(name, why)? {
            Some(granted) => Ok(granted),
            None => sleep_for(self.session, name, deadline),
        }
    }
}

/// Sleeps until the session's transaction owns what it waits for, or the time is up and the request taken back.
#[inline(never)]
fn sleep_for<'n, R: Wait + Clock>(
    session: &mut Session<'_, '_, R>,
    name: &'n [u8],
    deadline: Deadline,
) -> Result<Granted<'n>, LockError>
    ensures granted { IfOk result (IsFor session.old.worker.at name.now) }
    ensures refused { IfErr result (λ error. (error ≡ LockError.TimedOut) ⊎ (of_lock error ≡ true)) }
    ensures same { IsSame session.old session.new }
    ensures told { LooksUntil session.old name.now (Event.Looked session.old.worker.at name.now (owning result)) session.new
        ⊎ LooksUntil session.old name.now (Event.TookBack session.old.worker.at name.now (done_of result)) session.new }
{
    let parker = session.parker();
    for _ in session.rt.forever() {
        let Some(time) = deadline.left(session.rt) else {
            return session.take_back(name);
        };
        match parker {
            Some(parker) => parker.park_timeout(session.rt, time),
            None => stay_away(1),
        }
        match session.outcome(name)? {
            Outcome::Owns(granted) => return Ok(granted),
            Outcome::Waits | Outcome::Again => {}
        }
    }
    unreachable!()
}
