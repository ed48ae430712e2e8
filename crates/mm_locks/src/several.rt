//! Several names in one call.
ghost use Rattle.std.specs.Prelude.{◌≡◌, ◌+◌, None, true, IfErr, IfOk, IsSomeAnd, slice_get};
ghost use Rattle.mm_locks.specs.Errors.{of_lock};
ghost use Rattle.mm_locks.specs.Granted.{IsForAll};
ghost use Rattle.mm_locks.specs.Told.{LocksEachSo, bytes_of, refusal_of};

use crate::error::LockError;
use crate::session::Session;
use crate::tokens::Granted;
use crate::transaction::Transaction;
use std::sync::Wait;
use std::time::Clock;

/// Says of each of some names that the transaction owned it when it was asked for. They need not have been owned at one moment.
#[derive(Drop)]
pub struct GrantedUpTo<'n> {
    at: u32,
    names: &'n [&'n [u8]],
    /// How many of them it says so of.
    place: usize,
}

impl<'n> GrantedUpTo<'n> {
    /// Says nothing of these names as yet.
    fn none(at: u32, names: &'n [&'n [u8]]) -> GrantedUpTo<'n>
        ensures at { result.at ≡ at }
        ensures names { result.names.now ≡ names.now }
        ensures place { result.place ≡ 0 }
    {
        GrantedUpTo {
            at,
            names,
            place: 0,
        }
    }

    /// Says it of the next name too, which was granted.
    fn and(self, granted: Granted<'n>) -> GrantedUpTo<'n>
        requires at { granted.at ≡ self.at }
        requires name { IsSomeAnd (slice_get self.names.now self.place) (λ name. name.now ≡ granted.name.now) }
        ensures at { result.at ≡ self.entry.at }
        ensures names { result.names.now ≡ self.entry.names.now }
        ensures place { result.place ≡ self.entry.place + 1 }
    {
        drop(granted);
        GrantedUpTo {
            place: self.place + 1,
            ..self
        }
    }
}

impl<'s, 'r, 'm, R: Wait + Clock> Transaction<'s, 'r, 'm, R> {
    /// Locks these names in the order given, as `lock` does one after the other.
    ///
    /// If one of them is refused, those before it stay locked, and those after it were not asked for. Refused as `lock` is. It costs what the
    /// locks cost.
    pub fn lock_all<'n>(&mut self, names: &'n [&'n [u8]]) -> Result<GrantedUpTo<'n>, LockError>
        ensures granted { IfOk result (IsForAll self.old.session.now.worker.at names.now) }
        ensures refused { IfErr result (λ error. of_lock error ≡ true) }
        ensures told { LocksEachSo self.old.session.now (bytes_of names.now) (refusal_of result) self.new.session.now }
    {
        let session = &mut *self.session;
        let mut granted = GrantedUpTo::none(session.worker.at(), names);
        for place in 0..names.len() {
            let one = self.lock(names[place])?;
            granted = granted.and(one);
        }
        Ok(granted)
    }
}

impl<'r, 'm, R: Wait + Clock> Session<'r, 'm, R> {
    /// Begins a transaction and locks these names for it: `begin` and then `Transaction::lock_all`. Returns the transaction, and a token which
    /// says that it owned each of the names.
    ///
    /// Refused as `lock_all` is; the transaction is then rolled back.
    pub fn begin_with<'s, 'n>(
        &'s mut self,
        names: &'n [&'n [u8]],
    ) -> Result<(Transaction<'s, 'r, 'm, R>, GrantedUpTo<'n>), LockError>
        ensures granted { IfOk result (λ begun. IsForAll self.entry.now.worker.at names.now begun.1) }
        ensures refused { IfErr result (λ error. of_lock error ≡ true) }
        ensures told { IfOk result (λ begun. LocksEachSo self.entry.now (bytes_of names.now) None begun.0.session.now) }
    {
        let mut transaction = self.begin();
        let granted = transaction.lock_all(names)?;
        Ok((transaction, granted))
    }
}
