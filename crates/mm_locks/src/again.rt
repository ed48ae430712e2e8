//! Work that is done again after a deadlock.
ghost use Rattle.std.specs.Prelude.{◌≡◌, ◌⊎◌, Err, Ok, true, IfErr, IfOk};
ghost use Rattle.mm_locks.specs.Errors.{of_commit};
ghost use Rattle.mm_locks.specs.Run.{IsOfRun, IsRefused, MayReturn};

use crate::backoff::Backoff;
use crate::error::LockError;
use crate::transaction::Transaction;
use std::sync::Wait;
use std::thread::Parker;
use std::time::Clock;

/// The pauses between attempts. Each is of a random length. Its bound is 32 microseconds at first, and doubles up to 33 milliseconds: without
/// pauses those that met would meet again.
#[derive(Drop)]
pub struct Pauses {
    backoff: Backoff,
    parker: Parker,
}

/// A transaction in which work can be done again: `Transaction`, whatever it borrows. `run` takes it as a type of its own, since the toolchain
/// covers no bound that names the three references of a `Transaction`.
pub trait Repeat {
    /// Returns the pauses of its attempts.
    fn pauses(&self) -> Pauses;

    /// Returns whether it was told `Deadlock` and has given nothing back since.
    fn is_in_deadlock(&self) -> bool;

    /// Rolls it back, pauses, and begins it anew.
    fn start_over(&mut self, pauses: &mut Pauses);

    /// Ends it, as `Transaction::commit` does.
    fn commit(self) -> Result<(), LockError>
        ensures refused { IfErr result (λ error. of_commit error ≡ true) };
}

impl<'s, 'r, 'm, R: Wait + Clock> Repeat for Transaction<'s, 'r, 'm, R> {
    fn pauses(&self) -> Pauses {
        Pauses {
            backoff: Backoff::first(self.session.worker.at()),
            parker: Parker::new(),
        }
    }

    fn is_in_deadlock(&self) -> bool {
        self.is_in_deadlock()
    }

    fn start_over(&mut self, pauses: &mut Pauses) {
        self.roll_back();
        pauses
            .parker
            .park_timeout(self.session.rt, pauses.backoff.next());
    }

    fn commit(self) -> Result<(), LockError> {
        self.commit()
    }
}

/// Lends the transaction to the work, commits it, and returns what the work returned.
///
/// If the work fails after `Deadlock`, and has given nothing back since, the transaction is rolled back; and after a pause all is done again,
/// at most `attempts` times, and once at the least. If the work fails otherwise, the transaction is rolled back and the error returned, and so
/// is the error of the last attempt. The locks do not know what the work wrote: it undoes that itself before it returns an error. Work that
/// goes back to a savepoint after `Deadlock`, and then succeeds, is committed.
///
/// Refused as `Transaction::commit` is, and as the work is.
pub fn run<
    X: Repeat + Drop,
    T: Drop,
    E: From<LockError> + Drop,
    F: FnMut(&mut X) -> Result<T, E> + Drop,
>(mut transaction: X, attempts: u32, mut work: F) -> Result<T, E>
    requires { F.IsAlwaysCallable work }
    ensures value { IfOk result (λ value. MayReturn F.FnMut (Ok value)) }
    ensures error { IfErr result (IsOfRun F.FnMut E.from_gives) }
{
    let mut pauses = transaction.pauses();
    for _ in 1..attempts {
        let answer = work(&mut transaction);
        if answer.is_ok() || !transaction.is_in_deadlock() {
            return ended(transaction, answer);
        }
        drop(answer);
        transaction.start_over(&mut pauses);
    }
    let answer = work(&mut transaction);
    ended(transaction, answer)
}

/// Commits the transaction of work that returned a value, and rolls back that of work that failed.
fn ended<X: Repeat + Drop, T: Drop, E: From<LockError> + Drop>(
    transaction: X,
    answer: Result<T, E>,
) -> Result<T, E>
    ensures value { IfOk result (λ value. answer ≡ Ok value) }
    ensures error { IfErr result (λ error. (answer ≡ Err error) ⊎ IsRefused E.from_gives error) }
{
    let value = answer?;
    transaction.commit()?;
    Ok(value)
}
