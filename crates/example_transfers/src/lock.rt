//! A request for an account: a transaction whose wait would close a cycle of waits is rolled back.
ghost use Rattle.std.specs.Prelude.{IfOk};
ghost use Rattle.example_transfers.specs.Next.{Leaves};

use mm_manager::{Key, Lock, LockManager, Refusal};

/// What becomes of the transaction that asked.
#[derive(Clone, Copy, Debug, PartialEq, Eq)]
pub enum Next {
    /// It owns the account, and works on.
    WorksOn,
    /// It waits for the holder, and sleeps until a call of another one lists it in `granted`.
    Sleeps { holder: Key },
    /// Its wait would have closed a cycle of waits, and it ended. It owns nothing any more; its caller begins it anew.
    RolledBack,
}

/// Asks for an account, and handles each answer: a transaction whose wait would close a cycle of waits is aborted at once. Whom that gives its
/// accounts, `locks.granted()` lists; the caller wakes them.
///
/// Refused as `LockManager::lock` is.
pub fn lock_or_roll_back(locks: &mut LockManager, key: Key, account: &[u8]) -> Result<Next, Refusal>
    ensures { IfOk result (Leaves locks.new key account.now) }
{
    match locks.lock(key, account)? {
        Lock::Granted => Ok(Next::WorksOn),
        Lock::Held => Ok(Next::WorksOn),
        Lock::Waits { holder } => Ok(Next::Sleeps { holder }),
        Lock::Deadlock { .. } => {
            locks.abort(key)?;
            Ok(Next::RolledBack)
        }
    }
}
