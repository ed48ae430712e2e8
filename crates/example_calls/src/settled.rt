//! How a transaction goes on from a request for a lock: it works on, it sleeps, or it has been rolled back.
ghost use Rattle.std.specs.Prelude.{◌≡◌, ℕ, Some, Ok};
ghost use Rattle.mm_rules.specs.TableState.{owner_of};
ghost use Rattle.mm_rules.specs.TakeBack.{NobodyWaitsForItself};

use mm_settled::{Key, Locked, Refusal, SettledTable};

/// What becomes of the transaction that asked.
#[derive(Clone, Copy, Debug, PartialEq, Eq)]
pub enum Next {
    /// It owns the resource, and works on.
    WorksOn,
    /// It waits for the holder, and sleeps until a call of another one lists it in `granted`.
    Sleeps { holder: Key },
    /// Its wait would have closed a cycle of waits, and it has ended. Its caller undoes its work, and may begin it anew.
    RolledBack,
}

/// Asks for a resource, and handles each of the three answers: a transaction whose wait would close a cycle of waits is ended at once. Whom that
/// gives its locks, `table.granted()` lists; the caller wakes them.
///
/// Whatever comes of it, nobody waits for itself afterwards, directly or over others; and who was rolled back owns nothing.
///
/// Refused as `SettledTable::acquire` is. If the end is refused, as `CountsExhausted` or `LabelsExhausted`, the transaction is active and owns
/// what it owned.
pub fn lock_or_roll_back(table: &mut SettledTable, key: Key, resource: u32) -> Result<Next, Refusal>
    ensures apart { NobodyWaitsForItself table.new.table }
    ensures rolled_back { result ≡ Ok Next.RolledBack → (r : ℕ) → ¬ (owner_of table.new.table r ≡ Some key) }
{
    let answer = table.acquire(key, resource);
    table.is_at_rest();
    match answer? {
        Locked::Granted => Ok(Next::WorksOn),
        Locked::Waits { holder } => Ok(Next::Sleeps { holder }),
        Locked::Deadlock { .. } => roll_back(table, key),
    }
}

/// Ends the transaction.
fn roll_back(table: &mut SettledTable, key: Key) -> Result<Next, Refusal>
    ensures apart { NobodyWaitsForItself table.new.table }
    ensures rolled_back { result ≡ Ok Next.RolledBack → (r : ℕ) → ¬ (owner_of table.new.table r ≡ Some key) }
{
    table.is_at_rest();
    let answer = table.finish(key);
    table.is_at_rest();
    match answer {
        Ok(()) => Ok(Next::RolledBack),
        Err(refusal) => Err(refusal),
    }
}
