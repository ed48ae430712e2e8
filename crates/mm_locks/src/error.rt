//! Why a call is refused.
use mm_manager::Refusal;
use thiserror::Error;

/// Why a call was refused.
#[derive(Clone, Copy, Debug, PartialEq, Eq, Error)]
pub enum LockError {
    /// The wait would close a cycle of waits. The transaction does not wait, and goes on with what it owns. It is to give back what others wait
    /// for before it asks again: until then each of them waits, at the end, for this very transaction.
    #[error("deadlock: the wait would close a cycle of waits")]
    Deadlock,
    /// The time is up. The transaction goes on, and keeps what it owns.
    #[error("the time is up")]
    TimedOut,
    #[error("the name has no bytes")]
    NameEmpty,
    #[error("the name has more bytes than the manager was opened for")]
    NameTooLong,
    #[error("the transaction does not own the name")]
    NotOwner,
    #[error("there are as many transactions as there can be")]
    TransactionsFull,
    #[error("as many names are owned as there can be")]
    NamesFull,
    /// Give names back, or open the locks with a higher `names_each`.
    #[error("the transaction owns as many names as one may (names_each of the configuration)")]
    TooManyNames,
    #[error("there may be no label left for one more wait")]
    LabelsFull,
    #[error("the count of events is at its limit")]
    CountsFull,
    /// The manager knows of no such transaction, or it waits. The contracts of the calls allow this error, but no call of a `Transaction`
    /// answers it: the key of a transaction is live until its end, and between its calls it does not wait.
    #[error("the transaction is not active")]
    NotActive,
}

impl LockError {
    ghost use Rattle.std.specs.Prelude.{◌≡◌};
    ghost use Rattle.mm_locks.specs.Errors.{error_of};

    /// Returns what a refusal of the manager means.
    #[inline(never)]
    pub fn of_refusal(refusal: Refusal) -> LockError
        ensures { result ≡ error_of refusal }
    {
        match refusal {
            Refusal::NameEmpty => LockError::NameEmpty,
            Refusal::NameTooLong => LockError::NameTooLong,
            Refusal::NotOwner => LockError::NotOwner,
            Refusal::TransactionsFull => LockError::TransactionsFull,
            Refusal::NamesFull => LockError::NamesFull,
            Refusal::TooManyNames => LockError::TooManyNames,
            Refusal::LabelsFull => LockError::LabelsFull,
            Refusal::CountsFull => LockError::CountsFull,
            Refusal::NoTransaction | Refusal::Waiting | Refusal::NotWaiting => LockError::NotActive,
        }
    }
}
