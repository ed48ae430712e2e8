//! Why a manager is not opened, and why a call is refused.
use std::alloc::AllocError;
use thiserror::Error;

/// Why there is no manager: a number of the configuration is out of its range, or there is no memory.
#[derive(Clone, Copy, Debug, PartialEq, Eq, Error)]
pub enum OpenError {
    /// The field `transactions` of the configuration.
    #[error("transactions is not from 1 to 65536")]
    Transactions,
    /// The field `names`, if the one before is in its range.
    #[error("names is not from 1 to 16777216")]
    Names,
    /// The field `name_bytes`, if those before are in their ranges.
    #[error("name_bytes is not from 1 to 1024")]
    NameBytes,
    #[error("a request for memory was refused")]
    Memory,
}

/// Why a call was refused. A refused call changes nothing.
#[derive(Clone, Copy, Debug, PartialEq, Eq, Error)]
pub enum Refusal {
    #[error("the key is of no live transaction")]
    NoTransaction,
    #[error("the transaction waits")]
    Waiting,
    #[error("the name has no bytes")]
    NameEmpty,
    #[error("the name has more bytes than the manager was opened for")]
    NameTooLong,
    #[error("the transaction does not own the name")]
    NotOwner,
    #[error("the transaction does not wait")]
    NotWaiting,
    #[error("there are as many transactions as there can be")]
    TransactionsFull,
    #[error("as many names are owned as there can be")]
    NamesFull,
    /// Only of `lock` and `try_lock`. Raise `names_each` of the configuration, or give names back.
    #[error("the transaction owns as many names as one may")]
    TooManyNames,
    /// Only of `lock`, if it would wait.
    #[error("there may be no label left for one more wait")]
    LabelsFull,
    /// Only of `begin`, `lock`, `try_lock` and `adopt`.
    #[error("the count of events is at its limit")]
    CountsFull,
}

impl From<AllocError> for OpenError {
    ghost use Rattle.std.specs.Prelude.{◌≡◌};
    ghost use Rattle.mm_manager.specs.declared.refusal.OpenError.TheVariants.{Memory};

    ghost from_gives = { λ _ e. e ≡ Memory };

    fn from(_: AllocError) -> OpenError {
        OpenError::Memory
    }
}
