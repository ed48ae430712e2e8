//! The numbers with which an office is opened, and why it is not.
use std::alloc::AllocError;
use thiserror::Error;

/// The numbers with which an [`Office`](crate::Office) is opened. They never change.
#[derive(Clone, Copy, Debug, PartialEq, Eq)]
pub struct ThinConfig {
    /// How many buckets there are: 1 to 16,777,216. Two names of one bucket cannot both be locked here.
    pub buckets: u32,
    /// How many workers there can be: 1 to 65,536. Memory is taken for ten names of each.
    pub workers: u32,
    /// How many bytes a name may have that is locked here: 63 at most, whatever is more.
    pub name_bytes: u32,
    /// Any number. Whoever chooses the names should not know it, so that they cannot choose names of one bucket.
    pub seed: u64,
}

impl ThinConfig {
    pub const MAX_BUCKETS: u32 = 16_777_216;

    pub const MAX_WORKERS: u32 = 65_536;
}

/// Why an office is not opened.
#[derive(Clone, Copy, Debug, PartialEq, Eq, Error)]
pub enum OpenError {
    #[error("buckets is not from 1 to 16777216")]
    Buckets,
    #[error("workers is not from 1 to 65536")]
    Workers,
    #[error("a request for memory was refused")]
    Memory,
}

impl From<AllocError> for OpenError {
    ghost use Rattle.std.specs.Prelude.{◌≡◌};
    ghost use Rattle.mm_thin.specs.declared.config.OpenError.TheVariants.{Memory};

    ghost from_gives = { λ _ e. e ≡ Memory };

    fn from(_: AllocError) -> OpenError {
        OpenError::Memory
    }
}

/// Why there is no further worker.
#[derive(Clone, Copy, Debug, PartialEq, Eq, Error)]
pub enum WorkerError {
    /// There are as many as the office was opened for.
    #[error("there are as many workers as there can be")]
    Full,
    #[error("a request for memory was refused")]
    Memory,
}

impl From<AllocError> for WorkerError {
    ghost use Rattle.std.specs.Prelude.{◌≡◌};
    ghost use Rattle.mm_thin.specs.declared.config.WorkerError.TheVariants.{Memory};

    ghost from_gives = { λ _ e. e ≡ Memory };

    fn from(_: AllocError) -> WorkerError {
        WorkerError::Memory
    }
}
