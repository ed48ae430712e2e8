//! Why there is no desk.
use std::alloc::AllocError;
use thiserror::Error;

/// Why there is no desk.
#[derive(Clone, Copy, Debug, PartialEq, Eq, Error)]
pub enum OpenError {
    /// A number of the manager's configuration is out of its range, or there is no memory.
    #[error("{0}")]
    Manager(mm_manager::OpenError),
    /// The number of buckets is out of its range, or there is no memory.
    #[error("{0}")]
    Office(mm_thin::OpenError),
    #[error("a request for memory was refused")]
    Memory,
}

impl From<AllocError> for OpenError {
    ghost use Rattle.std.specs.Prelude.{◌≡◌};
    ghost use Rattle.mm_desk.specs.declared.error.OpenError.TheVariants.{Memory};

    ghost from_gives = { λ _ e. e ≡ Memory };

    fn from(_: AllocError) -> OpenError {
        OpenError::Memory
    }
}
