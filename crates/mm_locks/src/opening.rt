//! The numbers with which locks are opened, and why they are not.
use mm_manager::ManagerConfig;
use std::alloc::AllocError;
use thiserror::Error;

/// The numbers with which locks are opened.
#[derive(Clone, Copy, Debug, PartialEq, Eq)]
pub struct LocksConfig {
    /// How many transactions there can be at a time, how many of their names the manager can have, how many bytes a name may have, and a
    /// seed. A name is the manager's from the first time that somebody else asks for it or for another name of its bucket, until it is free; so are
    /// each name of a transaction after its sixteenth, and a name of more than 63 bytes. `names_each` bounds how many of those a transaction may
    /// own when it asks for one more: so it may own sixteen besides.
    pub manager: ManagerConfig,
    /// How many buckets there are: 1 to 16,777,216. Two names of one bucket cannot both be locked without the manager, so take several times as
    /// many as names that are locked at a time.
    pub buckets: u32,
}

/// Why locks are not opened.
#[derive(Clone, Copy, Debug, PartialEq, Eq, Error)]
pub enum OpenError {
    /// A number of the configuration is out of its range, or a request for memory was refused.
    #[error("{0}")]
    Desk(mm_desk::OpenError),
    #[error("a request for memory was refused")]
    Memory,
}

impl From<AllocError> for OpenError {
    ghost use Rattle.std.specs.Prelude.{◌≡◌};
    ghost use Rattle.mm_locks.specs.declared.opening.OpenError.TheVariants.{Memory};

    ghost from_gives = { λ _ e. e ≡ Memory };

    fn from(_: AllocError) -> OpenError {
        OpenError::Memory
    }
}
