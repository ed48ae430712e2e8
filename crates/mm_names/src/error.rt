//! Why names are not opened, and why a name gets no number.
use std::alloc::AllocError;
use thiserror::Error;

/// Why there are no names: a number of the configuration is out of its range, or there is no memory.
#[derive(Clone, Copy, Debug, PartialEq, Eq, Error)]
pub enum OpenError {
    /// The field `names` of the configuration.
    #[error("names is not from 1 to 16777216")]
    Names,
    /// The field `name_bytes` of the configuration, if `names` is in its range.
    #[error("name_bytes is not from 1 to 1024")]
    NameBytes,
    #[error("a request for memory was refused")]
    Memory,
}

impl From<AllocError> for OpenError {
    ghost use Rattle.std.specs.Prelude.{◌≡◌};
    ghost use Rattle.mm_names.specs.declared.error.OpenError.TheVariants.{Memory};

    ghost from_gives = { λ _ e. e ≡ Memory };

    fn from(_: AllocError) -> OpenError {
        OpenError::Memory
    }
}

/// Why a name gets no number.
#[derive(Clone, Copy, Debug, PartialEq, Eq, Error)]
pub enum NamesError {
    #[error("the name has no bytes")]
    Empty,
    #[error("the name has more bytes than the names were opened for")]
    TooLong,
    /// Each number has a name, and none has this one.
    #[error("each number has another name")]
    Full,
}
