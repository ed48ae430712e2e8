//! Why lines were not answered to their end.
use thiserror::Error;

/// Why lines were not answered to their end.
#[derive(Clone, Copy, Debug, PartialEq, Eq, Error)]
pub enum Fault {
    #[error("read fault")]
    Read,
    #[error("write fault")]
    Write,
    #[error("input too long")]
    TooLong,
}
