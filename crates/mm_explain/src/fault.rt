//! Why a script was not explained to its end.

use mm_lines::Fault;
use std::alloc::AllocError;
use thiserror::Error;

/// Why a script was not explained to its end.
#[derive(Clone, Copy, Debug, PartialEq, Eq, Error)]
pub enum ExplainFault {
    #[error("{0}")]
    Lines(Fault),
    #[error("a request for memory was refused")]
    Memory,
    /// The script ends after this line, which is before the one that was asked for.
    #[error("the script ends after line {0}")]
    NoLine(u64),
}

impl From<Fault> for ExplainFault {
    fn from(fault: Fault) -> Self {
        ExplainFault::Lines(fault)
    }
}

impl From<AllocError> for ExplainFault {
    fn from(_: AllocError) -> Self {
        ExplainFault::Memory
    }
}
