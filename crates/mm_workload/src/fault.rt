use crate::limits::{MAX_BYTES, MAX_CLIENTS, MAX_STEPS};
use std::alloc::{AllocError, AllocFailed};
use thiserror::Error;

/// Why there is no workload.
#[derive(Clone, Copy, Debug, PartialEq, Eq, Error)]
pub enum WorkFault {
    #[error("a request for memory was refused")]
    Memory,
    /// The bytes of a file say no workload. The place is for a person: if more than one is at fault, no clause says which is
    /// given.
    #[error("malformed workload: {0}")]
    Malformed(FaultPlace),
}

/// Where a workload is malformed, and why. Clients count from 1, and so do the steps of a client.
#[derive(Clone, Copy, Debug, PartialEq, Eq, Error)]
pub enum FaultPlace {
    #[error("the file is longer than {max} bytes", max = MAX_BYTES)]
    TooLong,
    /// Not a JSON text in UTF-8, or one that `serde_json` refuses. Line and column are `serde_json`'s, which often names the
    /// start of a word or a number.
    #[error("line {line}, column {column}: no JSON that can be read")]
    Json {
        line: usize,
        column: usize,
    },
    /// The file ends, and the JSON text does not.
    #[error("line {line}, column {column}: the JSON text ends too soon")]
    CutShort {
        line: usize,
        column: usize,
    },
    #[error("the file is not a JSON object")]
    NotAnObject,
    #[error("the key {0} is missing")]
    Missing(&'static str),
    /// The value of this key is not a whole number in this range.
    #[error("the key {key} is not a whole number from {least} to {most}")]
    Number {
        key: &'static str,
        least: u64,
        most: u64,
    },
    #[error("the key clients is not an array of 1 to {max} clients", max = MAX_CLIENTS)]
    Clients,
    #[error("client {0} is not an array of at most {max} steps", max = MAX_STEPS)]
    Client(usize),
    #[error("client {client}, step {step}: {fault}")]
    Step {
        client: usize,
        step: usize,
        fault: StepFault,
    },
}

/// Why a step is malformed.
#[derive(Clone, Copy, Debug, PartialEq, Eq, Error)]
pub enum StepFault {
    #[error("not an array of a word and a number")]
    Form,
    #[error("the word is not acquire, release or meet")]
    Word,
    #[error("the number is not a whole number from 0 to 4294967295")]
    Number,
}

impl From<FaultPlace> for WorkFault {
    ghost use Rattle.std.specs.Prelude.{◌≡◌};
    ghost use Rattle.mm_workload.specs.declared.fault.WorkFault.TheVariants.{Malformed};

    ghost from_gives = { λ place e. e ≡ Malformed place };

    fn from(place: FaultPlace) -> WorkFault {
        WorkFault::Malformed(place)
    }
}

impl From<AllocError> for WorkFault {
    ghost use Rattle.std.specs.Prelude.{◌≡◌};
    ghost use Rattle.mm_workload.specs.declared.fault.WorkFault.TheVariants.{Memory};

    ghost from_gives = { λ _ e. e ≡ Memory };

    fn from(_refused: AllocError) -> WorkFault {
        WorkFault::Memory
    }
}

impl<T: Drop> From<AllocFailed<T>> for WorkFault {
    ghost use Rattle.std.specs.Prelude.{◌≡◌};
    ghost use Rattle.mm_workload.specs.declared.fault.WorkFault.TheVariants.{Memory};

    ghost from_gives = { λ _ e. e ≡ Memory };

    fn from(_refused: AllocFailed<T>) -> WorkFault {
        WorkFault::Memory
    }
}
