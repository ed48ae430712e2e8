ghost use Rattle.std.specs.Prelude.{◌≡◌};

use thiserror::Error;

/// Why a call was refused. A refused call changes nothing.
#[derive(Clone, Copy, Debug, PartialEq, Eq, Hash, Error)]
pub enum Refusal {
    #[error("the key is not live")]
    Stale,
    #[error("there is no such resource")]
    NoResource,
    #[error("the transaction waits")]
    Waiting,
    #[error("the transaction owns the resource already")]
    AlreadyOwns,
    #[error("the transaction does not own the resource")]
    NotOwner,
    #[error("no process is free")]
    Full,
    #[error("a label would pass the label limit")]
    LabelsExhausted,
    #[error("the transaction does not wait")]
    NotWaiting,
    #[error("no verdict stands for the transaction")]
    NoVerdict,
    #[error("a request for memory was refused")]
    Memory,
    #[error("a number of the configuration is out of range")]
    BadConfig,
    #[error("the pass does not have all parts")]
    SharesMissing,
    #[error("the public label of the transaction is not its private one")]
    Carried,
    #[error("a verdict stands for the transaction")]
    UnderVerdict,
    #[error("the accepted or the verdict count is at its limit")]
    CountsExhausted,
}

impl Refusal {
    ghost use Rattle.mm_rules.specs.Refusal.{number_of, name_of};

    /// Returns the number under which the refusal is printed: 1 to 15.
    pub fn number(self) -> u8
        ensures { result ≡ number_of self }
    {
        match self {
            Refusal::Stale => 1,
            Refusal::NoResource => 2,
            Refusal::Waiting => 3,
            Refusal::AlreadyOwns => 4,
            Refusal::NotOwner => 5,
            Refusal::Full => 6,
            Refusal::LabelsExhausted => 7,
            Refusal::NotWaiting => 8,
            Refusal::NoVerdict => 9,
            Refusal::Memory => 10,
            Refusal::BadConfig => 11,
            Refusal::SharesMissing => 12,
            Refusal::Carried => 13,
            Refusal::UnderVerdict => 14,
            Refusal::CountsExhausted => 15,
        }
    }

    /// Returns the name under which the refusal is printed.
    pub fn name(self) -> &'static str
        ensures { result.now ≡ name_of self }
    {
        match self {
            Refusal::Stale => "Stale",
            Refusal::NoResource => "NoResource",
            Refusal::Waiting => "Waiting",
            Refusal::AlreadyOwns => "AlreadyOwns",
            Refusal::NotOwner => "NotOwner",
            Refusal::Full => "Full",
            Refusal::LabelsExhausted => "LabelsExhausted",
            Refusal::NotWaiting => "NotWaiting",
            Refusal::NoVerdict => "NoVerdict",
            Refusal::Memory => "Memory",
            Refusal::BadConfig => "BadConfig",
            Refusal::SharesMissing => "SharesMissing",
            Refusal::Carried => "Carried",
            Refusal::UnderVerdict => "UnderVerdict",
            Refusal::CountsExhausted => "CountsExhausted",
        }
    }
}
