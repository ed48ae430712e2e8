//! What the calls answer.
use mm_manager::{Key, Refusal};

/// What became of a bucket.
#[derive(Clone, Copy, Debug, PartialEq, Eq)]
pub enum Adopted {
    /// It is fat. If it was thin, its name is owned in the manager from now on.
    Fat,
    /// Another thread changed it meanwhile.
    Changed,
    /// The manager refused its name, and it is thin as it was.
    Refused(Refusal),
}

/// What a request is told.
#[derive(Clone, Copy, Debug, PartialEq, Eq)]
pub enum Asked {
    /// Nobody owned the name, and the transaction owns it now.
    Granted,
    /// The transaction owns the name already.
    Held,
    /// The transaction waits for the holder, which does not wait for it, directly or over others.
    Waits { holder: Key },
    /// The holder waits, directly or over others, for the transaction, which therefore does not wait, and owns what it owned.
    Deadlock { holder: Key },
    /// Another thread changed a bucket meanwhile, and nothing is asked for: ask again.
    Again,
}

/// What a try is told.
#[derive(Clone, Copy, Debug, PartialEq, Eq)]
pub enum Tried {
    /// Nobody owned the name, and the transaction owns it now.
    Granted,
    /// The transaction owns the name already.
    Held,
    /// Another transaction owns the name.
    Busy { holder: Key },
    /// Another thread changed the bucket meanwhile, and nothing is asked for: try again.
    Again,
}

/// What an unlock is told.
#[derive(Clone, Copy, Debug, PartialEq, Eq)]
pub enum Unlocked {
    /// The name is handed over, or free.
    Done,
    /// The worker has not let the bucket of the name go, and nothing changes.
    NotLetGo,
}
