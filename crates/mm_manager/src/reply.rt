//! What calls answer.
use mm_settled::Key;

/// What a request for a lock is told.
#[derive(Clone, Copy, Debug, PartialEq, Eq)]
pub enum Lock {
    /// Nobody owned the name, and the transaction owns it now.
    Granted,
    /// The transaction owns the name already.
    Held,
    /// The transaction waits for the holder, on no cycle of waits. It is granted the name later, or its wait is taken back.
    Waits { holder: Key },
    /// The holder owns the name, and waits, directly or over others, for the transaction: its wait would close a cycle of waits. So it does not wait.
    Deadlock { holder: Key },
}

/// What a try for a lock, or an adoption, is told. Neither waits.
#[derive(Clone, Copy, Debug, PartialEq, Eq)]
pub enum TryLock {
    /// Nobody owned the name, and the transaction owns it now.
    Granted,
    /// The transaction owns the name already.
    Held,
    /// Another transaction, the holder, owns the name.
    Busy { holder: Key },
}

/// What a transaction does.
#[derive(Clone, Copy, Debug, PartialEq, Eq)]
pub enum Status {
    /// It waits for nothing.
    Active,
    /// It waits for the name of this number, which the holder owns.
    Waiting { number: u32, holder: Key },
}

/// An edge of the wait-for graph.
#[derive(Clone, Copy, Debug, PartialEq, Eq)]
pub struct Wait {
    /// Who waits.
    pub key: Key,
    /// The number of the name that it waits for.
    pub number: u32,
    /// Who owns that name.
    pub holder: Key,
}
