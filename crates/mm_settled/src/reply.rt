use mm_table::Key;

/// What a request for a lock is told.
#[derive(Clone, Copy, Debug, PartialEq, Eq)]
pub enum Locked {
    /// The resource was free, and the transaction owns it now.
    Granted,
    /// The transaction waits for the holder, on no cycle of waits.
    Waits { holder: Key },
    /// The holder waits, directly or over others, for the transaction, so its wait would close a cycle of waits. It does not wait.
    Deadlock { holder: Key },
}

/// A transaction that waited for a resource, and owns it now.
#[derive(Clone, Copy, Debug, PartialEq, Eq)]
pub struct Grant {
    pub key: Key,
    pub resource: u32,
}
