//! What is kept of a live transaction.
use mm_links::Link;

/// What a live transaction waits for, and whether it has a verdict.
#[derive(Clone, Copy)]
pub struct Transaction {
    /// A resource; `None` if it waits for none.
    pub waits_for: Option<u32>,
    pub has_verdict: bool,
}

/// The same in eight bytes.
#[derive(Clone, Copy)]
pub(crate) struct Entry {
    pub(crate) waits_for: Link,
    pub(crate) has_verdict: bool,
}

const _: () = prove!(size_of::<Entry>() == 8);
