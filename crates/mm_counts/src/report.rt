//! What a table counted.

use serde::Serialize;

/// What a shared table counted from its opening to its end: the table's totals.
#[derive(Clone, Copy, Debug, PartialEq, Eq, Serialize)]
pub struct Report {
    /// Accepted events.
    pub accepted: u64,
    /// Verdicts, by `detect` and by `settle`.
    pub verdicts: u64,
    /// Accepted aborts.
    pub aborts: u64,
}
