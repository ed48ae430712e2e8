//! What the calls answer.
use crate::text::Text;

/// How the office got a bucket.
#[derive(Drop)]
pub enum Got {
    /// It was fat.
    WasFat,
    /// Nobody had it, and it is fat now.
    WasFree,
    /// The record with this number had taken it, for this name. It is fat now, and lent to that record.
    WasThin(u32, Text),
    /// Another thread changed it meanwhile, and nothing is done.
    Changed,
}

/// What the office sees of a bucket.
#[derive(Clone, Copy, Debug, PartialEq, Eq)]
pub enum Look {
    /// It is free, or thin.
    NotFat,
    /// It is fat, and no record has it.
    Fat,
    /// It is fat, and the record that had taken it has not let it go.
    IsLent,
}

/// What became of a request for a name.
#[derive(Clone, Copy, Debug, PartialEq, Eq)]
pub enum Take {
    /// Nobody had its bucket, and the worker has taken it.
    Taken,
    /// The worker has taken it already.
    Held,
    /// Another record has its bucket, for this name or for another. It may be free soon.
    Busy,
    /// Its bucket is fat. The office can say more.
    Fat,
    /// Each record of the worker has taken a bucket.
    Full,
    /// The name has no bytes, or too many.
    NotThin,
}

/// What became of what a worker gives up.
#[derive(Clone, Copy, Debug, PartialEq, Eq)]
pub enum GiveUp {
    /// The worker has it no longer.
    Done,
    /// Its word says something else, and nothing changes.
    Changed,
    /// There is no such record, or it has taken nothing.
    NotTaken,
}
