//! How a client ends.

/// How a client ends.
#[derive(Clone, Copy, Debug, PartialEq, Eq)]
pub enum End {
    /// It made all of its steps.
    Finished,
    /// It got a verdict, and was aborted.
    Aborted,
    /// Its turns were used up.
    Spent,
    /// A call was refused, under this number.
    Refused(u8),
}
