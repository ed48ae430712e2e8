//! What a thread does.

/// What a thread does.
pub trait Job: Drop {
    /// What it gives back. A proof knows of it what its type says.
    type Gives: Drop;

    /// Does it.
    fn run(self) -> Self::Gives;
}
