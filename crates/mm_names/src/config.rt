//! The numbers with which names are opened.

/// The numbers with which a [`Names`](crate::Names) is opened. They never change.
#[derive(Clone, Copy, Debug, PartialEq, Eq)]
pub struct NamesConfig {
    /// How many names there can be at once: 1 to 16,777,216.
    pub names: u32,
    /// How many bytes a name may have: 1 to 1,024. Memory is taken for this many bytes of each name.
    pub name_bytes: u32,
    /// Any number. Keep it from those who choose the names: with it they could choose names of one hash.
    pub seed: u64,
}

impl NamesConfig {
    pub const MAX_NAMES: u32 = mm_limits::MAX_NAMES;

    pub const MAX_NAME_BYTES: u32 = mm_limits::MAX_NAME_BYTES;
}
