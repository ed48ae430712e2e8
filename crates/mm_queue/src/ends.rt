//! The two ends of a list.
use mm_links::Link;

/// The processes of a list's first and last key, and how many keys it has.
#[derive(Clone, Copy)]
pub(crate) struct Ends {
    pub(crate) front: Link,
    pub(crate) back: Link,
    pub(crate) len: u32,
}

impl Ends {
    /// Those of a list without keys.
    pub(crate) const NONE: Ends = Ends {
        front: Link::NONE,
        back: Link::NONE,
        len: 0,
    };
}
