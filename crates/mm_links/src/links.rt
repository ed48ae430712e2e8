//! The two links of a place.
use crate::Link;

/// What a place is linked to: the place before it, and the one that follows.
#[derive(Clone, Copy, Debug)]
pub struct Links {
    pub before: Link,
    pub next: Link,
}

impl Links {
    /// Linked to nothing.
    pub const NONE: Links = Links {
        before: Link::NONE,
        next: Link::NONE,
    };
}
