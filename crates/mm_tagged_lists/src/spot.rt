//! Where an item stands.

/// The list that an item is in, and a number that is kept beside it there.
#[derive(Clone, Copy, Debug, PartialEq, Eq)]
pub struct Spot {
    pub list: u32,
    pub tag: u32,
}
