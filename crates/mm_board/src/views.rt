//! What the publisher and the readers of a board know. No value of these types is made: they stand in contracts alone, and take no memory.
use mm_label::Label;
use std::collections::LinkedList;

/// What the publisher knows.
pub struct Published {
    /// Of each process the labels that were stored for it, in the order in which they were stored. The last is its current label.
    pub histories: LinkedList<LinkedList<Label>>,
    /// Of each process the holder that was stored last.
    pub holders: LinkedList<Option<u32>>,
    /// How many holders were stored.
    pub holders_stored: u64,
    /// Of each process the label that was seen by the reader to which the publisher showed the board last.
    pub met: LinkedList<Label>,
}

/// What a reader knows.
pub struct Seen {
    /// Of each process the label that was seen last.
    pub labels: LinkedList<Label>,
    /// How many labels this reader has loaded.
    pub loads: u64,
}

/// What a seat at the board knows.
pub enum View {
    Publishes(Published),
    Reads(Seen),
    /// Of a reader in whose place `Publisher::show` put another one.
    Spent,
}
