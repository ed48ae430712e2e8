//! What the parts know. No value of these types is made: they stand in contracts alone, and take no memory.
use std::collections::LinkedList;

/// A bucket that was thin when the office took it over: whose record had taken it, and for which name.
pub struct Lent {
    pub bucket: u64,
    pub number: u64,
    pub name: LinkedList<u8>,
}

/// What the office knows.
pub struct DeskView {
    /// The buckets that are fat.
    pub fat: LinkedList<u64>,
    /// Those of them that a record had taken before, until the office sees that the record let them go.
    pub lent: LinkedList<Lent>,
    /// How many records there are.
    pub records: u64,
    /// The bucket whose name the office reads.
    pub reading: LinkedList<Lent>,
}

/// What a record knows.
pub struct RecordView {
    /// Its number.
    pub number: u64,
    /// The bucket that it has taken, and neither given back nor let go.
    pub taken: LinkedList<u64>,
    /// The name for which it took a bucket last.
    pub name: LinkedList<u8>,
}

/// A part.
pub enum Part {
    Desk(DeskView),
    Record(RecordView),
}

/// What a seat knows: a part, or two while they meet, or none if its part was joined to another seat.
pub type View = LinkedList<Part>;
