ghost use Rattle.std.specs.Prelude.{◌↔◌, IsTrue};

/// The numbers that a table is opened with. They never change.
#[derive(Clone, Copy, Debug, PartialEq, Eq)]
pub struct Config {
    /// How many transactions there can be at once: 1 to 65,536.
    pub processes: u32,
    /// How many resources there are: 1 to 65,536, or to 16,777,216 of a table that is opened wide.
    pub resources: u32,
    /// The greatest counter that a label may have: 1 to 17,592,186,044,415.
    pub label_limit: u64,
    /// The last generation of a process: 1 to 4,294,967,295. A process that is freed at it is never given again.
    pub generation_limit: u32,
}

impl Config {
    ghost use Rattle.std.specs.Prelude.{◌≤◌};
    ghost use Rattle.mm_rules.specs.TableState.{IsInRange, IsWide, IsWithin};

    pub const MAX_PROCESSES: u32 = mm_limits::MAX_PROCESSES;

    pub const MAX_RESOURCES: u32 = mm_limits::MAX_RESOURCES;

    pub const MAX_WIDE_RESOURCES: u32 = mm_limits::MAX_WIDE_RESOURCES;

    pub const MAX_LABEL_LIMIT: u64 = 17_592_186_044_415;

    /// Returns whether each number is in its range.
    pub fn is_in_range(&self) -> bool
        ensures { IsTrue result ↔ IsInRange self.now }
    {
        self.is_within(Self::MAX_RESOURCES)
    }

    /// Returns whether each number is in its range for a wide opening.
    pub fn is_wide(&self) -> bool
        ensures { IsTrue result ↔ IsWide self.now }
    {
        self.is_within(Self::MAX_WIDE_RESOURCES)
    }

    /// Returns whether each number is in its range, where this many resources are the most.
    fn is_within(&self, most: u32) -> bool
        ensures { IsTrue result ↔ IsWithin most self.now }
    {
        (1..=Self::MAX_PROCESSES).contains(&self.processes)
            && (1..=most).contains(&self.resources)
            && (1..=Self::MAX_LABEL_LIMIT).contains(&self.label_limit)
            && self.generation_limit >= 1
    }
}
