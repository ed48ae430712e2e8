//! What all threads share, and what each has done.

use crate::names::Name;
use mm_locks::Locks;
use std::sync::Barrier;
use std::sync::atomic::{AtomicBool, AtomicU64};

/// What the threads do.
#[derive(Clone, Copy)]
pub enum Way {
    /// Transactions of four locks, one after the other.
    One,
    /// Transactions of four locks by one call.
    All,
    /// The same by `run`.
    Run,
    /// Transactions of one to six locks, each of which looks whether it is the only owner of its names.
    Crowd,
    /// One owns a name until the end, and the others wait for it.
    Sleep,
}

impl Way {
    /// The way of this name.
    pub fn named(name: &str) -> Option<Way> {
        match name {
            "one" => Some(Way::One),
            "all" => Some(Way::All),
            "run" => Some(Way::Run),
            "crowd" => Some(Way::Crowd),
            "sleep" => Some(Way::Sleep),
            _ => None,
        }
    }
}

/// What the threads share.
#[derive(Drop)]
pub struct Shared<'a> {
    pub locks: &'a Locks,
    pub names: &'a [Name],
    /// By name, how many believe that they own it.
    pub owners: &'a [AtomicU64],
    pub way: Way,
    /// All wait here before they begin.
    pub gate: &'a Barrier,
    /// Set when they are to stop.
    pub stop: &'a AtomicBool,
}

/// What a thread has done.
#[derive(Clone, Copy)]
pub struct Done {
    pub nanoseconds: u64,
    pub commits: u64,
    pub aborts: u64,
    /// How often another one owned a name of this one's at the same time.
    pub shared: u64,
}

impl Done {
    pub const NOTHING: Done = Done {
        nanoseconds: 0,
        commits: 0,
        aborts: 0,
        shared: 0,
    };

    /// Both together.
    pub fn and(self, other: Done) -> Done {
        Done {
            nanoseconds: self.nanoseconds.wrapping_add(other.nanoseconds),
            commits: self.commits.wrapping_add(other.commits),
            aborts: self.aborts.wrapping_add(other.aborts),
            shared: self.shared.wrapping_add(other.shared),
        }
    }
}
