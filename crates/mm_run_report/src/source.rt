//! From what a workload was made.

use mm_workload::StormOptions;
use serde::Serialize;

/// From what the workload was made.
#[derive(Clone, Copy, Drop, Serialize)]
#[serde(tag = "command", rename_all = "snake_case")]
pub enum Source<'a> {
    /// It was read from this file.
    Threads {
        file: &'a str,
    },
    /// It was generated from these numbers.
    Storm {
        seed: u64,
        resources: u32,
        acquires: u32,
        transactions: u32,
    },
}

impl<'a> Source<'a> {
    /// Returns a workload that is generated from these numbers.
    pub fn of_storm(options: &StormOptions) -> Source<'a> {
        Source::Storm {
            seed: options.seed,
            resources: options.shape.resources,
            acquires: options.shape.acquires,
            transactions: options.shape.transactions,
        }
    }

    /// Returns the name that lines for people begin with: that of the file, or `storm`.
    pub fn name(&self) -> &'a str {
        match self {
            Source::Threads { file } => file,
            Source::Storm { .. } => "storm",
        }
    }
}
