//! The greatest numbers that more than one crate names. It has no code.
#![tactic(auto)]

/// How many processes a table can have: this many transactions at once.
pub const MAX_PROCESSES: u32 = 65_536;

/// A count of a table that is this or more refuses each event.
pub const COUNT_LIMIT: u64 = 1 << 62;

/// How many resources a table can have.
pub const MAX_RESOURCES: u32 = 65_536;

/// How many resources a table can have that is opened wide.
pub const MAX_WIDE_RESOURCES: u32 = 16_777_216;

/// How many names can be locked at once. Each is a resource of a table that is opened wide.
pub const MAX_NAMES: u32 = MAX_WIDE_RESOURCES;

/// How many bytes a name can have.
pub const MAX_NAME_BYTES: u32 = 1_024;

/// How many clients a workload can have.
pub const MAX_CLIENTS: u32 = 64;

/// How many transmitters a workload can have.
pub const MAX_TRANSMITTERS: u32 = 64;

/// How many steps a client of a workload can have.
pub const MAX_STEPS: u32 = 256;

/// How many transactions each client of a generated workload can make.
pub const MAX_TRANSACTIONS: u32 = 1_000_000;

/// How many words can give a client of a generated workload a resource. Each gives one step at most.
pub const MAX_ACQUIRES: u32 = MAX_STEPS;
