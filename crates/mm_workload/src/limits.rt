//! The greatest numbers of a workload.

/// How many bytes may say a workload.
pub const MAX_BYTES: usize = 1_048_576;

/// How many clients a workload may have.
pub const MAX_CLIENTS: usize = mm_limits::MAX_CLIENTS as usize;

/// How many steps a client may have.
pub const MAX_STEPS: usize = mm_limits::MAX_STEPS as usize;

/// How many transmitters a workload may have.
pub const MAX_TRANSMITTERS: u64 = mm_limits::MAX_TRANSMITTERS as u64;

/// How many turns a worker may have.
pub const MAX_TURNS: u64 = 1_000_000_000;
