//! The numbers of a lock service.
ghost use Rattle.mm_command.specs.Limits.{AreLimits};

/// With what a lock service is opened: 1 to 65,536 transactions, 1 to 16,777,216 names, names of 1 to 1,024 bytes, how many names a
/// transaction may own, 0 for as many as there are, and a seed if one is given. With a number of connections it keeps the transactions of each
/// from the others: at most `each` of one connection can be live, and it has an epoch.
#[derive(Clone, Copy)]
pub struct LocksOptions {
    pub transactions: u32,
    pub names: u32,
    pub name_bytes: u32,
    pub names_each: u32,
    pub seed: Option<u64>,
    pub connections: Option<u32>,
    pub each: Option<u32>,
    pub epoch: Option<u64>,
    ghost in_range: { AreLimits transactions names name_bytes },
}
