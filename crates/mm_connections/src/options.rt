//! The numbers of a service with connections.

/// The numbers with which a service with connections is opened, beside those of its manager.
#[derive(Clone, Copy)]
pub struct ConnectionOptions {
    /// How many connections there are, with the operator's: they have the numbers below this one.
    pub connections: u32,
    /// How many transactions of one connection can be live.
    pub each: u32,
    /// The epoch of the service, if it has one. It stands in front of each fence.
    pub epoch: Option<u64>,
}
