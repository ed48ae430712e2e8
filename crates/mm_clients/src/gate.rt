//! Where workers meet.

/// Where clients wait for one another, and where transmitters learn that no client is left. Each worker has a gate of its own.
///
/// A gate promises nothing that a proof could use: what a worker does with its table is proved whatever its gate answers.
pub trait Gate {
    /// Counts one arrival.
    fn arrive(&mut self);

    /// Returns whether at least this many arrivals are counted.
    fn may_pass(&mut self, arrivals: u32) -> bool;

    /// Counts one client as ended.
    fn leave(&mut self);

    /// Returns whether all clients have left.
    fn over(&mut self) -> bool;
}
