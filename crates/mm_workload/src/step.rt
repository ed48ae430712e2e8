/// What a client does next.
#[derive(Clone, Copy, Debug, PartialEq, Eq)]
pub enum WorkStep {
    /// Acquires this resource. Its number may be outside the table; the table's call is refused then.
    Acquire(u32),
    /// Releases this resource, whose number may be outside the table too.
    Release(u32),
    /// Arrives at the gate, and goes on once this many arrivals are counted.
    Meet(u32),
}
