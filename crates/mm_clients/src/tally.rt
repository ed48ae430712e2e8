//! What workers count of the replies to their calls.
ghost use Rattle.std.specs.Prelude.{◌≡◌, ◌+◌, min};

/// What one worker, or all of them, counted of the replies to calls. Each number stops at 18,446,744,073,709,551,615.
#[derive(Clone, Copy, Debug, PartialEq, Eq)]
pub struct Tally {
    /// `acquire` answered that the transaction waits.
    pub waits: u64,
    /// `transmit` raised a label, and `settle` this many.
    pub raises: u64,
}

impl Tally {
    /// Nothing counted.
    pub const NONE: Tally = Tally {
        waits: 0,
        raises: 0,
    };

    /// Counts what another worker counted, too.
    pub fn add(&mut self, other: Tally)
        ensures waits { self.new.waits ≡ min (self.old.waits + other.waits) u64.MAX }
        ensures raises { self.new.raises ≡ min (self.old.raises + other.raises) u64.MAX }
    {
        self.waits = self.waits.saturating_add(other.waits);
        self.raises = self.raises.saturating_add(other.raises);
    }
}
