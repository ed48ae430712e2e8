//! A table that several workers call, each with a part of its counts.
ghost use Rattle.std.specs.Prelude.{◌≡◌, ◌<◌};
ghost use Rattle.mm_counts.specs.Shares.{joined, less_parts};

use mm_clients::Steps;

/// A table as one worker calls it, which can give parts of its counts to others and take them back.
pub trait Divisible: Steps {
    /// Gives one part away. Nothing is counted there yet.
    fn split(&mut self) -> Self
        requires { 1 < (Self.shares self.old).parts }
        ensures kept { Self.shares self.new ≡ less_parts (Self.shares self.old) 1 }
        ensures one_part { (Self.shares result).parts ≡ 1 }
        ensures no_abort { (Self.shares result).aborts ≡ 0 };

    /// Takes the parts of another one in, with what was counted there.
    fn join(&mut self, other: Self)
        ensures { Self.shares self.new ≡ joined (Self.shares self.old) (Self.shares other) };

    /// Returns how many processes the table has.
    fn processes(&self) -> u32;
}
