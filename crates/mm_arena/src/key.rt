//! The key of a value in an arena.
ghost use Rattle.std.specs.Prelude.{Some};
ghost use Rattle.mm_arena.specs.Key.{key_text};

use std::fmt;

/// A process number, and the generation that tells one use of the number from the next.
#[derive(Clone, Copy, Debug, PartialEq, Eq, PartialOrd, Ord, Hash)]
pub struct Key {
    /// Below the arena's capacity, in each key that an arena gave.
    pub process: u32,
    /// From 1 to the arena's generation limit, in each key that an arena gave.
    pub generation: u32,
}

/// Writes the process, a dot and the generation, both in decimal.
impl fmt::Display for Key {
    ghost output = { λ key. Some (key_text key) };

    fn fmt<W: fmt::Write>(&self, f: &mut fmt::Formatter<W>) -> fmt::Result {
        write!(f, "{}.{}", self.process, self.generation)
    }
}
