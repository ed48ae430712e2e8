//! Words, and the numbers and keys that they spell.
ghost use Rattle.std.specs.Prelude.{◌≡◌, ◌+◌, ◌-◌, ◌^◌};
ghost use Rattle.std.specs.Iterator.{YieldsFirstRef, item_count};
ghost use Rattle.mm_lines.specs.Words.{words_of, number_at_most, key_of};

use crate::cut::{index_of_other, split_once};
use mm_arena::Key;

/// The words of a line: what stands between spaces.
#[derive(Drop)]
pub struct Words<'a> {
    rest: &'a [u8],
}

impl<'a> Words<'a> {
    ghost use Rattle.mm_lines.specs.WordsLeft.{words_left, TakesFirst};

    pub fn new(line: &'a [u8]) -> Self
        ensures { words_left result ≡ words_of line.now }
    {
        Words { rest: line }
    }

    /// Returns the number that the next word spells, if there is a word.
    pub fn next_number64(&mut self) -> Option<u64>
        ensures { TakesFirst (number_at_most u64.MAX) self.old result self.new }
    {
        number64(self.next()?)
    }

    /// The same, if it fits.
    pub fn next_number32(&mut self) -> Option<u32>
        ensures { TakesFirst (number_at_most u32.MAX) self.old result self.new }
    {
        number32(self.next()?)
    }

    /// Returns the key that the next word spells, if there is a word.
    pub fn next_key(&mut self) -> Option<Key>
        ensures { TakesFirst key_of self.old result self.new }
    {
        key(self.next()?)
    }
}

impl<'a> Iterator for Words<'a> {
    ghost use Rattle.mm_lines.specs.WordsLeft.{words_left};

    type Item = &'a [u8];

    ghost next_gives = { YieldsFirstRef words_left };

    ghost remaining = { item_count words_left };

    fn next(&mut self) -> Option<&'a [u8]> {
        let (_, rest) = self.rest.split_at(index_of_other(b' ', self.rest));
        if rest.is_empty() {
            self.rest = rest;
            return None;
        }
        let (word, rest) = split_once(b' ', rest).unwrap_or((rest, &[]));
        self.rest = rest;
        Some(word)
    }
}

/// The longest number in digits.
const MAX_DIGITS: usize = 20;

/// Returns the number that a word spells.
fn number64(word: &[u8]) -> Option<u64>
    ensures { result ≡ number_at_most u64.MAX word.now }
{
    if word.is_empty() || word.len() > MAX_DIGITS {
        return None;
    }
    let mut number = 0u64;
    for digit in word {
        if !digit.is_ascii_digit() {
            return None;
        }
        number = number
            .checked_mul(10)?
            .checked_add(u64::from(digit - b'0'))?;
    }
    Some(number)
}

/// Returns the number that a word spells, if it fits: 1 to 20 decimal digits.
pub fn number32(word: &[u8]) -> Option<u32>
    ensures { result ≡ number_at_most u32.MAX word.now }
{
    u32::try_from(number64(word)?).ok()
}

/// Returns the key that a word spells.
fn key(word: &[u8]) -> Option<Key>
    ensures { result ≡ key_of word.now }
{
    let (process, generation) = split_once(b'.', word)?;
    Some(Key {
        process: number32(process)?,
        generation: number32(generation)?,
    })
}
