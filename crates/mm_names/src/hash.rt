//! The hash of a name.
ghost use Rattle.std.specs.Prelude.{◌≡◌, ◌+◌, ◌<◌, ◌≤◌, length};
ghost use Rattle.std.specs.Hash.FoldHasher.{folded_multiply, read_u32, read_u64, read_short};

use std::hash::{DefaultHasher, Hasher};

/// How many bytes of a name go into one step of its hash.
const BLOCK: usize = 16;

/// What the length of a name is multiplied by: 2⁶⁴ times the golden ratio, so that lengths lead to lists far apart.
const LENGTH_FACTOR: u64 = 0x9E37_79B9_7F4A_7C15;

/// What names are hashed with: two numbers that come of the seed.
///
/// A step takes two words of the name, joins each with one of the numbers by `^`, multiplies them to 128 bits, and joins the halves of
/// the product by `^`, as wyhash and foldhash do. The length, times a constant, is added last: joined with a word, it could be undone by another
/// word, and `2` and `12` would have one hash by each seed. For somebody who knows neither the seed nor how long calls take, no way is
/// known to choose names of one hash. This is not proved. With the seed names of one hash can be chosen.
#[derive(Clone, Copy)]
pub struct NameHash {
    first: u64,
    second: u64,
}

impl NameHash {
    ghost use Rattle.mm_names.specs.Hash.{hash_by, hash_of, last_step, steps_of};

    /// Returns the hash by the numbers that SipHash-1-3 makes of this seed.
    pub fn new(seed: u64) -> NameHash
        ensures { result ≡ hash_by seed }
    {
        let mut hasher = DefaultHasher::new();
        hasher.write_u64(seed);
        let first = hasher.finish();
        hasher.write_u64(first);
        NameHash {
            first,
            second: hasher.finish() | 1,
        }
    }

    /// Returns the hash of a name, in `O(length)`.
    // In place: most names are short, and cost little more than a call.
    #[inline(always)]
    pub fn of(&self, name: &[u8]) -> u64
        ensures { result ≡ hash_of self.now name.now }
    {
        let words = if name.len() <= BLOCK {
            self.last_step(self.first, name)
        } else {
            self.of_long(name)
        };
        words.wrapping_add((name.len() as u64).wrapping_mul(LENGTH_FACTOR))
    }

    /// Returns what the steps make of a name of more than one block, in `O(length)`.
    fn of_long(&self, name: &[u8]) -> u64
        requires long { 16 < length name.now }
        ensures { result ≡ steps_of self.now name.now }
    {
        let blocks = (name.len() - 1) / BLOCK;
        let mut state = self.first;
        for block in 0..blocks {
            let at = BLOCK * block;
            state = folded(word(name, at) ^ state, word(name, at + 8) ^ self.second);
        }
        self.last_step(state, &name[BLOCK * blocks..])
    }

    /// Returns the hash of a name of which this is left: its last one to sixteen bytes, as two words that may overlap, or as one.
    #[inline]
    fn last_step(&self, state: u64, rest: &[u8]) -> u64
        ensures { result ≡ last_step self.now state rest.now }
    {
        if rest.len() > 8 {
            folded(
                word(rest, 0) ^ state,
                word(rest, rest.len() - 8) ^ self.second,
            )
        } else {
            folded(short_word(rest) ^ state, self.second)
        }
    }
}

/// Returns the two halves of the 128 bits of a product, joined by `^`.
#[inline]
fn folded(a: u64, b: u64) -> u64
    ensures { result ≡ folded_multiply a b }
{
    let product = a as u128 * b as u128;
    (product & 0xFFFF_FFFF_FFFF_FFFF) as u64 ^ (product >> 64) as u64
}

/// Returns the four bytes from `at` on as one number, the lowest first.
// Copied, and not read one by one: so the compiler makes one load of them.
#[inline]
fn half_word(name: &[u8], at: usize) -> u64
    requires { at + 4 ≤ length name.now }
    ensures { result ≡ read_u32 name.now at }
{
    let mut bytes = [0; 4];
    bytes.copy_from_slice(&name[at..at + 4]);
    u32::from_le_bytes(bytes) as u64
}

/// Returns the eight bytes from `at` on as one number, the lowest first.
#[inline]
fn word(name: &[u8], at: usize) -> u64
    requires { at + 8 ≤ length name.now }
    ensures { result ≡ read_u64 name.now at }
{
    half_word(name, at) | half_word(name, at + 4) << 32
}

/// Up to eight bytes as one number, by reads that may overlap. Eight bytes are read at once.
#[inline]
fn short_word(name: &[u8]) -> u64
    ensures { result ≡ read_short name.now }
{
    let length = name.len();
    if length == 8 {
        word(name, 0)
    } else if length >= 4 {
        half_word(name, 0) | half_word(name, length - 4) << 32
    } else if length > 0 {
        name[0] as u64 | (name[length / 2] as u64) << 8 | (name[length - 1] as u64) << 16
    } else {
        0
    }
}
