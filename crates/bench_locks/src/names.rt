//! Names, and which of them a transaction locks.
ghost use Rattle.std.specs.Prelude.{◌<◌, ◌≤◌};

use rand_core::utils::NextWord;
use rand_pcg::Lcg64Xsh32;
use std::alloc::{AllocError, Global};

/// How many names a transaction locks at the most.
pub const MOST: usize = 6;

pub type Name = [u8; 16];

/// The name of a number: `accounts/` and its last seven digits.
fn name_of(number: u32) -> Name {
    let mut name = *b"accounts/0000000";
    let mut rest = number;
    for place in 0..7usize {
        name[15 - place] = b'0'.wrapping_add((rest % 10) as u8);
        rest /= 10;
    }
    name
}

/// This many names.
pub fn all_names(alloc: Global, count: u32) -> Result<Vec<Name>, AllocError> {
    let mut names = Vec::with_capacity(alloc, count as usize)?;
    for number in 0..count {
        names.push(name_of(number))?;
    }
    Ok(names)
}

/// A number below a bound from a word by chance. It takes no division, which would take longer than a lock.
#[inline]
fn below(word: u32, bound: u32) -> u32
    requires { 0 < bound }
{
    (u64::from(word) * u64::from(bound) >> 32) as u32
}

/// This many numbers below a bound by chance, no two the same, in the first places. The bound is above `MOST`.
pub fn chosen(random: &mut Lcg64Xsh32, bound: u32, count: usize) -> [u32; MOST]
    requires { 0 < bound }
{
    let mut chosen = [0u32; MOST];
    let mut found = 0usize;
    for _ in 0..u64::MAX {
        if found >= count.min(MOST) {
            break;
        }
        let number = below(random.next_word(), bound);
        if !chosen[..found].contains(&number) {
            chosen[found] = number;
            found += 1;
        }
    }
    chosen
}

/// The name of this number, as bytes.
fn bytes(names: &[Name], number: u32) -> &[u8] {
    match names.get(number as usize) {
        Some(name) => name.as_slice(),
        None => b"none",
    }
}

/// The names of these numbers.
pub fn names_of<'n>(names: &'n [Name], numbers: &[u32; MOST]) -> [&'n [u8]; MOST] {
    let [one, two, three, four, five, six] = *numbers;
    [
        bytes(names, one),
        bytes(names, two),
        bytes(names, three),
        bytes(names, four),
        bytes(names, five),
        bytes(names, six),
    ]
}
