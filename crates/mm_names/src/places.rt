//! Where the bytes of each name stand.
ghost use Rattle.std.specs.Prelude.{◌≡◌, ◌+◌, ◌≤◌, ◌<◌, ◌↔◌, None, Some, length, take, drop, IsTrue, IfOk, option_copied};
ghost use borrow.Rule.Slice.PartMut.{put_mid};
ghost use Rattle.mm_names.specs.Names.{nameless, name_of, with_name, IsInRange};

use crate::NamesConfig;
use crate::length::Length;
use std::alloc::{AllocError, Global};
use std::marker::Model;

/// By number: a name, or none. Each number has a place for as many bytes as a name may have, in one array of all bytes.
#[derive(Debug, Drop)]
pub(crate) struct Places {
    bytes: Vec<u8>,
    /// By number: the length of its name, which stands first in its place, or none.
    lengths: Vec<Length>,
    name_bytes: u32,
}

impl Model for Places {
    ghost use Rattle.mm_names.specs.Names.{NameTable};
    ghost use Rattle.mm_names.specs.private.Places.{seen, ArePlaced};

    ghost Value = { NameTable };

    ghost view = { λ p. seen p.name_bytes p.lengths.items p.bytes.items };

    ghost invariant = { λ p. ArePlaced p.name_bytes p.lengths.items p.bytes.items };
}

impl Places {
    /// This many numbers without a name, in `O(numbers * name_bytes)`. It takes memory twice, and no later call takes any.
    ///
    /// `Err` only if that memory is refused.
    pub(crate) fn new(alloc: Global, numbers: u32, name_bytes: u32) -> Result<Places, AllocError>
        requires some_numbers { 1 ≤ numbers }
        requires few_numbers { numbers ≤ NamesConfig.MAX_NAMES }
        requires some_bytes { 1 ≤ name_bytes }
        requires few_bytes { name_bytes ≤ NamesConfig.MAX_NAME_BYTES }
        ensures { IfOk result (λ places. places ≡ nameless numbers name_bytes) }
    {
        let mut lengths = Vec::with_capacity(alloc, numbers as usize)?;
        'lengths: for _ in 0..numbers {
            lengths.push_reserved(Length::NONE);
        }
        let bytes = vec![in alloc; 0; numbers as usize * name_bytes as usize]?;
        Ok(Places {
            bytes,
            lengths,
            name_bytes,
        })
    }

    /// Returns how many numbers there are, in constant time.
    #[inline]
    pub(crate) fn numbers(&self) -> u32
        ensures { result ≡ length self.now.names }
    {
        self.lengths.len() as u32
    }

    /// Returns how many bytes a name may have, in constant time.
    #[inline]
    pub(crate) fn name_bytes(&self) -> u32
        ensures { result ≡ self.now.name_bytes }
    {
        self.name_bytes
    }

    /// Returns the name of a number, in constant time.
    #[inline]
    pub(crate) fn get(&self, number: u32) -> Option<&[u8]>
        requires { number < length self.now.names }
        ensures { option_copied result ≡ name_of self.now number }
    {
        let length = self.lengths[number as usize].get()?;
        let start = number as usize * self.name_bytes as usize;
        Some(&self.bytes[start..start + length as usize])
    }

    /// Returns whether a number has this name, in `O(length)`.
    #[inline]
    pub(crate) fn has(&self, number: u32, name: &[u8]) -> bool
        requires { number < length self.now.names }
        ensures { IsTrue result ↔ (name_of self.now number ≡ Some name.now) }
    {
        match self.get(number) {
            None => false,
            Some(other) => are_equal(other, name),
        }
    }

    /// Gives a number this name, in `O(length)`.
    #[inline]
    pub(crate) fn put(&mut self, number: u32, name: &[u8])
        requires in_range { number < length self.old.names }
        requires some { 1 ≤ length name.now }
        requires short { length name.now ≤ self.old.name_bytes }
        ensures { self.new ≡ with_name self.old number (Some name.now) }
    {
        let start = number as usize * self.name_bytes as usize;
        copy(&mut self.bytes[start..start + name.len()], name);
        self.lengths[number as usize] = Length::of(name.len() as u16);
    }

    /// Takes its name from a number, in constant time.
    #[inline]
    pub(crate) fn clear(&mut self, number: u32)
        requires { number < length self.old.names }
        ensures { self.new ≡ with_name self.old number None }
    {
        self.lengths[number as usize] = Length::NONE;
    }

    /// Does nothing. Its contract is what holds of any places.
    #[inline]
    pub(crate) fn keep_range(&self)
        ensures { IsInRange self.now }
    {
        let _ = &self.name_bytes;
    }
}

/// Writes a name to its place. For most names that costs less than a call of the C library.
#[inline]
fn copy(place: &mut [u8], name: &[u8])
    requires { length place.old ≡ length name.now }
    ensures { place.new ≡ name.now }
{
    match name.len() {
        0..=7 => place.copy_from_slice(name),
        8..=16 => copy_ends(place, name),
        _ => copy_words(place, name),
    }
}

/// Writes a name of 8 to 16 bytes to its place, by its first eight bytes and its last eight.
#[inline]
fn copy_ends(place: &mut [u8], name: &[u8])
    requires long { 8 ≤ length name.now }
    requires short { length name.now ≤ 16 }
    requires place { length place.old ≡ length name.now }
    ensures { place.new ≡ name.now }
{
    copy_word(place, name, 0);
    copy_word(place, name, name.len() - 8);
}

/// Writes a name of eight bytes or more to its place, eight bytes at a time.
#[inline(never)]
fn copy_words(place: &mut [u8], name: &[u8])
    requires long { 8 ≤ length name.now }
    requires place { length place.old ≡ length name.now }
    ensures { place.new ≡ name.now }
{
    let mut done = 0;
    'words: while name.len() - done >= 8 {
        copy_word(place, name, done);
        done += 8;
    }
    if done < name.len() {
        copy_word(place, name, name.len() - 8);
    }
}

/// Writes the eight bytes of a name from `at` on to the same bytes of its place.
#[inline]
fn copy_word(place: &mut [u8], name: &[u8], at: usize)
    requires within { at + 8 ≤ length name.now }
    requires long { length place.old ≡ length name.now }
    ensures { place.new ≡ put_mid at 8 place.old (take 8 (drop at name.now)) }
{
    let Some(word) = name[at..].first_chunk::<8>() else {
        return;
    };
    let word = *word;
    place[at..at + 8].copy_from_slice(&word);
}

/// Returns whether two names are one. For most names that costs less than a call of the C library.
#[inline]
fn are_equal(first: &[u8], second: &[u8]) -> bool
    ensures { IsTrue result ↔ (first.now ≡ second.now) }
{
    if first.len() != second.len() {
        return false;
    }
    match first.len() {
        8..=16 => have_equal_ends(first, second),
        _ => have_equal_words(first, second),
    }
}

/// Returns whether two names of 8 to 16 bytes are one, by their first eight bytes and their last eight.
#[inline]
fn have_equal_ends(first: &[u8], second: &[u8]) -> bool
    requires long { 8 ≤ length first.now }
    requires short { length first.now ≤ 16 }
    requires same_length { length first.now ≡ length second.now }
    ensures { IsTrue result ↔ (first.now ≡ second.now) }
{
    have_equal_word(first, second, 0) && have_equal_word(first, second, first.len() - 8)
}

/// Returns whether the eight bytes from `at` on are those of both names.
#[inline]
fn have_equal_word(first: &[u8], second: &[u8], at: usize) -> bool
    requires first { at + 8 ≤ length first.now }
    requires second { at + 8 ≤ length second.now }
    ensures { IsTrue result ↔ (take 8 (drop at first.now) ≡ take 8 (drop at second.now)) }
{
    let (Some(word), Some(other)) = (
        first[at..].first_chunk::<8>(),
        second[at..].first_chunk::<8>(),
    ) else {
        return false;
    };
    word == other
}

/// Returns whether two names are one, eight bytes at a time.
// Apart: so the comparison of short names stays where it is made.
#[inline(never)]
fn have_equal_words(first: &[u8], second: &[u8]) -> bool
    requires { length first.now ≡ length second.now }
    ensures { IsTrue result ↔ (first.now ≡ second.now) }
{
    let (mut first, mut second) = (first, second);
    'words: while let Some((word, rest)) = first.split_first_chunk::<8>() {
        let Some((other, others)) = second.split_first_chunk::<8>() else {
            return false;
        };
        if word != other {
            return false;
        }
        first = rest;
        second = others;
    }
    are_equal_bytes(first, second)
}

/// Returns whether the last bytes of two names are equal.
#[inline]
fn are_equal_bytes(first: &[u8], second: &[u8]) -> bool
    requires { length first.now ≡ length second.now }
    ensures { IsTrue result ↔ (first.now ≡ second.now) }
{
    let (mut first, mut second) = (first, second);
    'bytes: while let Some((byte, rest)) = first.split_first() {
        let Some((other, others)) = second.split_first() else {
            return false;
        };
        if byte != other {
            return false;
        }
        first = rest;
        second = others;
    }
    true
}
