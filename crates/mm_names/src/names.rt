//! The names.
ghost use Rattle.std.specs.Prelude.{◌≡◌, ◌≤◌, ◌<◌, ◌↔◌, ℕ, None, Some, Err, length, IfOk, OnErr, IsTrue, IsSome, MatchOption, option_copied, option_map, vec_capacity};
ghost use Rattle.std.specs.Bool.{OnTrue, OnFalse};
ghost use Rattle.mm_tagged_lists.specs.TaggedLists.{spot_at};
ghost use Rattle.mm_names.specs.Names.{nameless, name_of, with_name, IsNamed, IsRefusedAsFull, Interns, IsLawful, IsNamesOut, IsNameBytesOut};
ghost use Rattle.mm_names.specs.private.Index.{AreAll};

use crate::places::Places;
use crate::spots::Spots;
use crate::{NamesConfig, NamesError, OpenError};
use mm_tagged_lists::{Spot, TaggedLists};
use std::alloc::{AllocError, Global};
use std::marker::Model;

/// The number of a name, and whether the name is new.
#[derive(Clone, Copy, Debug, PartialEq, Eq)]
pub struct Entry {
    pub number: u32,
    /// Whether no number had the name before.
    pub is_new: bool,
}

/// Names for numbers: a name has one number at most, and a number one name at most. No call but `open` takes memory.
///
/// A contract sees it as a `NameTable` (`specs/Names.antt`): by number its name, or none.
#[derive(Drop)]
pub struct Names {
    places: Places,
    /// The list in which each number stands that has a name: that of the name's hash.
    index: TaggedLists,
    spots: Spots,
    /// The numbers without a name. The last one is the next to get one.
    free: Vec<u32>,
}

impl Model for Names {
    ghost use Rattle.std.specs.Prelude.{◌≤◌, length, vec_capacity};
    ghost use Rattle.mm_names.specs.Names.{NameTable};
    ghost use Rattle.mm_names.specs.private.Index.{AreIndexed};

    ghost Value = { NameTable };

    ghost view = { λ n. n.places };

    ghost invariant = { λ n. AreIndexed n.places n.index n.spots n.free.items × (length n.places.names ≤ vec_capacity n.free) };
}

impl Names {
    /// Names of this configuration: no number has a name yet. `O(names * name_bytes)`.
    ///
    /// Refused as `Names` or else as `NameBytes` exactly if that number of the configuration is out of its range, and as `Memory`
    /// only if a request for memory was refused. This is the one call that takes memory: for the bytes of the names, for their
    /// lengths, for the lists, for the links of each number, and for the numbers without a name.
    pub fn open(alloc: Global, config: NamesConfig) -> Result<Names, OpenError>
        ensures opened { IfOk result (λ names. names ≡ nameless config.names config.name_bytes) }
        ensures names { (result ≡ Err OpenError.Names) ↔ IsNamesOut config }
        ensures name_bytes { (result ≡ Err OpenError.NameBytes) ↔ (¬ IsNamesOut config × IsNameBytesOut config) }
    {
        if config.names == 0 || config.names > NamesConfig::MAX_NAMES {
            return Err(OpenError::Names);
        }
        if config.name_bytes == 0 || config.name_bytes > NamesConfig::MAX_NAME_BYTES {
            return Err(OpenError::NameBytes);
        }
        Ok(no_names(alloc, config)?)
    }

    /// Returns the number of a name; `None` exactly if no number has it. `O(length)`, and a look at each name of the same list.
    // In place, as `enter` is: a call would cost a tenth of what it does.
    #[inline(always)]
    pub fn find(&self, name: &[u8]) -> Option<u32>
        ensures { MatchOption result (¬ IsNamed self.now name.now) (λ n. name_of self.now n ≡ Some name.now) }
    {
        find_at(&self.places, &self.index, self.spots.of(name), name)
    }

    /// Returns the number of a name, and whether the name is new. A new name gets a number that had none; which one is left open. The
    /// names of all other numbers stay.
    ///
    /// Refused as `Empty` or `TooLong` exactly if the name has no bytes or more than there may be, and else as `Full` exactly if the name
    /// is new and each number has one; then nothing changes. `O(length)`, and a look at each name of the same list.
    // In place: a call would cost a fifth of what it does.
    #[inline(always)]
    pub fn enter(&mut self, name: &[u8]) -> Result<Entry, NamesError>
        ensures entered { IfOk result (λ entry. Interns self.old name.now entry.number self.new) }
        ensures new { IfOk result (λ entry. IsTrue entry.is_new ↔ ¬ IsNamed self.old name.now) }
        ensures empty { (result ≡ Err NamesError.Empty) ↔ (length name.now ≡ 0) }
        ensures too_long { (result ≡ Err NamesError.TooLong) ↔ (self.old.name_bytes < length name.now) }
        ensures full { (result ≡ Err NamesError.Full) ↔ IsRefusedAsFull self.old name.now }
        ensures refused { OnErr result (self.new ≡ self.old) }
    {
        if name.is_empty() {
            return Err(NamesError::Empty);
        }
        if name.len() > self.places.name_bytes() as usize {
            return Err(NamesError::TooLong);
        }
        let spot = self.spots.of(name);
        if let Some(number) = find_at(&self.places, &self.index, spot, name) {
            return Ok(Entry {
                number,
                is_new: false,
            });
        }
        let Some(number) = self.free.pop() else {
            return Err(NamesError::Full);
        };
        self.index.push(spot, number);
        self.places.put(number, name);
        Ok(Entry {
            number,
            is_new: true,
        })
    }

    /// Returns the name of a number, in constant time. `None` if it has none, or is not one of the numbers.
    pub fn name(&self, number: u32) -> Option<&[u8]>
        ensures { option_copied result ≡ name_of self.now number }
    {
        if number >= self.places.numbers() {
            return None;
        }
        self.places.get(number)
    }

    /// Takes its name from a number, and tells whether it had one. The names of all other numbers stay. Constant time.
    #[inline]
    pub fn forget(&mut self, number: u32) -> bool
        ensures had { IsTrue result ↔ IsSome (name_of self.old number) }
        ensures forgotten { OnTrue result (self.new ≡ with_name self.old number None) }
        ensures unchanged { OnFalse result (self.new ≡ self.old) }
    {
        if !self.has_name(number) {
            return false;
        }
        self.index.remove(number);
        self.places.clear(number);
        self.free.push_reserved(number);
        true
    }

    /// Returns whether a number has a name: it stands in a list exactly then. Constant time.
    #[inline]
    fn has_name(&self, number: u32) -> bool
        ensures { IsTrue result ↔ IsSome (name_of self.now number) }
    {
        if number >= self.places.numbers() {
            return false;
        }
        self.index.spot(number).is_some()
    }

    /// Returns how many bytes a name may have, in constant time.
    #[inline]
    pub fn name_bytes(&self) -> u32
        ensures { result ≡ self.now.name_bytes }
    {
        self.places.name_bytes()
    }

    /// Does nothing. Its contract is what holds of any names that a caller can hold.
    pub fn keeps_laws(&self)
        ensures { IsLawful self.now }
    {
        self.places.keep_range();
    }
}

/// Numbers without a name. The configuration is in range.
fn no_names(alloc: Global, config: NamesConfig) -> Result<Names, AllocError>
    requires some_names { 1 ≤ config.names }
    requires few_names { config.names ≤ NamesConfig.MAX_NAMES }
    requires some_bytes { 1 ≤ config.name_bytes }
    requires few_bytes { config.name_bytes ≤ NamesConfig.MAX_NAME_BYTES }
    ensures { IfOk result (λ names. names ≡ nameless config.names config.name_bytes) }
{
    let places = Places::new(alloc, config.names, config.name_bytes)?;
    let spots = Spots::new(config.seed, config.names);
    let index = TaggedLists::new(alloc, spots.lists(), config.names)?;
    let free = all_free(alloc, config.names)?;
    Ok(Names {
        places,
        index,
        spots,
        free,
    })
}

/// Returns the numbers below this one, the least one last.
fn all_free(alloc: Global, numbers: u32) -> Result<Vec<u32>, AllocError>
    ensures all { IfOk result (λ free. AreAll numbers free.items) }
    ensures room { IfOk result (λ free. numbers ≤ vec_capacity free) }
{
    let mut free = Vec::with_capacity(alloc, numbers as usize)?;
    let mut left = numbers;
    'free: while left > 0 {
        left -= 1;
        free.push_reserved(left);
    }
    Ok(free)
}

/// Returns the number of a name that is nowhere but at this spot. Most lists have one number or none, so the first one is looked at here.
#[inline(always)]
fn find_at(places: &Places, index: &TaggedLists, spot: Spot, name: &[u8]) -> Option<u32>
    requires in_range { spot.list < length index.now.lists }
    requires numbers { length index.now.spots ≡ length places.now.names }
    requires at_spot { (n : ℕ) → name_of places.now n ≡ Some name.now → spot_at index.now n ≡ Some spot }
    ensures { MatchOption result (¬ IsNamed places.now name.now) (λ n. name_of places.now n ≡ Some name.now) }
{
    let Some(first) = index.first(spot.list) else {
        return None;
    };
    if has_tag(index, first, spot.tag) && places.has(first, name) {
        return Some(first);
    }
    find_in_list(places, index, spot, name)
}

/// Returns the number of a name that is nowhere but at this spot, wherever it stands in the list.
#[inline(never)]
fn find_in_list(places: &Places, index: &TaggedLists, spot: Spot, name: &[u8]) -> Option<u32>
    requires in_range { spot.list < length index.now.lists }
    requires numbers { length index.now.spots ≡ length places.now.names }
    requires at_spot { (n : ℕ) → name_of places.now n ≡ Some name.now → spot_at index.now n ≡ Some spot }
    ensures { MatchOption result (¬ IsNamed places.now name.now) (λ n. name_of places.now n ≡ Some name.now) }
{
    let mut next = index.first(spot.list);
    'list: while let Some(number) = next {
        if has_tag(index, number, spot.tag) && places.has(number, name) {
            return Some(number);
        }
        next = index.next(number);
    }
    None
}

/// Returns whether a number stands in its list under this part of a hash. That is compared before the bytes: most other names are not read.
#[inline(always)]
fn has_tag(index: &TaggedLists, number: u32, tag: u32) -> bool
    requires { number < length index.now.spots }
    ensures { IsTrue result ↔ (option_map (λ spot. spot.tag) (spot_at index.now number) ≡ Some tag) }
{
    match index.spot(number) {
        None => false,
        Some(spot) => spot.tag == tag,
    }
}
