//! Where the number of a name stands, by the hash of the name.
ghost use Rattle.std.specs.Prelude.{◌≡◌, ◌*◌, ◌<◌, ◌≤◌};
ghost use Rattle.mm_names.specs.declared.config.TheConstants.NamesConfig.{MAX_NAMES};
ghost use Rattle.mm_names.specs.declared.spots.TheConstants.{LISTS_A_NAME};

use crate::hash::NameHash;
use mm_tagged_lists::Spot;

/// How many lists there are for each name that there can be. With more of them fewer names share one.
const LISTS_A_NAME: u32 = 4;

/// The spots of names: one of the lists in which numbers stand, and a tag, a part of the hash that tells names of one list apart.
#[derive(Clone, Copy)]
pub(crate) struct Spots {
    hash: NameHash,
    lists: u32,
    ghost some_lists: { 1 ≤ lists },
    ghost few_lists: { lists ≤ LISTS_A_NAME * MAX_NAMES },
}

impl Spots {
    ghost use Rattle.mm_names.specs.Hash.{hash_by};
    ghost use Rattle.mm_names.specs.private.Spots.{spot_of};

    /// Spots for this many names, by the hash of this seed.
    pub(crate) fn new(seed: u64, names: u32) -> Spots
        requires some_names { 1 ≤ names }
        requires few_names { names ≤ MAX_NAMES }
        ensures hash { result.hash ≡ hash_by seed }
        ensures lists { result.lists ≡ LISTS_A_NAME * names }
    {
        Spots {
            hash: NameHash::new(seed),
            lists: LISTS_A_NAME * names,
        }
    }

    /// Returns the spot of a name, in `O(length)`.
    // In place, as the hash is.
    #[inline(always)]
    pub(crate) fn of(&self, name: &[u8]) -> Spot
        ensures spot { result ≡ spot_of self.now name.now }
        ensures in_range { result.list < self.now.lists }
    {
        let hash = self.hash.of(name);
        Spot {
            list: ((hash >> 32) * self.lists as u64 >> 32) as u32,
            tag: (hash % (1 << 32)) as u32,
        }
    }

    /// Returns how many lists there are, in constant time.
    #[inline]
    pub(crate) fn lists(&self) -> u32
        ensures { result ≡ self.now.lists }
    {
        self.lists
    }
}
