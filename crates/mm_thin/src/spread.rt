//! To which bucket a name belongs.
ghost use Rattle.std.specs.Prelude.{◌≡◌, ◌<◌};

use mm_names::NameHash;

/// With what names are hashed, and how many buckets there are.
#[derive(Clone, Copy)]
pub struct Spread {
    pub(crate) hash: NameHash,
    pub(crate) buckets: u64,
    ghost some: { 0 < buckets },
}

impl Spread {
    ghost use Rattle.mm_thin.specs.Spread.{bucket_by};

    /// Returns how many buckets there are.
    pub fn buckets(&self) -> usize
        ensures { result ≡ self.now.buckets }
    {
        self.buckets as usize
    }

    /// Returns the bucket of a name. `O(length)`.
    #[inline(always)]
    pub fn of(&self, name: &[u8]) -> usize
        ensures bucket { result ≡ bucket_by self.now name.now }
        ensures low { result < self.now.buckets }
    {
        let hash = self.hash.of(name);
        (hash as u128 * self.buckets as u128 >> 64) as usize
    }
}
