//! A name is handed over, and its bucket freed if no other name of it is owned.
ghost use Rattle.std.specs.Prelude.{◌≡◌, ◌<◌, ◌/◌, ◌↔◌, Some, IsTrue, slice_get};
ghost use Rattle.std.specs.Bool.{OnFalse, OnTrue};
ghost use Rattle.mm_manager.specs.Calls.{UnlocksName};
ghost use Rattle.mm_thin.specs.Spread.{bucket_by};
ghost use Rattle.mm_desk.specs.All.{FreesUnused};
ghost use Rattle.mm_desk.specs.Calls.{IsLentTo, LoansAreOthers, LoansEnd, KeepsManager, UnlocksAt};

use crate::desk::Desk;
use crate::reply::Unlocked;
use mm_manager::{Key, Refusal};
use mm_thin::{Look, RECORDS};

impl Desk {
    /// Hands a name over that the transaction of a worker owns in the manager; with no waiter it is free. The worker has to let the name's
    /// bucket go before, if it had taken it.
    pub fn unlock(&mut self, at: u32, name: &[u8]) -> Result<Unlocked, Refusal>
        ensures { UnlocksAt self.old at name.now result self.new }
    {
        let Some(key) = self.key_of(at) else {
            return Err(Refusal::NoTransaction);
        };
        let bucket = self.books.spread.of(name);
        if self.has_lent(bucket, key) {
            return Ok(Unlocked::NotLetGo);
        }
        match self.hand_over(key, name) {
            Ok(()) => {
                self.free_if_empty(bucket);
                Ok(Unlocked::Done)
            }
            Err(refusal) => Err(refusal),
        }
    }

    /// Hands a name over whose bucket is lent to no worker of this transaction.
    fn hand_over(&mut self, key: Key, name: &[u8]) -> Result<(), Refusal>
        requires { LoansAreOthers self.old (bucket_by self.old.office.of.spread name.now) key }
        ensures unlocks { UnlocksName self.old.manager key name.now result self.new.manager }
        ensures rest { (self.new.office ≡ self.old.office) × (self.new.keys ≡ self.old.keys) }
    {
        self.books.unlock(key, name)
    }

    /// Whether a bucket is lent to a worker whose transaction has this key.
    pub(crate) fn has_lent(&mut self, bucket: usize, key: Key) -> bool
        requires { bucket < self.old.office.of.table.words }
        ensures others { OnFalse result (LoansAreOthers self.new bucket key) }
        ensures lent { OnTrue result (IsLentTo self.old bucket key) }
        ensures fewer { LoansEnd self.old self.new }
        ensures keeps { KeepsManager self.old self.new }
    {
        match self.office.look(bucket) {
            Look::NotFat => return false,
            Look::Fat => return false,
            Look::IsLent => {}
        }
        is_of(&self.keys, self.lent_to[bucket], key)
    }

    /// Frees a bucket that is fat, if no name of it is owned.
    pub(crate) fn free_if_empty(&mut self, bucket: usize)
        requires { bucket < self.old.office.of.table.words }
        ensures frees { FreesUnused self.old bucket self.new }
        ensures keeps { KeepsManager self.old self.new }
    {
        if self.books.count(bucket) > 0 {
            return;
        }
        if let Look::Fat = self.office.look(bucket) {
            self.office.free(bucket);
        }
    }
}

/// Whether a record is of a worker whose transaction has this key.
fn is_of(keys: &Vec<Key>, number: u32, key: Key) -> bool
    ensures { IsTrue result ↔ (slice_get keys.now.items (number / RECORDS) ≡ Some key) }
{
    match keys.get(number as usize / RECORDS) {
        Some(found) => *found == key,
        None => false,
    }
}
