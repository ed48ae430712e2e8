//! The end of a transaction.
ghost use Rattle.std.specs.Prelude.{◌≡◌, ◌↔◌, ◌<◌, ◌≤◌, ℕ, List, Some, None, Ok, IsTrue, IfSome, IfNone, slice_get, vec_capacity};
ghost use Rattle.std.specs.Bool.{OnFalse, OnTrue};
ghost use Rattle.mm_manager.specs.Calls.{Aborts, Commits};
ghost use Rattle.mm_names.specs.Names.{name_of};
ghost use Rattle.mm_thin.specs.Spread.{bucket_by};
ghost use Rattle.mm_desk.specs.Calls.{IsLentTo, NoLoansOf, LoansEnd, KeepsManager, NumberIsFree, AbortsAt, CommitsAt};

use crate::desk::Desk;
use crate::reply::Unlocked;
use crate::room::Room;
use mm_manager::{Key, Refusal};

impl Desk {
    /// Ends the transaction of a worker that waits for nothing: hands over all that it owns in the manager. `begin` begins the next one.
    ///
    /// `NotLetGo`: the worker has to let go all that it has taken before. Refused as the manager's commit is, and as `NamesFull` if `room`
    /// is for fewer names than there can be; then nothing changes.
    pub fn commit(&mut self, at: u32, room: &mut Room) -> Result<Unlocked, Refusal>
        ensures commits { CommitsAt self.old at (vec_capacity room.old.numbers) result self.new }
        ensures room { vec_capacity room.new.numbers ≡ vec_capacity room.old.numbers }
    {
        let Some(key) = self.key_of(at) else {
            return Err(Refusal::NoTransaction);
        };
        if !self.has_room(room) {
            return Err(Refusal::NamesFull);
        }
        if self.has_loans(key, room) {
            return Ok(Unlocked::NotLetGo);
        }
        match self.finish(key, room) {
            Ok(()) => {
                self.free_empty(&room.buckets);
                Ok(Unlocked::Done)
            }
            Err(refusal) => Err(refusal),
        }
    }

    /// Ends the transaction of a worker as `commit` does, also one that waits: it takes its wait back first.
    pub fn abort(&mut self, at: u32, room: &mut Room) -> Result<Unlocked, Refusal>
        ensures aborts { AbortsAt self.old at (vec_capacity room.old.numbers) result self.new }
        ensures room { vec_capacity room.new.numbers ≡ vec_capacity room.old.numbers }
    {
        let Some(key) = self.key_of(at) else {
            return Err(Refusal::NoTransaction);
        };
        if !self.has_room(room) {
            return Err(Refusal::NamesFull);
        }
        if self.has_loans(key, room) {
            return Ok(Unlocked::NotLetGo);
        }
        match self.roll_back(key, room) {
            Ok(()) => {
                self.free_empty(&room.buckets);
                Ok(Unlocked::Done)
            }
            Err(refusal) => Err(refusal),
        }
    }

    /// Whether there is room for each number of a name.
    pub(crate) fn has_room(&self, room: &Room) -> bool
        ensures { IsTrue result ↔ (self.now.manager.table.config.resources ≤ vec_capacity room.now.numbers) }
    {
        self.books.manager.config().names as usize <= room.numbers.capacity()
    }

    /// Whether a bucket is lent to a worker whose transaction has this key. Lists the buckets of the transaction's names.
    fn has_loans(&mut self, key: Key, room: &mut Room) -> bool
        requires { self.old.manager.table.config.resources ≤ vec_capacity room.old.numbers }
        ensures none { OnFalse result (NoLoansOf self.new key) }
        ensures lent { OnTrue result ((b : ℕ) × IsLentTo self.old b key) }
        ensures keeps { KeepsManager self.old self.new }
        ensures room { vec_capacity room.new.numbers ≡ vec_capacity room.old.numbers }
    {
        let Room { numbers, buckets } = room;
        self.books.manager.holds(key, numbers);
        buckets.clear();
        for k in 0..numbers.len() {
            if self.has_lent_number(numbers[k], key, buckets) {
                return true;
            }
        }
        // A read of a field, so that the proof knows here what holds of any desk: what is lent is owned.
        let _ = &self.books;
        false
    }

    /// Whether the bucket of this number's name is lent to a worker whose transaction has this key. Adds the bucket to `buckets`.
    fn has_lent_number(&mut self, number: u32, key: Key, buckets: &mut Vec<usize>) -> bool
        ensures free { OnFalse result (NumberIsFree self.new key number) }
        ensures lent { OnTrue result ((b : ℕ) × IsLentTo self.old b key) }
        ensures fewer { LoansEnd self.old self.new }
        ensures keeps { KeepsManager self.old self.new }
    {
        match self.bucket_at(number) {
            Some(bucket) => {
                add(buckets, bucket);
                self.has_lent(bucket, key)
            }
            None => false,
        }
    }

    /// The bucket of this number's name.
    fn bucket_at(&self, number: u32) -> Option<usize>
        ensures some { IfSome result (λ b. (b < self.now.office.of.table.words) × ((name : List ℕ) → name_of self.now.manager.names number ≡ Some name → b ≡ bucket_by self.now.office.of.spread name)) }
        ensures none { IfNone result (name_of self.now.manager.names number ≡ None) }
    {
        match self.books.manager.name(number) {
            Some(name) => Some(self.books.spread.of(name)),
            None => None,
        }
    }

    /// Commits a transaction to whose worker nothing is lent.
    fn finish(&mut self, key: Key, room: &mut Room) -> Result<(), Refusal>
        requires room { self.old.manager.table.config.resources ≤ vec_capacity room.old.numbers }
        requires loans { NoLoansOf self.old key }
        ensures commits { Commits self.old.manager key result self.new.manager }
        ensures kept { vec_capacity room.new.numbers ≡ vec_capacity room.old.numbers }
        ensures rest { (self.new.office ≡ self.old.office) × (self.new.keys ≡ self.old.keys) }
    {
        self.books.commit(key, &mut room.numbers)
    }

    /// Aborts a transaction to whose worker nothing is lent.
    fn roll_back(&mut self, key: Key, room: &mut Room) -> Result<(), Refusal>
        requires room { self.old.manager.table.config.resources ≤ vec_capacity room.old.numbers }
        requires loans { NoLoansOf self.old key }
        ensures aborts { Aborts self.old.manager key result self.new.manager }
        ensures kept { vec_capacity room.new.numbers ≡ vec_capacity room.old.numbers }
        ensures rest { (self.new.office ≡ self.old.office) × (self.new.keys ≡ self.old.keys) }
    {
        self.books.abort(key, &mut room.numbers)
    }

    /// Frees those of these buckets of which the manager has no name.
    fn free_empty(&mut self, buckets: &Vec<usize>)
        ensures keeps { KeepsManager self.old self.new }
    {
        for k in 0..buckets.len() {
            let bucket = buckets[k];
            if bucket < self.books.spread.buckets() {
                self.free_if_empty(bucket);
            }
        }
    }
}

/// Adds a bucket, if there is room.
fn add(buckets: &mut Vec<usize>, bucket: usize) {
    if buckets.len() < buckets.capacity() {
        buckets.push_reserved(bucket);
    }
}
