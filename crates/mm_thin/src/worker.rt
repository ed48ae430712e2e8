//! A transaction's part of the words.
ghost use Rattle.std.specs.Prelude.{◌≡◌, ◌≢◌, ◌≤◌, ◌<◌, ◌+◌, ◌⊎◌, ℕ, [], Some, length, slice_get, IfSome, IfNone, nat_eq};
ghost use Rattle.mm_thin.specs.declared.views.RecordView.{RecordView};
ghost use Rattle.mm_thin.specs.Calls.{IsFor, HasTaken, IsFull, AreIdleFrom, TakesAt, TakesName, LeavesName};

use crate::buckets::Buckets;
use crate::place::Place;
use crate::reply::{GiveUp, Take};
use std::marker::Model;

/// How many names a worker can have taken at once.
pub const PLACES: usize = 16;

/// How many records of a worker are never used: they keep the texts of two workers 128 bytes apart.
pub(crate) const SPARE: usize = 2;

/// How many records there are for each worker: that of a number is of the worker with this number divided by it.
pub const RECORDS: usize = PLACES + SPARE;

/// A transaction's part of the words: a record for each name that it can have taken, and the list of what they have taken. A contract sees a
/// `WorkerState`.
#[derive(Drop)]
pub struct Worker {
    pub(crate) buckets: Buckets,
    pub(crate) at: u32,
    pub(crate) places: Vec<Place>,
    /// The places from this one on have taken nothing.
    pub(crate) used: usize,
}

impl Model for Worker {
    ghost use Rattle.std.specs.Prelude.{map};
    ghost use Rattle.mm_thin.specs.Parts.{WorkerState, RecordState, AreUsed};

    ghost Value = { WorkerState };

    ghost view = { λ w. record { of = w.buckets; at = w.at; records = map (λ (p : RecordState). p.1) w.places.items } };

    ghost invariant = { λ w. AreUsed w.buckets w.at w.places.items w.used };
}

impl Worker {
    /// Its number: that of its transaction.
    pub fn at(&self) -> u32
        ensures { result ≡ self.now.at }
    {
        self.at
    }

    /// Returns a record that has taken nothing.
    #[inline(always)]
    fn idle(&self) -> Option<usize>
        ensures some { IfSome result (λ k. (r : RecordView) × (slice_get self.now.records k ≡ Some r) × (r.taken ≡ [])) }
        ensures none { IfNone result (IsFull self.now.records) }
    {
        if self.used < PLACES {
            return Some(self.used);
        }
        self.idle_below()
    }

    /// Returns a record that has taken nothing, if all places are used.
    #[inline(never)]
    fn idle_below(&self) -> Option<usize>
        ensures some { IfSome result (λ k. (r : RecordView) × (slice_get self.now.records k ≡ Some r) × (r.taken ≡ [])) }
        ensures none { IfNone result (IsFull self.now.records) }
    {
        for k in 0..self.places.len() {
            if self.places[k].is_idle() {
                return Some(k);
            }
        }
        None
    }

    /// Returns the number of the record that has taken this name.
    pub(crate) fn find(&self, name: &[u8]) -> Option<usize>
        ensures some { IfSome result (λ k. (r : RecordView) × (slice_get self.now.records k ≡ Some r) × IsFor r name.now) }
        ensures none { IfNone result (HasTaken self.now.records name.now → ⊥) }
    {
        for k in 0..self.used {
            if self.places[k].is_for(name) {
                return Some(k);
            }
        }
        None
    }

    /// Takes a name, if its bucket is free. One compare-and-swap.
    pub fn take(&mut self, name: &[u8]) -> Take
        ensures { TakesName self.old name.now result self.new }
    {
        if name.is_empty() || name.len() > self.buckets.bytes {
            return Take::NotThin;
        }
        let Some(k) = self.idle() else {
            return if self.find(name).is_some() {
                Take::Held
            } else {
                Take::Full
            };
        };
        let word = self.take_at(k, name);
        if word == 0 {
            return Take::Taken;
        }
        if self.find(name).is_some() {
            return Take::Held;
        }
        if word < 4 { Take::Fat } else { Take::Busy }
    }

    /// Takes a name with this record, if its bucket is free. Returns the word that it found: 0 if the bucket was free.
    #[inline(always)]
    fn take_at(&mut self, k: usize, name: &[u8]) -> u64
        requires idle { (r : RecordView) × (slice_get self.old.records k ≡ Some r) × (r.taken ≡ []) }
        requires name { length name.now ≤ self.old.of.bytes }
        ensures { TakesAt self.old k name.now (nat_eq result 0) self.new }
    {
        let bucket = self.buckets.of(name);
        let word = self.places[k].take(self.buckets.steps(), bucket, name);
        self.used = used_with(self.used, k, word);
        word
    }

    /// Gives back what this record has taken, unless its bucket is fat. One compare-and-swap.
    #[inline]
    pub(crate) fn give_back(&mut self, k: usize) -> GiveUp
        ensures { LeavesName self.old k result self.new }
    {
        if k >= self.places.len() {
            return GiveUp::NotTaken;
        }
        let given = self.places[k].give_back(self.buckets.steps());
        self.used = used_without(self.used, k, given);
        given
    }

    /// Lets go what this record has taken, if the office has made its bucket fat: it stays fat. One compare-and-swap.
    ///
    /// `Changed` also while the office is just making it fat.
    pub(crate) fn let_go(&mut self, k: usize) -> GiveUp
        ensures { LeavesName self.old k result self.new }
    {
        if k >= self.places.len() {
            return GiveUp::NotTaken;
        }
        let given = self.places[k].let_go(self.buckets.steps());
        self.used = used_without(self.used, k, given);
        given
    }

    /// Returns from which place on all have taken nothing.
    #[inline(always)]
    pub(crate) fn used(&self) -> usize
        ensures { AreIdleFrom result self.now.records }
    {
        self.used
    }
}

/// From which place on all have taken nothing, after place k found this word.
#[inline(always)]
fn used_with(used: usize, k: usize, word: u64) -> usize
    requires { k < PLACES }
    ensures one { (result ≡ used) ⊎ (result ≡ k + 1) }
    ensures more { used ≤ result }
    ensures taken { word ≡ 0 → k < result }
{
    if word == 0 && used <= k { k + 1 } else { used }
}

/// The same after place k gave up what it had.
#[inline(always)]
fn used_without(used: usize, k: usize, given: GiveUp) -> usize
    requires { k < PLACES }
    ensures { (result ≡ used) ⊎ ((given ≢ GiveUp.Changed) × (used ≡ k + 1) × (result ≡ k)) }
{
    match given {
        GiveUp::Changed => used,
        GiveUp::Done | GiveUp::NotTaken => { if k + 1 == used { k } else { used } }
    }
}
