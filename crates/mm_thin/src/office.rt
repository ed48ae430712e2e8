//! The part that makes buckets fat.
ghost use Rattle.std.specs.Prelude.{◌≡◌, ◌↔◌, ◌<◌, ◌≤◌, ◌+◌, ◌^◌, ℕ, List, [], Err, IfOk, OnErr, vec_capacity};
ghost use Rattle.mm_lists.specs.Members.{Among};
ghost use Rattle.mm_thin.specs.declared.views.Lent.{Lent};
ghost use Rattle.mm_thin.specs.Views.{loan, with_records, without_fat};
ghost use Rattle.mm_thin.specs.Parts.{with_desk, AreNew};
ghost use Rattle.mm_thin.specs.Calls.{GetsBucket, LooksAt, ThinsBucket, AddsWorker};

use crate::buckets::Buckets;
use crate::config::WorkerError;
use crate::desk_part::DeskPart;
use crate::place::Place;
use crate::reply::{Got, Look};
use crate::rule::Steps;
use crate::spread::Spread;
use crate::worker::{PLACES, Worker};
use std::alloc::Global;
use std::marker::Model;

/// The part of whoever has the manager's lock: it makes buckets fat, and frees them. A contract sees an `OfficeState`.
#[derive(Drop)]
pub struct Office {
    pub(crate) buckets: Buckets,
    pub(crate) desk: DeskPart,
    pub(crate) workers: u32,
    pub(crate) max_workers: u32,
}

impl Model for Office {
    ghost use Rattle.mm_thin.specs.Parts.{OfficeState, IsOffice};

    ghost Value = { OfficeState };

    ghost view = { λ o. record { of = o.buckets; desk = o.desk.1; workers = o.workers; max_workers = o.max_workers } };

    ghost invariant = { λ o. IsOffice o.buckets o.desk o.workers o.max_workers };
}

impl Office {
    /// To which bucket a name belongs.
    pub fn spread(&self) -> Spread
        ensures spread { result ≡ self.now.of.spread }
        ensures words { result.buckets ≡ self.now.of.table.words }
    {
        self.buckets.spread()
    }

    /// Looks whether a bucket is fat, and whether a record has it. One load.
    pub fn look(&mut self, bucket: usize) -> Look
        requires { bucket < self.old.of.table.words }
        ensures looks { LooksAt self.old.desk bucket result self.new.desk }
        ensures rest { self.new ≡ with_desk self.old self.new.desk }
    {
        self.desk.look(self.buckets.steps(), bucket)
    }

    /// Makes a bucket fat, whoever has it.
    ///
    /// `WasThin`: the record that has it keeps it, and has to let it go; this is its name. A load and a compare-and-swap, and for a thin
    /// bucket two plain reads and writes and a store.
    pub fn fatten(&mut self, bucket: usize) -> Got
        requires { bucket < self.old.of.table.words }
        ensures gets { GetsBucket self.old.desk bucket result self.new.desk }
        ensures rest { self.new ≡ with_desk self.old self.new.desk }
    {
        self.desk.fatten(self.buckets.steps(), bucket)
    }

    /// Makes a bucket thin again that was lent to this record. `false` if the record has let it go: it stays fat. One compare-and-swap.
    pub fn thin_again(&mut self, bucket: usize, number: u32) -> bool
        requires bucket { bucket < self.old.of.table.words }
        requires lent { (name : List ℕ) × Among (loan bucket number name) self.old.desk.lent }
        ensures thins { ThinsBucket self.old.desk bucket result self.new.desk }
        ensures rest { self.new ≡ with_desk self.old self.new.desk }
    {
        self.desk.thin_again(self.buckets.steps(), bucket, number)
    }

    /// Frees a bucket that is fat and not lent. One store.
    pub fn free(&mut self, bucket: usize)
        requires bucket { bucket < self.old.of.table.words }
        requires fat { Among bucket self.old.desk.fat }
        requires not_lent { (l : Lent) → Among l self.old.desk.lent → l.bucket ≡ bucket → ⊥ }
        ensures { self.new ≡ with_desk self.old (without_fat self.old.desk bucket) }
    {
        self.desk.free(self.buckets.steps(), bucket);
    }

    /// Returns a worker more. It takes memory: for its records, and for one place behind them, so that no other worker's part lies near.
    ///
    /// Refused as `Full` exactly if there are as many workers as there can be, and then nothing changes, and as `Memory` only if a
    /// request for memory was refused.
    pub fn add_worker(&mut self, alloc: Global) -> Result<Worker, WorkerError>
        ensures added { IfOk result (λ worker. AddsWorker self.old worker self.new) }
        ensures full { (result ≡ Err WorkerError.Full) ↔ (self.old.workers ≡ self.old.max_workers) }
        ensures refused { OnErr result (self.new ≡ self.old) }
    {
        if self.workers >= self.max_workers {
            return Err(WorkerError::Full);
        }
        let places = Vec::with_capacity(alloc, PLACES + 1)?;
        let buckets = self.buckets.share()?;
        Ok(self.worker_of(buckets, places))
    }

    /// Returns the next worker, with these places. Two records before its own are never used.
    fn worker_of(&mut self, buckets: Buckets, mut places: Vec<Place>) -> Worker
        requires of { buckets ≡ self.old.of }
        requires empty { places.items ≡ [] }
        requires room { PLACES ≤ vec_capacity places }
        requires more { self.old.workers < self.old.max_workers }
        ensures { AddsWorker self.old result self.new }
    {
        let at = self.workers;
        drop(self.desk.add_record(self.buckets.steps()));
        drop(self.desk.add_record(self.buckets.steps()));
        fill(&mut self.desk, self.buckets.steps(), &mut places);
        self.workers = at + 1;
        Worker {
            buckets,
            at,
            places,
            used: 0,
        }
    }
}

/// The records of one more worker, which have taken nothing.
fn fill(desk: &mut DeskPart, steps: &Steps, places: &mut Vec<Place>)
    requires table { desk.old.0 ≡ steps.now.table_id }
    requires key { steps.now.key ≡ steps.now.table_id.words }
    requires some { 0 < steps.now.table_id.words }
    requires slots { desk.old.1.records + PLACES ≤ steps.now.table_id.slots }
    requires small { desk.old.1.records + PLACES < 2 ^ 32 }
    requires empty { places.old.items ≡ [] }
    requires room { PLACES ≤ vec_capacity places.old }
    ensures made { AreNew desk.old PLACES places.new.items }
    ensures desk { desk.new ≡ (desk.old.0, with_records desk.old.1 (desk.old.1.records + PLACES)) }
{
    for _ in 0..PLACES {
        places.push_reserved(Place::of(desk.add_record(steps)));
    }
}
