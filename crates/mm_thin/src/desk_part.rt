//! What the office knows of the words.
ghost use Rattle.std.specs.Prelude.{◌≡◌, ◌↔◌, ◌<◌, ◌+◌, ◌^◌, ℕ, List, [], IfSome, IfNone, true, false};
ghost use Rattle.mm_lists.specs.Members.{Among};
ghost use Rattle.mm_thin.specs.declared.views.Lent.{Lent};
ghost use Rattle.mm_thin.specs.Views.{loan, new_record, more_records, with_fat, with_lent, without_fat};
ghost use Rattle.mm_thin.specs.Steps.{Tells};
ghost use Rattle.mm_thin.specs.Calls.{GetsBucket, LooksAt, ThinsBucket, TakesFree};

use crate::record::Record;
use crate::reply::{Got, Look};
use crate::rule::Steps;
use crate::steps::{Borrows, Fattens, Frees, Looks, Makes, Parting, Reads, Sees, Thins};
use crate::text::Text;
use crate::views::View;
use atomic_table::Badge;
use std::marker::Model;
use std::mem;

/// The part that makes buckets fat. A contract sees which table it is of, and a `DeskView`.
#[derive(Drop)]
pub(crate) struct DeskPart {
    pub(crate) badge: Badge<View>,
    /// How many records there are.
    pub(crate) records: u32,
}

impl Model for DeskPart {
    ghost use Rattle.std.specs.Prelude.{◌≡◌};
    ghost use Rattle.std.specs.Coded.{coded×};
    ghost use Rattle.atomic_table.specs.Seated.{TableId, table_id_coded};
    ghost use Rattle.mm_thin.specs.declared.views.DeskView.{DeskView};
    ghost use Rattle.mm_thin.specs.contracts.views.DeskView.{the_row};
    ghost use Rattle.mm_thin.specs.Steps.{desk_in};
    ghost use Rattle.mm_thin.specs.Parts.{view_in, IsDesk};

    ghost Value = { TableId × DeskView };

    ghost coded = { coded× table_id_coded the_row.coded };

    ghost view = { λ d. (d.badge.table_id, desk_in (view_in d.badge.views)) };

    ghost invariant = { λ d. IsDesk d.badge.views × (d.records ≡ (desk_in (view_in d.badge.views)).records) };
}

impl DeskPart {
    /// Returns the word of a bucket. One load.
    fn word(&mut self, steps: &Steps, bucket: usize) -> u64
        requires table { self.old.0 ≡ steps.now.table_id }
        requires key { steps.now.key ≡ steps.now.table_id.words }
        requires bucket { bucket < steps.now.table_id.words }
        ensures tells { Tells self.old.1 bucket result }
        ensures small { result < 2 ^ 32 + 4 }
        ensures same { self.new ≡ self.old }
    {
        let badge = mem::replace(&mut self.badge, Badge::blank());
        let mut seat = badge.into_seat();
        let word = steps.load::<Sees>(&mut seat, bucket);
        self.badge = seat.into_badge();
        word
    }

    /// Looks whether a bucket is fat, and whether a record has it. One load.
    pub(crate) fn look(&mut self, steps: &Steps, bucket: usize) -> Look
        requires table { self.old.0 ≡ steps.now.table_id }
        requires key { steps.now.key ≡ steps.now.table_id.words }
        requires bucket { bucket < steps.now.table_id.words }
        ensures looks { LooksAt self.old.1 bucket result self.new.1 }
        ensures table { self.new.0 ≡ self.old.0 }
    {
        let badge = mem::replace(&mut self.badge, Badge::blank());
        let mut seat = badge.into_seat();
        let word = steps.load::<Looks>(&mut seat, bucket);
        self.badge = seat.into_badge();
        look_of(word)
    }

    /// Makes a bucket fat, if it is free. One compare-and-swap.
    fn take_free(&mut self, steps: &Steps, bucket: usize) -> bool
        requires table { self.old.0 ≡ steps.now.table_id }
        requires key { steps.now.key ≡ steps.now.table_id.words }
        requires bucket { bucket < steps.now.table_id.words }
        ensures takes { TakesFree self.old.1 bucket result self.new.1 }
        ensures table { self.new.0 ≡ self.old.0 }
    {
        let badge = mem::replace(&mut self.badge, Badge::blank());
        let mut seat = badge.into_seat();
        let word = steps.compare_exchange::<Fattens>(&mut seat, bucket, 0, 1);
        self.badge = seat.into_badge();
        word == 0
    }

    /// Makes a bucket fat, if it is thin of this record, and reads the name. A compare-and-swap, two plain reads and writes, a store.
    fn borrow(&mut self, steps: &Steps, bucket: usize, number: u32) -> Option<Text>
        requires table { self.old.0 ≡ steps.now.table_id }
        requires key { steps.now.key ≡ steps.now.table_id.words }
        requires bucket { bucket < steps.now.table_id.words }
        ensures some { IfSome result (λ name. self.new.1 ≡ with_lent self.old.1 bucket number name) }
        ensures none { IfNone result (self.new.1 ≡ self.old.1) }
        ensures table { self.new.0 ≡ self.old.0 }
    {
        let badge = mem::replace(&mut self.badge, Badge::blank());
        let mut seat = badge.into_seat();
        let thin = u64::from(number) + 4;
        let word = steps.compare_exchange::<Borrows>(&mut seat, bucket, thin, 2);
        if word != thin {
            self.badge = seat.into_badge();
            return None;
        }
        let text = steps.exchange(&mut seat, number as usize, Text::none());
        let name = text.copy();
        let _ = steps.exchange(&mut seat, number as usize, text);
        steps.store::<Reads>(&mut seat, bucket, 3);
        self.badge = seat.into_badge();
        Some(name)
    }

    /// Makes a bucket fat, whoever has it.
    pub(crate) fn fatten(&mut self, steps: &Steps, bucket: usize) -> Got
        requires table { self.old.0 ≡ steps.now.table_id }
        requires key { steps.now.key ≡ steps.now.table_id.words }
        requires bucket { bucket < steps.now.table_id.words }
        ensures gets { GetsBucket self.old.1 bucket result self.new.1 }
        ensures table { self.new.0 ≡ self.old.0 }
    {
        let word = self.word(steps, bucket);
        if word == 0 {
            return if self.take_free(steps, bucket) {
                Got::WasFree
            } else {
                Got::Changed
            };
        }
        if word < 4 {
            return Got::WasFat;
        }
        let number = (word - 4) as u32;
        match self.borrow(steps, bucket, number) {
            Some(name) => Got::WasThin(number, name),
            None => Got::Changed,
        }
    }

    /// Makes a bucket thin again that was lent to this record. `false` if the record has let it go: it stays fat. One compare-and-swap.
    pub(crate) fn thin_again(&mut self, steps: &Steps, bucket: usize, number: u32) -> bool
        requires table { self.old.0 ≡ steps.now.table_id }
        requires key { steps.now.key ≡ steps.now.table_id.words }
        requires bucket { bucket < steps.now.table_id.words }
        requires lent { (name : List ℕ) × Among (loan bucket number name) self.old.1.lent }
        ensures thins { ThinsBucket self.old.1 bucket result self.new.1 }
        ensures table { self.new.0 ≡ self.old.0 }
    {
        let badge = mem::replace(&mut self.badge, Badge::blank());
        let mut seat = badge.into_seat();
        let word = steps.compare_exchange::<Thins>(&mut seat, bucket, 3, u64::from(number) + 4);
        self.badge = seat.into_badge();
        word == 3
    }

    /// Frees a bucket. One store.
    pub(crate) fn free(&mut self, steps: &Steps, bucket: usize)
        requires table { self.old.0 ≡ steps.now.table_id }
        requires key { steps.now.key ≡ steps.now.table_id.words }
        requires bucket { bucket < steps.now.table_id.words }
        requires fat { Among bucket self.old.1.fat }
        requires not_lent { (l : Lent) → Among l self.old.1.lent → l.bucket ≡ bucket → ⊥ }
        ensures desk { self.new.1 ≡ without_fat self.old.1 bucket }
        ensures table { self.new.0 ≡ self.old.0 }
    {
        let badge = mem::replace(&mut self.badge, Badge::blank());
        let mut seat = badge.into_seat();
        steps.store::<Frees>(&mut seat, bucket, 0);
        self.badge = seat.into_badge();
    }

    /// Returns a record more, which has taken nothing. Two loads.
    pub(crate) fn add_record(&mut self, steps: &Steps) -> Record
        requires table { self.old.0 ≡ steps.now.table_id }
        requires key { steps.now.key ≡ steps.now.table_id.words }
        requires some { 0 < steps.now.table_id.words }
        requires room { self.old.1.records < steps.now.table_id.slots }
        requires small { self.old.1.records + 1 < 2 ^ 32 }
        ensures made { result ≡ (self.old.0, new_record self.old.1.records) }
        ensures desk { self.new ≡ (self.old.0, more_records self.old.1) }
    {
        let badge = mem::replace(&mut self.badge, Badge::blank());
        let mut seat = badge.into_seat();
        steps.load::<Makes>(&mut seat, 0);
        self.badge = steps.split_seat::<Parting>(&mut seat).into_badge();
        let number = self.records;
        self.records = number + 1;
        Record { seat, number }
    }
}

/// Returns what a word says.
fn look_of(word: u64) -> Look
    ensures fat { (result ≡ Look.Fat) ↔ (word ≡ 1) }
    ensures lent { (result ≡ Look.IsLent) ↔ ((1 < word) × (word < 4)) }
{
    match word {
        1 => Look::Fat,
        2 | 3 => Look::IsLent,
        _ => Look::NotFat,
    }
}
