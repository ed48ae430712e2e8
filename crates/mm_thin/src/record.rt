//! A record: a place for the name of one bucket that a transaction has taken.
ghost use Rattle.std.specs.Prelude.{◌≡◌, ◌≢◌, ◌≤◌, ◌<◌, ℕ, [], ◌∷◌, length, nat_eq};
ghost use Rattle.mm_thin.specs.Calls.{TakesBucket, GivesUp as GivesBucketUp, AreLent, AreApart};

use crate::desk_part::DeskPart;
use crate::rule::Steps;
use crate::steps::{Blank, GivesUp, Meeting, Meets, Parting, RecordsMeet, Takes};
use crate::text::{MAX_THIN_BYTES, Text};
use crate::views::View;
use atomic_table::{Badge, Seat};
use std::marker::Model;
use std::mem;

/// A record. Its text is in its hand while it has taken nothing. A contract sees which table it is of, and a `RecordView`.
#[derive(Drop)]
pub(crate) struct Record {
    pub(crate) seat: Seat<Text, View>,
    pub(crate) number: u32,
}

impl Model for Record {
    ghost use Rattle.std.specs.Prelude.{◌≡◌};
    ghost use Rattle.std.specs.Coded.{coded×};
    ghost use Rattle.atomic_table.specs.Seated.{TableId, table_id_coded};
    ghost use Rattle.mm_thin.specs.declared.views.RecordView.{RecordView};
    ghost use Rattle.mm_thin.specs.contracts.views.RecordView.{the_row};
    ghost use Rattle.mm_thin.specs.Steps.{record_in};
    ghost use Rattle.mm_thin.specs.Parts.{IsRecord};

    ghost Value = { TableId × RecordView };

    ghost coded = { coded× table_id_coded the_row.coded };

    ghost view = { λ r. (r.seat.table_id, record_in r.seat.me.0) };

    ghost invariant = { λ r. IsRecord r.seat.table_id r.seat.me × (r.number ≡ (record_in r.seat.me.0).number) };
}

impl Record {
    /// Takes a bucket for this name, if it is free. Returns the word that it found: 0 if the bucket was free. One plain write of a text, and
    /// one compare-and-swap.
    #[inline(always)]
    pub(crate) fn take(&mut self, steps: &Steps, bucket: usize, name: &[u8]) -> u64
        requires table { self.old.0 ≡ steps.now.table_id }
        requires key { steps.now.key ≡ steps.now.table_id.words }
        requires bucket { bucket < steps.now.table_id.words }
        requires name { length name.now ≤ MAX_THIN_BYTES }
        requires idle { self.old.1.taken ≡ [] }
        ensures takes { TakesBucket self.old.1 bucket name.now (nat_eq result 0) self.new.1 }
        ensures table { self.new.0 ≡ self.old.0 }
    {
        let number = u64::from(self.number);
        let text = self.seat.slot_mut(steps, number as usize);
        text.set(name);
        steps.compare_exchange::<Takes>(&mut self.seat, bucket, 0, number + 4)
    }

    /// Gives back the bucket that it has taken, if it is thin. One compare-and-swap.
    #[inline(always)]
    pub(crate) fn give_back(&mut self, steps: &Steps, bucket: usize) -> bool
        requires table { self.old.0 ≡ steps.now.table_id }
        requires key { steps.now.key ≡ steps.now.table_id.words }
        requires bucket { bucket < steps.now.table_id.words }
        requires taken { self.old.1.taken ≡ bucket ∷ [] }
        ensures given { GivesBucketUp self.old.1 result self.new.1 }
        ensures table { self.new.0 ≡ self.old.0 }
    {
        let thin = u64::from(self.number) + 4;
        let word = steps.compare_exchange::<GivesUp>(&mut self.seat, bucket, thin, 0);
        word == thin
    }

    /// Lets go the bucket that it has taken, if it is lent: it stays fat. One compare-and-swap.
    pub(crate) fn let_go(&mut self, steps: &Steps, bucket: usize) -> bool
        requires table { self.old.0 ≡ steps.now.table_id }
        requires key { steps.now.key ≡ steps.now.table_id.words }
        requires bucket { bucket < steps.now.table_id.words }
        requires taken { self.old.1.taken ≡ bucket ∷ [] }
        ensures given { GivesBucketUp self.old.1 result self.new.1 }
        ensures table { self.new.0 ≡ self.old.0 }
    {
        let word = steps.compare_exchange::<GivesUp>(&mut self.seat, bucket, 3, 1);
        word == 3
    }

    /// Changes nothing. A bucket that it has taken and that is fat is lent to it, for its name.
    pub(crate) fn look_at_desk(&mut self, steps: &Steps, desk: &mut DeskPart)
        requires table { self.old.0 ≡ steps.now.table_id }
        requires same { desk.old.0 ≡ steps.now.table_id }
        requires key { steps.now.key ≡ steps.now.table_id.words }
        requires some { 0 < steps.now.table_id.words }
        ensures lent { AreLent self.old.1 desk.old.1 }
        ensures one { self.new ≡ self.old }
        ensures desk { desk.new ≡ desk.old }
    {
        let badge = mem::replace(&mut desk.badge, Badge::blank());
        steps.join_seat::<Meeting>(&mut self.seat, badge.into_seat());
        steps.load::<Meets>(&mut self.seat, 0);
        desk.badge = steps.split_seat::<Parting>(&mut self.seat).into_badge();
    }

    /// Changes nothing. No bucket is taken by both.
    pub(crate) fn look_at(&mut self, steps: &Steps, other: &mut Record)
        requires table { self.old.0 ≡ steps.now.table_id }
        requires same { other.old.0 ≡ steps.now.table_id }
        requires key { steps.now.key ≡ steps.now.table_id.words }
        requires some { 0 < steps.now.table_id.words }
        requires differ { self.old.1.number ≢ other.old.1.number }
        requires taken { (b : ℕ) × (other.old.1.taken ≡ b ∷ []) }
        ensures apart { AreApart self.old.1 other.old.1 }
        ensures one { self.new ≡ self.old }
        ensures other { other.new ≡ other.old }
    {
        let blank = steps.split_seat::<Blank>(&mut self.seat);
        let seat = mem::replace(&mut other.seat, blank);
        steps.join_seat::<Meeting>(&mut self.seat, seat);
        steps.load::<RecordsMeet>(&mut self.seat, 0);
        other.seat = steps.split_seat::<Parting>(&mut self.seat);
    }
}
