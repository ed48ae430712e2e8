//! A record with what it has taken, so that its owner can read it.
ghost use Rattle.std.specs.Prelude.{◌≡◌, ◌≢◌, ◌≤◌, ◌<◌, ◌↔◌, [], length, IsTrue, nat_eq};
ghost use Rattle.mm_thin.specs.Calls.{TakesBucket, LeavesBucket, IsFor, AreLent, AreApart};

use crate::desk_part::DeskPart;
use crate::record::Record;
use crate::reply::GiveUp;
use crate::rule::Steps;
use crate::text::{MAX_THIN_BYTES, Text};
use std::marker::Model;

/// A record, and what it has taken. A contract sees which table it is of, and a `RecordView`.
#[derive(Drop)]
pub(crate) struct Place {
    record: Record,
    is_taken: bool,
    bucket: usize,
    /// For which name. Nobody can read a text that is at home, so the owner of the record keeps the name here.
    name: Text,
}

impl Model for Place {
    ghost use Rattle.std.specs.Coded.{coded×};
    ghost use Rattle.atomic_table.specs.Seated.{TableId, table_id_coded};
    ghost use Rattle.mm_thin.specs.declared.views.RecordView.{RecordView};
    ghost use Rattle.mm_thin.specs.contracts.views.RecordView.{the_row};
    ghost use Rattle.mm_thin.specs.Parts.{Marks};

    ghost Value = { TableId × RecordView };

    ghost coded = { coded× table_id_coded the_row.coded };

    ghost view = { λ p. p.record };

    ghost invariant = { λ p. Marks p.is_taken p.bucket p.name p.record };
}

impl Place {
    /// Returns a record that has taken nothing.
    pub(crate) fn of(idle: Record) -> Place
        requires { idle.1.taken ≡ [] }
        ensures { result ≡ idle }
    {
        Place {
            record: idle,
            is_taken: false,
            bucket: 0,
            name: Text::none(),
        }
    }

    /// Returns whether it has taken nothing.
    #[inline(always)]
    pub(crate) fn is_idle(&self) -> bool
        ensures { IsTrue result ↔ (self.now.1.taken ≡ []) }
    {
        !self.is_taken
    }

    /// Returns whether it has taken this name.
    pub(crate) fn is_for(&self, name: &[u8]) -> bool
        ensures { IsTrue result ↔ IsFor self.now.1 name.now }
    {
        self.is_taken && self.name.as_slice() == name
    }

    /// Takes a bucket for this name, if it is free. Returns the word that it found: 0 if the bucket was free.
    #[inline(always)]
    pub(crate) fn take(&mut self, steps: &Steps, bucket: usize, name: &[u8]) -> u64
        requires table { self.old.0 ≡ steps.now.table_id }
        requires key { steps.now.key ≡ steps.now.table_id.words }
        requires bucket { bucket < steps.now.table_id.words }
        requires name { length name.now ≤ MAX_THIN_BYTES }
        requires idle { self.old.1.taken ≡ [] }
        ensures takes { TakesBucket self.old.1 bucket name.now (nat_eq result 0) self.new.1 }
        ensures table { self.new.0 ≡ self.old.0 }
    {
        self.name.set(name);
        let word = self.record.take(steps, bucket, name);
        if word == 0 {
            self.is_taken = true;
            self.bucket = bucket;
        }
        word
    }

    /// Gives back what it has taken, if that is thin.
    #[inline(always)]
    pub(crate) fn give_back(&mut self, steps: &Steps) -> GiveUp
        requires table { self.old.0 ≡ steps.now.table_id }
        requires key { steps.now.key ≡ steps.now.table_id.words }
        ensures leaves { LeavesBucket self.old.1 result self.new.1 }
        ensures table { self.new.0 ≡ self.old.0 }
    {
        if !self.is_taken {
            return GiveUp::NotTaken;
        }
        if !self.record.give_back(steps, self.bucket) {
            return GiveUp::Changed;
        }
        self.is_taken = false;
        GiveUp::Done
    }

    /// Lets go what it has taken, if that is lent.
    pub(crate) fn let_go(&mut self, steps: &Steps) -> GiveUp
        requires table { self.old.0 ≡ steps.now.table_id }
        requires key { steps.now.key ≡ steps.now.table_id.words }
        ensures leaves { LeavesBucket self.old.1 result self.new.1 }
        ensures table { self.new.0 ≡ self.old.0 }
    {
        if !self.is_taken {
            return GiveUp::NotTaken;
        }
        if !self.record.let_go(steps, self.bucket) {
            return GiveUp::Changed;
        }
        self.is_taken = false;
        GiveUp::Done
    }

    /// Changes nothing. A bucket that it has taken and that is fat is lent to it, for its name.
    pub(crate) fn look_at_desk(&mut self, steps: &Steps, desk: &mut DeskPart)
        requires table { self.old.0 ≡ steps.now.table_id }
        requires same { desk.old.0 ≡ steps.now.table_id }
        requires key { steps.now.key ≡ steps.now.table_id.words }
        requires some { 0 < steps.now.table_id.words }
        ensures lent { AreLent self.old.1 desk.old.1 }
        ensures one { self.new ≡ self.old }
        ensures desk { desk.new ≡ desk.old }
    {
        self.record.look_at_desk(steps, desk);
    }

    /// Changes nothing. No bucket is taken by both.
    pub(crate) fn look_at(&mut self, steps: &Steps, other: &mut Place)
        requires table { self.old.0 ≡ steps.now.table_id }
        requires same { other.old.0 ≡ steps.now.table_id }
        requires key { steps.now.key ≡ steps.now.table_id.words }
        requires some { 0 < steps.now.table_id.words }
        requires differ { self.old.1.number ≢ other.old.1.number }
        ensures apart { AreApart self.old.1 other.old.1 }
        ensures one { self.new ≡ self.old }
        ensures other { other.new ≡ other.old }
    {
        if other.is_taken {
            self.record.look_at(steps, &mut other.record);
        }
    }
}
