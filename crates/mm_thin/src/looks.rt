//! What holds of any parts of one opening, whatever was called before, by any threads.
ghost use Rattle.std.specs.Prelude.{◌≡◌, ◌≢◌, ◌<◌, ℕ, Some, slice_get};
ghost use Rattle.mm_lists.specs.Members.{Among};
ghost use Rattle.mm_thin.specs.declared.views.RecordView.{RecordView};
ghost use Rattle.mm_thin.specs.Views.{loan};
ghost use Rattle.mm_thin.specs.Parts.{IsOfWorker, IsPlaced};
ghost use Rattle.mm_thin.specs.Calls.{AreLent, AreApart};

use crate::office::Office;
use crate::worker::Worker;

impl Worker {
    /// Changes nothing. A bucket that this record has taken is that of its name, and the record is one of the worker's ten; if the bucket is
    /// fat, it is lent to this record, for its name.
    pub fn look_at_office(&mut self, k: usize, office: &mut Office)
        requires same { self.old.of ≡ office.old.of }
        ensures lent { (r : RecordView) → slice_get self.old.records k ≡ Some r → AreLent r office.old.desk }
        ensures placed { (r : RecordView) → slice_get self.old.records k ≡ Some r → IsOfWorker self.old.at r.number × IsPlaced self.old.of r }
        ensures worker { self.new ≡ self.old }
        ensures office { office.new ≡ office.old }
    {
        if k >= self.places.len() {
            return;
        }
        self.places[k].look_at_desk(self.buckets.steps(), &mut office.desk);
    }

    /// Changes nothing. No bucket is taken by two records of two workers.
    pub fn look_at_worker(&mut self, j: usize, other: &mut Worker, k: usize)
        requires same { self.old.of ≡ other.old.of }
        requires differ { self.old.at ≢ other.old.at }
        ensures apart { (r q : RecordView) → slice_get self.old.records j ≡ Some r → slice_get other.old.records k ≡ Some q → AreApart r q }
        ensures one { self.new ≡ self.old }
        ensures other { other.new ≡ other.old }
    {
        if j >= self.places.len() || k >= other.places.len() {
            return;
        }
        self.places[j].look_at(self.buckets.steps(), &mut other.places[k]);
    }
}
