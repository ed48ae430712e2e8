//! All buckets at once.
ghost use Rattle.mm_desk.specs.All.{AdoptsBelow, FreesBelow};
ghost use Rattle.mm_desk.specs.Calls.{KeepsFat, KeepsManager, RefusesOne};

use crate::desk::Desk;
use crate::reply::Adopted;

impl Desk {
    /// Makes each bucket fat, so that no worker can take a name. What is thin is handed to the manager. `Changed`: other threads changed
    /// buckets meanwhile, and these are not fat; ask again. Refused as the manager refuses a name that was thin; the buckets before its own are
    /// fat or were changed, and the others stay.
    pub fn adopt_all(&mut self) -> Adopted
        ensures adopts { AdoptsBelow self.old.office.of.table.words result self.new }
        ensures keeps { KeepsFat self.old self.new }
        ensures refused { RefusesOne self.old result self.new }
    {
        let mut is_changed = false;
        for bucket in 0..self.books.spread.buckets() {
            match self.adopt(bucket) {
                Adopted::Fat => {}
                Adopted::Changed => is_changed = true,
                Adopted::Refused(refusal) => return Adopted::Refused(refusal),
            }
        }
        if is_changed {
            Adopted::Changed
        } else {
            Adopted::Fat
        }
    }

    /// Frees each bucket that is fat and of which the manager has no name, unless a worker has it.
    pub fn free_all(&mut self)
        ensures frees { FreesBelow self.old self.old.office.of.table.words self.new }
        ensures keeps { KeepsManager self.old self.new }
    {
        for bucket in 0..self.books.spread.buckets() {
            self.free_if_empty(bucket);
        }
    }
}
