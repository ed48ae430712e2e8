//! What the desk tells, and what holds of any worker and the desk.
ghost use Rattle.std.specs.Prelude.{◌≡◌, Some, slice_get, vec_capacity};
ghost use Rattle.mm_desk.specs.Calls.{ListsOwned, OwnsAlone, IsOwned};
ghost use Rattle.mm_thin.specs.declared.views.RecordView.{RecordView};

use crate::desk::Desk;
use crate::room::Room;
use mm_manager::LockManager;
use mm_thin::Worker;

impl Desk {
    /// Returns the manager, for its reading calls: who owns a name that somebody asked for, what a transaction does, and whom the last call
    /// told something. A worker may have taken a name that nobody owns there.
    pub fn manager(&self) -> &LockManager
        ensures { result.now ≡ self.now.manager }
    {
        &self.books.manager
    }

    /// Lists in `room` the numbers of the names that the transaction of a worker owns in the manager, each once, in no order that is promised.
    /// None if there is no such worker, or if `room` is for fewer names than there can be. `O(its names)`.
    pub fn list_owned(&self, at: u32, room: &mut Room)
        ensures listed { ListsOwned self.now at (vec_capacity room.old.numbers) room.new.numbers.items }
        ensures room { vec_capacity room.new.numbers ≡ vec_capacity room.old.numbers }
    {
        room.numbers.clear();
        let Some(key) = self.key_of(at) else {
            return;
        };
        if self.has_room(room) {
            self.books.manager.holds(key, &mut room.numbers);
        }
    }

    /// Changes nothing. Who owns a name in the manager that a record of a worker has taken is the worker's own transaction; and it owns the
    /// name if the bucket is fat.
    pub fn keeps_ties(&mut self, worker: &mut Worker, k: usize)
        requires { worker.old.of ≡ self.old.office.of }
        ensures alone { (r : RecordView) → slice_get worker.old.records k ≡ Some r → OwnsAlone self.old worker.old.at r }
        ensures owned { (r : RecordView) → slice_get worker.old.records k ≡ Some r → IsOwned self.old worker.old.at r }
        ensures worker { worker.new ≡ worker.old }
        ensures desk { self.new ≡ self.old }
    {
        worker.look_at_office(k, &mut self.office);
        self.books.manager.keeps_laws();
    }
}
