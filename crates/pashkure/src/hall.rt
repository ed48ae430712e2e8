//! What lies behind the mutex of a program in C.
ghost use Rattle.std.specs.Prelude.{◌≡◌, IfSome, length};
ghost use Rattle.mm_desk.specs.Calls.{AbortsAt, CommitsAt};
ghost use Rattle.pashkure.specs.DeskCalls.{GivesNameBack, IsNew, TellsOwned, headed};
ghost use Rattle.mm_thin.specs.Calls.{GivesSomeUp};

use mm_desk::{Desk, DeskConfig, Room, Unlocked};
use mm_manager::Refusal;
use mm_thin::{GiveUp, Worker};
use std::alloc::Global;
use std::marker::Model;

/// A desk, and room for what an end looks at. A contract sees a `HallState`.
#[derive(Drop)]
pub struct Hall {
    pub(crate) desk: Desk,
    pub(crate) room: Room,
}

impl Model for Hall {
    ghost use Rattle.std.specs.Prelude.{vec_capacity};
    ghost use Rattle.pashkure.specs.Hall.{HallState};

    ghost Value = { HallState };

    ghost view = { λ h. record { desk = h.desk; room = vec_capacity h.room.numbers } };
}

impl Hall {
    /// A desk of this configuration, and room for each name; `None` if a number is out of its range, or a request for memory was refused.
    pub(crate) fn open(alloc: Global, config: DeskConfig) -> Option<Hall>
        ensures { IfSome result (IsNew config) }
    {
        let Ok(desk) = Desk::open(alloc, config) else {
            return None;
        };
        let Ok(room) = Room::open(alloc, config.manager.names) else {
            return None;
        };
        Some(Hall { desk, room })
    }

    /// Gives a name back that a worker could not give back by itself, or had not taken. `None`: it could by now, and the manager is not asked.
    /// Else all that the worker has taken and that is fat is let go first: a bucket may be lent to it for another name.
    pub(crate) fn unlock(
        &mut self,
        worker: &mut Worker,
        name: &[u8],
    ) -> Option<Result<Unlocked, Refusal>>
        ensures { GivesNameBack self.old worker.old name.now result self.new worker.new }
    {
        if let GiveUp::Done = worker.give_back_name(name) {
            return None;
        }
        let _ = worker.let_go_all();
        Some(self.desk.unlock(worker.at(), name))
    }

    /// Writes the numbers of the names that the transaction of a worker owns in the manager, as many as there is room for. Returns how many it owns.
    pub(crate) fn list_owned(&mut self, at: u32, numbers: &mut [u32]) -> usize
        ensures listed { TellsOwned self.old at numbers.old result numbers.new }
        ensures same { self.new ≡ self.old }
    {
        self.desk.list_owned(at, &mut self.room);
        copy_head(self.room.numbers(), numbers)
    }

    /// Ends the transaction of a worker that waits for nothing. Whatever the answer, the worker has left first what it had taken.
    pub(crate) fn commit(&mut self, worker: &mut Worker) -> Result<Unlocked, Refusal>
        ensures commits { CommitsAt self.old.desk worker.old.at self.old.room result self.new.desk }
        ensures room { self.new.room ≡ self.old.room }
        ensures leaves { GivesSomeUp worker.old worker.new }
    {
        let _ = worker.leave_all();
        self.desk.commit(worker.at(), &mut self.room)
    }

    /// Ends the transaction of a worker, also one that waits, as `commit` does.
    pub(crate) fn abort(&mut self, worker: &mut Worker) -> Result<Unlocked, Refusal>
        ensures aborts { AbortsAt self.old.desk worker.old.at self.old.room result self.new.desk }
        ensures room { self.new.room ≡ self.old.room }
        ensures leaves { GivesSomeUp worker.old worker.new }
    {
        let _ = worker.leave_all();
        self.desk.abort(worker.at(), &mut self.room)
    }
}

/// Copies as many of these numbers as there is room for to its head. Returns how many there are.
fn copy_head(numbers: &[u32], room: &mut [u32]) -> usize
    ensures count { result ≡ length numbers.now }
    ensures copied { room.new ≡ headed numbers.now room.old }
{
    if numbers.len() <= room.len() {
        room[..numbers.len()].copy_from_slice(numbers);
    } else {
        let count = room.len();
        room.copy_from_slice(&numbers[..count]);
    }
    numbers.len()
}
