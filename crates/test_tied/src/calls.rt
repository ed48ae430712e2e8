//! What threads call.
ghost use Rattle.std.specs.Prelude.{◌≡◌, IfOk, replicate};
ghost use Rattle.mm_tied.specs.Mutex.{opened};
ghost use Rattle.mm_tied.specs.History.{nobody};
ghost use Rattle.test_tied.specs.Told.{IsSame, Tells, Waits};

use crate::locks::Locks;
use crate::manager::{Answer, Asked, ToyManager};
use crate::session::Session;
use crate::story::Hall;
use mm_tied::TiedMutex;
use std::alloc::{AllocError, Global};
use std::marker::Brand;
use std::sync::Wait;
use std::thread;
use std::time::Clock;

impl Locks {
    /// Locks of this many names, which nobody owns.
    pub fn open(alloc: Global, names: u32) -> Result<Locks, AllocError>
        ensures { IfOk result (λ locks. (opened locks.lock).manager ≡ replicate names 0) }
    {
        let manager = ToyManager::open(alloc, names)?;
        let hall = Hall {
            manager,
            visits: 0,
            idle: Vec::new(alloc),
        };
        let lock = TiedMutex::new(alloc, hall)?;
        Ok(Locks { lock })
    }

    /// A session for transaction `at`, which has made no call.
    pub fn session<'m>(&'m self, at: u16) -> Session<'m>
        ensures at { result.at ≡ at }
        ensures new { result.pass.me.0 ≡ nobody }
    {
        Session {
            locks: self,
            at: u32::from(at),
            pass: self.lock.pass(),
        }
    }
}

impl<'m> Session<'m> {
    /// Tries a name. The answer is the manager's, to this request, at the end of the history that is then seen.
    pub fn try_lock<R: Wait + Clock>(&mut self, rt: &R, name: u32) -> Answer
        ensures same { IsSame self.old self.new }
        ensures told { Tells self.old (record { at = self.old.at; name = name; answer = result }) self.new }
    {
        let lock = &self.locks.lock;
        let at = self.at;
        lock.take(rt, &mut self.pass);
        let hall = self.pass.slot_mut(lock.steps(), 0);
        let answer = hall.manager.ask(at, name);
        lock.put::<Brand, _>(&mut self.pass, &Asked { at, name, answer });
        answer
    }

    /// Tries a name until nobody else owns it.
    pub fn lock<R: Wait + Clock>(&mut self, rt: &R, name: u32) -> Answer
        ensures same { IsSame self.old self.new }
        ensures told { Waits self.old name result self.new }
    {
        for _ in rt.forever() {
            let answer = self.try_lock(rt, name);
            if answer != Answer::Taken {
                return answer;
            }
            thread::yield_now();
        }
        unreachable!()
    }

    /// Gives a name back.
    pub fn unlock<R: Wait + Clock>(&mut self, rt: &R, name: u32) -> Answer
        ensures same { IsSame self.old self.new }
        ensures told { Tells self.old (record { at = self.old.at; name = name; answer = result }) self.new }
    {
        let lock = &self.locks.lock;
        let at = self.at;
        lock.take(rt, &mut self.pass);
        let hall = self.pass.slot_mut(lock.steps(), 0);
        let answer = hall.manager.give(at, name);
        hall.visits = hall.visits.wrapping_add(1);
        lock.put::<Brand, _>(&mut self.pass, &Asked { at, name, answer });
        answer
    }
}
