//! What threads share.
ghost use Rattle.std.specs.Prelude.{◌≡◌, ◌↔◌, Err, IfErr};
ghost use Rattle.mm_manager.specs.Opening.{IsTransactionsOut, IsNamesOut, IsNameBytesOut};
ghost use Rattle.mm_manager.specs.declared.refusal.OpenError.TheVariants as manager;
ghost use Rattle.mm_thin.specs.declared.config.OpenError.TheVariants as office;
ghost use Rattle.mm_desk.specs.declared.error.OpenError.TheVariants as desk;
ghost use Rattle.mm_desk.specs.Opening.{AreBucketsOut};
ghost use Rattle.mm_locks.specs.Opening.{desk_config, IsRefused};
ghost use Rattle.mm_locks.specs.declared.error.LockError.TheVariants.{TransactionsFull};

use crate::error::LockError;
use crate::hall::Hall;
use crate::history::{DeskStory, Event};
use crate::opening::{LocksConfig, OpenError};
use crate::parkers::Parkers;
use crate::session::Session;
use crate::wakes::{PendingWakes, Wakes};
use mm_desk::{Desk, DeskConfig, Room};
use mm_manager::Totals;
use mm_mutex::Awake;
use mm_thin::Worker;
use mm_tied::TiedMutex;
use std::alloc::{AllocError, Global};
use std::marker::Brand;
use std::sync::Wait;
use std::time::Clock;

/// Locks by name that threads share by reference. A name that nobody waits for is locked by one compare-and-swap, and given back by another,
/// and no lock is taken for that. As soon as a second transaction asks for it, a lock manager behind one lock knows its owner and who waits,
/// so that a deadlock is told at once, to the one who closed it.
///
/// Each thread has a `Session`. No call but `open` takes memory.
pub struct Locks {
    parkers: Parkers,
    pub(crate) hall: TiedMutex<Hall, Desk, Event, DeskStory>,
}

// By hand, so that a crate that drops locks proves nothing of how their parts are dropped.
impl Drop for Locks {
    fn drop(self) {
        let Locks {
            parkers: _,
            hall: _,
        } = self;
    }
}

impl Locks {
    /// Locks of this configuration: nobody owns a name.
    ///
    /// This is the one call that takes memory: what `LockManager::open` takes, 16 bytes a bucket, 12 a name of the manager, and for each
    /// transaction a worker with eighteen names of 64 bytes and a cache line in which its thread sleeps. While it opens it takes 8 bytes a bucket
    /// and the names once more. Refused as the desk is, for a number that is out of its range, and otherwise only if a request for memory was
    /// refused.
    pub fn open(alloc: Global, config: LocksConfig) -> Result<Locks, OpenError>
        ensures buckets { (result ≡ Err (OpenError.Desk (desk.Office office.Buckets))) ↔ AreBucketsOut (desk_config config) }
        ensures transactions { (result ≡ Err (OpenError.Desk (desk.Manager manager.Transactions))) ↔ (¬ AreBucketsOut (desk_config config) × IsTransactionsOut config.manager) }
        ensures names { (result ≡ Err (OpenError.Desk (desk.Manager manager.Names))) ↔ (¬ AreBucketsOut (desk_config config) × ¬ IsTransactionsOut config.manager × IsNamesOut config.manager) }
        ensures name_bytes { (result ≡ Err (OpenError.Desk (desk.Manager manager.NameBytes))) ↔ (¬ AreBucketsOut (desk_config config) × ¬ IsTransactionsOut config.manager × ¬ IsNamesOut config.manager × IsNameBytesOut config.manager) }
        ensures refused { IfErr result IsRefused }
    {
        let numbers = DeskConfig {
            manager: config.manager,
            buckets: config.buckets,
        };
        match Desk::open(alloc, numbers) {
            Ok(desk) => open_over(alloc, desk, config),
            Err(error) => Err(OpenError::Desk(error)),
        }
    }

    /// Returns a session, which makes one transaction at a time. Refused as `TransactionsFull` if there are as many sessions as transactions.
    pub fn session<'r, 'm, R: Wait + Clock>(
        &'m self,
        rt: &'r R,
    ) -> Result<Session<'r, 'm, R>, LockError>
        ensures refused { IfErr result (λ error. error ≡ TransactionsFull) }
    {
        match self.take_worker(rt) {
            Some(worker) => Ok(Session::new(rt, self, worker)),
            None => Err(LockError::TransactionsFull),
        }
    }

    /// Returns what the manager counted since the opening. It counts no transaction whose names nobody else asked for. Constant time.
    pub fn totals<R: Wait + Clock>(&self, rt: &R) -> Totals {
        let mut pass = self.hall.pass();
        self.hall.take_by_clock(rt, &mut pass);
        let totals = pass.slot_mut(self.hall.steps(), 0).totals();
        self.hall.put::<Brand, _>(&mut pass, &());
        totals
    }

    /// A worker for a session.
    fn take_worker<R: Wait + Clock>(&self, rt: &R) -> Option<Worker> {
        let mut pass = self.hall.pass();
        self.hall.take_by_clock(rt, &mut pass);
        let worker = pass.slot_mut(self.hall.steps(), 0).take_worker();
        self.hall.put::<Brand, _>(&mut pass, &());
        worker
    }

    /// Stays away from the lock for as long as a thread that waits for it may stay awake, so that others have their turn.
    pub(crate) fn give_way<R: Wait + Clock>(&self, rt: &R) {
        let awake = Awake::new(rt);
        for _ in rt.forever() {
            if !awake.stay_away(rt, 1) {
                return;
            }
        }
        unreachable!()
    }

    /// Where the thread of a process's transaction sleeps.
    pub(crate) fn parkers(&self) -> &Parkers {
        &self.parkers
    }

    /// Takes in the worker of a session that has ended.
    pub(crate) fn take_in<R: Wait + Clock>(&self, rt: &R, worker: Worker) {
        let mut pass = self.hall.pass();
        self.hall.take_by_clock(rt, &mut pass);
        pass.slot_mut(self.hall.steps(), 0).take_in(worker);
        self.hall.put::<Brand, _>(&mut pass, &());
    }

    /// The process of a worker's transaction.
    pub(crate) fn process_of<R: Wait + Clock>(&self, rt: &R, at: u32) -> Option<u32> {
        let mut pass = self.hall.pass();
        self.hall.take_by_clock(rt, &mut pass);
        let process = pass.slot_mut(self.hall.steps(), 0).process_of(at);
        self.hall.put::<Brand, _>(&mut pass, &());
        process
    }

    /// Wakes these, and then those for which there was no room among them. The lock is free.
    pub(crate) fn wake<R: Wait + Clock>(&self, rt: &R, wakes: &Wakes) {
        self.parkers.wake(wakes);
        if wakes.is_full() {
            self.wake_rest(rt);
        }
    }

    /// Takes some of those that are to be woken.
    fn take_pending<R: Wait + Clock>(&self, rt: &R) -> Wakes {
        let mut pass = self.hall.pass();
        self.hall.take_by_clock(rt, &mut pass);
        let wakes = pass.slot_mut(self.hall.steps(), 0).take_pending();
        self.hall.put::<Brand, _>(&mut pass, &());
        wakes
    }

    /// Wakes the processes whose wake-up is still pending, some at a time, until none is left.
    #[inline(never)]
    fn wake_rest<R: Wait + Clock>(&self, rt: &R) {
        for _ in rt.forever() {
            let wakes = self.take_pending(rt);
            self.parkers.wake(&wakes);
            if !wakes.is_full() {
                return;
            }
        }
        unreachable!()
    }
}

/// Locks over a desk that was just opened.
fn open_over(alloc: Global, desk: Desk, config: LocksConfig) -> Result<Locks, OpenError>
    ensures { IfErr result (λ error. error ≡ OpenError.Memory) }
{
    let parkers = Parkers::open(alloc, config.manager.transactions)?;
    let hall = open_hall(alloc, desk, config)?;
    match TiedMutex::new(alloc, hall) {
        Ok(hall) => Ok(Locks { parkers, hall }),
        Err(_) => Err(OpenError::Memory),
    }
}

/// What lies behind the lock, with a worker for each transaction.
fn open_hall(alloc: Global, mut desk: Desk, config: LocksConfig) -> Result<Hall, AllocError> {
    let room = Room::open(alloc, config.manager.names)?;
    let pending = PendingWakes::open(alloc, config.manager.transactions)?;
    let mut idle = Vec::with_capacity(alloc, config.manager.transactions as usize)?;
    for _ in 0..config.manager.transactions {
        let Ok(worker) = desk.add_worker(alloc) else {
            return Err(AllocError);
        };
        idle.push_reserved(worker);
    }
    Ok(Hall {
        desk,
        room,
        pending,
        idle,
    })
}
