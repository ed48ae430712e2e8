//! A worker as a program in C holds it.
ghost use Rattle.std.specs.Prelude.{◌≡◌, ◌↔◌, true, nat_eq};
ghost use Rattle.std.specs.Borrow.{sem};
ghost use Rattle.mm_thin.specs.Parts.{WorkerState};
ghost use Rattle.pashkure.specs.WorkerOwning.{worker_word, owned_if, state_coded};

use crate::parts::Parts;
use mm_thin::Worker;
use std::alloc::Global;
use std::marker::Model;
use std::ptr::null_mut;

/// The word of a handle that has a worker: the letters of `pashwork`. Zeroed bytes, and most stray ones, are a closed handle.
const OPEN: u64 = 0x7061_7368_776f_726b;

/// A worker, or nothing: the `pashkure_worker` of the header.
#[repr(C)]
#[derive(Drop)]
pub struct WorkerHandle {
    at: *mut u8,
    pub state: u64,
    pub ghost held: { WorkerState } by { state_coded },
}

impl Model for WorkerHandle {
    ghost also_owns = { λ h. owned_if (nat_eq h.state worker_word) h.at h.held };
}

impl WorkerHandle {
    ghost use Rattle.pashkure.specs.WorkerLending.{LendsWorker};

    /// Nothing.
    pub fn closed() -> WorkerHandle
        ensures { result.state ≡ 0 }
    {
        WorkerHandle {
            at: null_mut(),
            state: 0,
        }
    }

    pub fn of_parts(parts: Parts<Worker, Global>) -> WorkerHandle
        ensures open { result.state ≡ worker_word }
        ensures held { result.held ≡ parts.value }
    {
        let Parts { ptr, alloc: _ } = parts;
        WorkerHandle {
            at: ptr as *mut u8,
            state: OPEN,
        }
    }

    pub fn into_parts(self, alloc: Global) -> Parts<Worker, Global>
        requires { self.state ≡ worker_word }
        ensures { result.value ≡ self.held }
    {
        let WorkerHandle { at, state: _ } = self;
        Parts {
            ptr: at as *mut Worker,
            alloc,
        }
    }

    fn word(&mut self) -> u64
        ensures word { result ≡ self.old.state }
        ensures same { self.new ≡ self.old }
    {
        self.state
    }

    /// Returns whether there is a worker.
    pub fn is_open(&mut self) -> bool
        ensures open { (result ≡ true) ↔ (self.old.state ≡ worker_word) }
        ensures same { self.new ≡ self.old }
    {
        self.word() == OPEN
    }

    /// Returns the worker.
    pub fn worker(&mut self) -> &mut Worker
        requires { self.old.state ≡ worker_word }
        ensures* writes_back { sem 𝓛 (LendsWorker self.entry result) }
        ensures value { result.now ≡ self.old.held }
    {
        unsafe { &mut *(self.at as *mut Worker) }
    }
}

unsafe impl Send for WorkerHandle {}
