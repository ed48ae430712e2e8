//! A lock manager as a program in C holds it.
ghost use Rattle.std.specs.Prelude.{◌≡◌, ◌↔◌, true, nat_eq, IfSome};
ghost use Rattle.std.specs.Borrow.{sem};
ghost use Rattle.mm_manager.specs.LockState.{LockState};
ghost use Rattle.mm_manager.specs.Opening.{opening_state};
ghost use Rattle.pashkure.specs.Owning.{open_word, owned_if, state_coded};

use crate::parts::Parts;
use mm_manager::{LockManager, ManagerConfig};
use std::alloc::Global;
use std::marker::Model;
use std::ptr::null_mut;

/// The word of a handle that has a manager: the letters of `pashkure`. Zeroed bytes, and most stray ones, are a closed handle.
const OPEN: u64 = 0x7061_7368_6b75_7265;

/// A lock manager, or nothing: the `pashkure` of the header, whose `manager` is `at`.
#[repr(C)]
#[derive(Drop)]
pub struct Handle {
    at: *mut u8,
    pub state: u64,
    pub ghost locks: { LockState } by { state_coded },
}

impl Model for Handle {
    ghost also_owns = { λ h. owned_if (nat_eq h.state open_word) h.at h.locks };
}

impl Handle {
    ghost use Rattle.pashkure.specs.Lending.{LendsManager};

    /// Nothing.
    pub fn closed() -> Handle
        ensures { result.state ≡ 0 }
    {
        Handle {
            at: null_mut(),
            state: 0,
        }
    }

    pub fn of_parts(parts: Parts<LockManager, Global>) -> Handle
        ensures open { result.state ≡ open_word }
        ensures locks { result.locks ≡ parts.value }
    {
        let Parts { ptr, alloc: _ } = parts;
        Handle {
            at: ptr as *mut u8,
            state: OPEN,
        }
    }

    pub fn into_parts(self, alloc: Global) -> Parts<LockManager, Global>
        requires { self.state ≡ open_word }
        ensures { result.value ≡ self.locks }
    {
        let Handle { at, state: _ } = self;
        Parts {
            ptr: at as *mut LockManager,
            alloc,
        }
    }

    fn word(&mut self) -> u64
        ensures word { result ≡ self.old.state }
        ensures same { self.new ≡ self.old }
    {
        self.state
    }

    /// Returns whether there is a manager.
    pub fn is_open(&mut self) -> bool
        ensures open { (result ≡ true) ↔ (self.old.state ≡ open_word) }
        ensures same { self.new ≡ self.old }
    {
        self.word() == OPEN
    }

    /// Returns the manager.
    pub fn manager(&mut self) -> &mut LockManager
        requires { self.old.state ≡ open_word }
        ensures* writes_back { sem 𝓛 (LendsManager self.entry result) }
        ensures value { result.now ≡ self.old.locks }
    {
        unsafe { &mut *(self.at as *mut LockManager) }
    }
}

unsafe impl Send for Handle {}

/// Returns a handle of a new manager; `None` if a number is out of its range, or a request for memory was refused.
pub fn open(alloc: Global, config: ManagerConfig) -> Option<Handle>
    ensures open { IfSome result (λ handle. handle.state ≡ open_word) }
    ensures locks { IfSome result (λ handle. handle.locks ≡ opening_state config) }
{
    let manager = LockManager::open(alloc, config).ok()?;
    let boxed = Box::new(alloc, manager).ok()?;
    Some(Handle::of_parts(Parts::of(boxed)))
}
