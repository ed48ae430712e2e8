//! A desk as a program in C holds it.
ghost use Rattle.std.specs.Prelude.{◌≡◌, ◌↔◌, true, nat_eq};
ghost use Rattle.std.specs.Borrow.{sem};
ghost use Rattle.pashkure.specs.Hall.{HallState};
ghost use Rattle.pashkure.specs.DeskOwning.{desk_word, owned_if, state_coded};

use crate::hall::Hall;
use crate::parts::Parts;
use std::alloc::Global;
use std::marker::Model;
use std::ptr::null_mut;

/// The word of a handle that has a desk: the letters of `pashdesk`. Zeroed bytes, and most stray ones, are a closed handle.
const OPEN: u64 = 0x7061_7368_6465_736b;

/// A desk, or nothing: the `pashkure_desk` of the header.
#[repr(C)]
#[derive(Drop)]
pub struct DeskHandle {
    at: *mut u8,
    pub state: u64,
    pub ghost held: { HallState } by { state_coded },
}

impl Model for DeskHandle {
    ghost also_owns = { λ h. owned_if (nat_eq h.state desk_word) h.at h.held };
}

impl DeskHandle {
    ghost use Rattle.pashkure.specs.DeskLending.{LendsHall};

    /// Nothing.
    pub fn closed() -> DeskHandle
        ensures { result.state ≡ 0 }
    {
        DeskHandle {
            at: null_mut(),
            state: 0,
        }
    }

    pub fn of_parts(parts: Parts<Hall, Global>) -> DeskHandle
        ensures open { result.state ≡ desk_word }
        ensures held { result.held ≡ parts.value }
    {
        let Parts { ptr, alloc: _ } = parts;
        DeskHandle {
            at: ptr as *mut u8,
            state: OPEN,
        }
    }

    pub fn into_parts(self, alloc: Global) -> Parts<Hall, Global>
        requires { self.state ≡ desk_word }
        ensures { result.value ≡ self.held }
    {
        let DeskHandle { at, state: _ } = self;
        Parts {
            ptr: at as *mut Hall,
            alloc,
        }
    }

    fn word(&mut self) -> u64
        ensures word { result ≡ self.old.state }
        ensures same { self.new ≡ self.old }
    {
        self.state
    }

    /// Returns whether there is a desk.
    pub fn is_open(&mut self) -> bool
        ensures open { (result ≡ true) ↔ (self.old.state ≡ desk_word) }
        ensures same { self.new ≡ self.old }
    {
        self.word() == OPEN
    }

    /// Returns the desk and its room.
    pub fn hall(&mut self) -> &mut Hall
        requires { self.old.state ≡ desk_word }
        ensures* writes_back { sem 𝓛 (LendsHall self.entry result) }
        ensures value { result.now ≡ self.old.held }
    {
        unsafe { &mut *(self.at as *mut Hall) }
    }
}

unsafe impl Send for DeskHandle {}
