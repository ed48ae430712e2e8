//! The calls that read. They change nothing, and of a closed handle they find nothing.
//!
//! The header has `const pashkure *` here. A `&Handle` could not lend its manager to a call from C, so these take what C lends as a `&mut`,
//! which is right since one call at a time uses a manager. They write nothing through it.
ghost use Rattle.std.specs.Prelude.{◌≡◌, false, IfSome, is_some};
ghost use Rattle.mm_manager.specs.Totals.{nothing_counted};
ghost use Rattle.pashkure.specs.Calls.{IsOpen};
ghost use Rattle.pashkure.specs.Reads.{wake_at, TellsLook, TellsName, TellsOwner};
ghost use Rattle.pashkure.specs.Plain.{counts_of};

use crate::answer::NOT_OPEN;
use crate::handle::Handle;
use crate::plain::{PlainCounts, PlainKey, PlainSeen, PlainWake};
use crate::tell::{tell_look, tell_name, tell_owner, tell_totals, tell_woken};

/// The wake of this index of those that the last call told of. False, and nothing is written, if there are fewer.
#[unsafe(no_mangle)]
pub extern "C" fn pashkure_woken(handle: &mut Handle, index: usize, woken: &mut PlainWake) -> bool
    ensures closed { ¬ IsOpen handle.old → result ≡ false }
    ensures same { handle.new ≡ handle.old }
    ensures told { IsOpen handle.old → result ≡ is_some (wake_at handle.old.locks index) }
    ensures wake { IsOpen handle.old → IfSome (wake_at handle.old.locks index) (λ wake. woken.new ≡ wake) }
    ensures unwritten { result ≡ false → woken.new ≡ woken.old }
{
    if !handle.is_open() {
        return false;
    }
    tell_woken(handle.manager(), index, woken)
}

/// Returns what is in a slot: 0 or 2 of a transaction that is active or waits, or 7 if there is none, and then nothing is written.
#[unsafe(no_mangle)]
pub extern "C" fn pashkure_look(handle: &mut Handle, slot: u32, seen: &mut PlainSeen) -> u32
    ensures closed { ¬ IsOpen handle.old → (result ≡ 32) × (seen.new ≡ seen.old) }
    ensures same { handle.new ≡ handle.old }
    ensures look { IsOpen handle.old → TellsLook handle.old.locks slot seen.old result seen.new }
{
    if !handle.is_open() {
        return NOT_OPEN;
    }
    tell_look(handle.manager(), slot, seen)
}

/// The name of a number, and its owner: 0, or 7 if nobody has the number, and then nothing is written. The length is written, and the
/// bytes if there is room for them.
#[unsafe(no_mangle)]
pub extern "C" fn pashkure_name(
    handle: &mut Handle,
    number: u32,
    bytes: &mut [u8],
    length: &mut usize,
    owner: &mut PlainKey,
) -> u32
    ensures closed { ¬ IsOpen handle.old → (result ≡ 32) × (bytes.new ≡ bytes.old) × (length.new ≡ length.old) × (owner.new ≡ owner.old) }
    ensures same { handle.new ≡ handle.old }
    ensures name { IsOpen handle.old → TellsName handle.old.locks number bytes.old length.old owner.old result bytes.new length.new owner.new }
{
    if !handle.is_open() {
        return NOT_OPEN;
    }
    tell_name(handle.manager(), number, bytes, length, owner)
}

/// Returns the owner of a name: 0, or 7 if nobody owns it, and then nothing is written.
#[unsafe(no_mangle)]
pub extern "C" fn pashkure_owner(handle: &mut Handle, name: &[u8], owner: &mut PlainKey) -> u32
    ensures closed { ¬ IsOpen handle.old → (result ≡ 32) × (owner.new ≡ owner.old) }
    ensures same { handle.new ≡ handle.old }
    ensures owner { IsOpen handle.old → TellsOwner handle.old.locks name.now owner.old result owner.new }
{
    if !handle.is_open() {
        return NOT_OPEN;
    }
    tell_owner(handle.manager(), name, owner)
}

/// What was counted; nothing, of a closed handle.
#[unsafe(no_mangle)]
pub extern "C" fn pashkure_totals(handle: &mut Handle, counts: &mut PlainCounts)
    ensures closed { ¬ IsOpen handle.old → counts.new ≡ counts_of nothing_counted 0 }
    ensures same { handle.new ≡ handle.old }
    ensures counts { IsOpen handle.old → counts.new ≡ counts_of handle.old.locks.totals handle.old.locks.table.totals.accepted }
{
    if !handle.is_open() {
        *counts = PlainCounts::NONE;
        return;
    }
    *counts = tell_totals(handle.manager());
}
