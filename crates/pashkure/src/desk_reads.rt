//! The calls that read a desk's manager. They change nothing, and of a closed handle they find nothing.
ghost use Rattle.std.specs.Prelude.{◌≡◌, false, IfSome, is_some};
ghost use Rattle.mm_manager.specs.Totals.{nothing_counted};
ghost use Rattle.pashkure.specs.DeskCalls.{HasDesk, TellsOwned};
ghost use Rattle.pashkure.specs.Reads.{wake_at, TellsLook, TellsName, TellsOwner};
ghost use Rattle.pashkure.specs.Plain.{counts_of};

use crate::answer::NOT_OPEN;
use crate::desk_handle::DeskHandle;
use crate::plain::{PlainCounts, PlainKey, PlainSeen, PlainWake};
use crate::tell::{tell_look, tell_name, tell_owner, tell_totals, tell_woken};

/// As `pashkure_woken`.
#[unsafe(no_mangle)]
pub extern "C" fn pashkure_desk_woken(
    desk: &mut DeskHandle,
    index: usize,
    woken: &mut PlainWake,
) -> bool
    ensures closed { ¬ HasDesk desk.old → result ≡ false }
    ensures same { desk.new ≡ desk.old }
    ensures told { HasDesk desk.old → result ≡ is_some (wake_at desk.old.held.desk.manager index) }
    ensures wake { HasDesk desk.old → IfSome (wake_at desk.old.held.desk.manager index) (λ wake. woken.new ≡ wake) }
    ensures unwritten { result ≡ false → woken.new ≡ woken.old }
{
    if !desk.is_open() {
        return false;
    }
    tell_woken(desk.hall().desk.manager(), index, woken)
}

/// As `pashkure_look`.
#[unsafe(no_mangle)]
pub extern "C" fn pashkure_desk_look(desk: &mut DeskHandle, slot: u32, seen: &mut PlainSeen) -> u32
    ensures closed { ¬ HasDesk desk.old → (result ≡ 32) × (seen.new ≡ seen.old) }
    ensures same { desk.new ≡ desk.old }
    ensures look { HasDesk desk.old → TellsLook desk.old.held.desk.manager slot seen.old result seen.new }
{
    if !desk.is_open() {
        return NOT_OPEN;
    }
    tell_look(desk.hall().desk.manager(), slot, seen)
}

/// As `pashkure_name`.
#[unsafe(no_mangle)]
pub extern "C" fn pashkure_desk_name(
    desk: &mut DeskHandle,
    number: u32,
    bytes: &mut [u8],
    length: &mut usize,
    owner: &mut PlainKey,
) -> u32
    ensures closed { ¬ HasDesk desk.old → (result ≡ 32) × (bytes.new ≡ bytes.old) × (length.new ≡ length.old) × (owner.new ≡ owner.old) }
    ensures same { desk.new ≡ desk.old }
    ensures name { HasDesk desk.old → TellsName desk.old.held.desk.manager number bytes.old length.old owner.old result bytes.new length.new owner.new }
{
    if !desk.is_open() {
        return NOT_OPEN;
    }
    tell_name(desk.hall().desk.manager(), number, bytes, length, owner)
}

/// As `pashkure_owner`.
#[unsafe(no_mangle)]
pub extern "C" fn pashkure_desk_owner(
    desk: &mut DeskHandle,
    name: &[u8],
    owner: &mut PlainKey,
) -> u32
    ensures closed { ¬ HasDesk desk.old → (result ≡ 32) × (owner.new ≡ owner.old) }
    ensures same { desk.new ≡ desk.old }
    ensures owner { HasDesk desk.old → TellsOwner desk.old.held.desk.manager name.now owner.old result owner.new }
{
    if !desk.is_open() {
        return NOT_OPEN;
    }
    tell_owner(desk.hall().desk.manager(), name, owner)
}

/// `Desk::list_owned`. As many numbers are written as there is room for, and it is told how many there are.
#[unsafe(no_mangle)]
pub extern "C" fn pashkure_desk_owned(desk: &mut DeskHandle, at: u32, numbers: &mut [u32]) -> usize
    ensures closed { ¬ HasDesk desk.old → (result ≡ 0) × (numbers.new ≡ numbers.old) }
    ensures same { desk.new ≡ desk.old }
    ensures owned { HasDesk desk.old → TellsOwned desk.old.held at numbers.old result numbers.new }
{
    if !desk.is_open() {
        return 0;
    }
    desk.hall().list_owned(at, numbers)
}

/// As `pashkure_totals`.
#[unsafe(no_mangle)]
pub extern "C" fn pashkure_desk_totals(desk: &mut DeskHandle, counts: &mut PlainCounts)
    ensures closed { ¬ HasDesk desk.old → counts.new ≡ counts_of nothing_counted 0 }
    ensures same { desk.new ≡ desk.old }
    ensures counts { HasDesk desk.old → counts.new ≡ counts_of desk.old.held.desk.manager.totals desk.old.held.desk.manager.table.totals.accepted }
{
    if !desk.is_open() {
        *counts = PlainCounts::NONE;
        return;
    }
    *counts = tell_totals(desk.hall().desk.manager());
}
