//! The calls that change a manager. Of a closed handle each answers `NOT_OPEN`, and changes nothing.
ghost use Rattle.std.specs.Prelude.{◌≡◌, ◌≢◌, ◌⊎◌};
ghost use Rattle.mm_manager.specs.LockState.{HasOwnSlot};
ghost use Rattle.mm_manager.specs.Opening.{opening_state};
ghost use Rattle.pashkure.specs.Opening.{config_fault};
ghost use Rattle.pashkure.specs.Calls.{IsOpen, TellsBegin, TellsLock, TellsTry, TellsUnlock, TellsCommit, TellsAbort, TellsCancel};
ghost use Rattle.pashkure.specs.Plain.{config_of, key_of};

use crate::answer::{IN_USE, NO_MEMORY, NOT_OPEN, OK, of_begin, of_done, of_lock, of_try};
use crate::handle::{Handle, open};
use crate::opening::{VERSION, fault};
use crate::plain::{PlainConfig, PlainKey};
use std::alloc::Global;

/// Returns the version of the library: 1,000,000 times the major number, and 1,000 times the minor one, and the patch.
#[unsafe(no_mangle)]
pub extern "C" fn pashkure_version() -> u32
    ensures { result ≡ 2000 }
{
    VERSION
}

/// Opens a manager: 0, or why there is none.
#[unsafe(no_mangle)]
pub extern "C" fn pashkure_open(alloc: Global, handle: &mut Handle, config: &PlainConfig) -> u32
    ensures in_use { IsOpen handle.old → result ≡ 33 }
    ensures fault { ¬ IsOpen handle.old → config_fault config.now ≢ 0 → result ≡ config_fault config.now }
    ensures no_fault { ¬ IsOpen handle.old → config_fault config.now ≡ 0 → (result ≡ 0) ⊎ (result ≡ 39) }
    ensures refused { result ≢ 0 → handle.new ≡ handle.old }
    ensures open { result ≡ 0 → IsOpen handle.new × (handle.new.locks ≡ opening_state (config_of config.now)) }
{
    if handle.is_open() {
        return IN_USE;
    }
    let fault = fault(config);
    if fault != OK {
        return fault;
    }
    match open(alloc, config.manager_config()) {
        Some(opened) => {
            *handle = opened;
            OK
        }
        None => NO_MEMORY,
    }
}

/// Gives back all memory of the manager.
#[unsafe(no_mangle)]
pub extern "C" fn pashkure_close(alloc: Global, handle: &mut Handle)
    ensures closed { ¬ IsOpen handle.new }
    ensures same { ¬ IsOpen handle.old → handle.new ≡ handle.old }
{
    if !handle.is_open() {
        return;
    }
    let held = std::mem::replace(handle, Handle::closed());
    drop(held.into_parts(alloc).into_box());
}

/// `LockManager::begin`.
#[unsafe(no_mangle)]
pub extern "C" fn pashkure_begin(handle: &mut Handle, key: &mut PlainKey) -> u32
    ensures closed { ¬ IsOpen handle.old → (result ≡ 32) × (handle.new ≡ handle.old) × (key.new ≡ key.old) }
    ensures open { handle.new.state ≡ handle.old.state }
    ensures begins { IsOpen handle.old → TellsBegin handle.old.locks key.old result key.new handle.new.locks }
    ensures slot { IsOpen handle.old → result ≡ 0 → HasOwnSlot handle.new.locks (key_of key.new) }
{
    if !handle.is_open() {
        return NOT_OPEN;
    }
    let answer = handle.manager().begin();
    if let Ok(begun) = answer {
        *key = PlainKey::of(begun);
    }
    of_begin(answer)
}

/// `LockManager::lock`.
#[unsafe(no_mangle)]
pub extern "C" fn pashkure_lock(handle: &mut Handle, key: PlainKey, name: &[u8]) -> u32
    ensures closed { ¬ IsOpen handle.old → (result ≡ 32) × (handle.new ≡ handle.old) }
    ensures open { handle.new.state ≡ handle.old.state }
    ensures locks { IsOpen handle.old → TellsLock handle.old.locks (key_of key) name.now result handle.new.locks }
{
    if !handle.is_open() {
        return NOT_OPEN;
    }
    of_lock(handle.manager().lock(key.key(), name))
}

/// `LockManager::try_lock`.
#[unsafe(no_mangle)]
pub extern "C" fn pashkure_try_lock(handle: &mut Handle, key: PlainKey, name: &[u8]) -> u32
    ensures closed { ¬ IsOpen handle.old → (result ≡ 32) × (handle.new ≡ handle.old) }
    ensures open { handle.new.state ≡ handle.old.state }
    ensures tries { IsOpen handle.old → TellsTry handle.old.locks (key_of key) name.now result handle.new.locks }
{
    if !handle.is_open() {
        return NOT_OPEN;
    }
    of_try(handle.manager().try_lock(key.key(), name))
}

/// `LockManager::unlock`.
#[unsafe(no_mangle)]
pub extern "C" fn pashkure_unlock(handle: &mut Handle, key: PlainKey, name: &[u8]) -> u32
    ensures closed { ¬ IsOpen handle.old → (result ≡ 32) × (handle.new ≡ handle.old) }
    ensures open { handle.new.state ≡ handle.old.state }
    ensures unlocks { IsOpen handle.old → TellsUnlock handle.old.locks (key_of key) name.now result handle.new.locks }
{
    if !handle.is_open() {
        return NOT_OPEN;
    }
    of_done(handle.manager().unlock(key.key(), name))
}

/// `LockManager::commit`.
#[unsafe(no_mangle)]
pub extern "C" fn pashkure_commit(handle: &mut Handle, key: PlainKey) -> u32
    ensures closed { ¬ IsOpen handle.old → (result ≡ 32) × (handle.new ≡ handle.old) }
    ensures open { handle.new.state ≡ handle.old.state }
    ensures commits { IsOpen handle.old → TellsCommit handle.old.locks (key_of key) result handle.new.locks }
{
    if !handle.is_open() {
        return NOT_OPEN;
    }
    of_done(handle.manager().commit(key.key()))
}

/// `LockManager::abort`.
#[unsafe(no_mangle)]
pub extern "C" fn pashkure_abort(handle: &mut Handle, key: PlainKey) -> u32
    ensures closed { ¬ IsOpen handle.old → (result ≡ 32) × (handle.new ≡ handle.old) }
    ensures open { handle.new.state ≡ handle.old.state }
    ensures aborts { IsOpen handle.old → TellsAbort handle.old.locks (key_of key) result handle.new.locks }
{
    if !handle.is_open() {
        return NOT_OPEN;
    }
    of_done(handle.manager().abort(key.key()))
}

/// `LockManager::cancel`.
#[unsafe(no_mangle)]
pub extern "C" fn pashkure_cancel(handle: &mut Handle, key: PlainKey) -> u32
    ensures closed { ¬ IsOpen handle.old → (result ≡ 32) × (handle.new ≡ handle.old) }
    ensures open { handle.new.state ≡ handle.old.state }
    ensures cancels { IsOpen handle.old → TellsCancel handle.old.locks (key_of key) result handle.new.locks }
{
    if !handle.is_open() {
        return NOT_OPEN;
    }
    of_done(handle.manager().cancel(key.key()))
}
