//! What the reading calls tell of a manager.
ghost use Rattle.std.specs.Prelude.{◌≡◌, false, IfSome, is_some};
ghost use Rattle.pashkure.specs.Reads.{wake_at, filled, LooksAt, HasName, TellsLook, TellsName, TellsOwner};
ghost use Rattle.pashkure.specs.Plain.{counts_of};

use crate::answer::{FREE, OK, of_status};
use crate::plain::{PlainCounts, PlainKey, PlainSeen, PlainWake};
use mm_manager::{Key, LockManager, Status};

/// Tells of the wake of this index, if there is one.
pub(crate) fn tell_woken(manager: &LockManager, index: usize, woken: &mut PlainWake) -> bool
    ensures told { result ≡ is_some (wake_at manager.now index) }
    ensures wake { IfSome (wake_at manager.now index) (λ wake. woken.new ≡ wake) }
    ensures unwritten { result ≡ false → woken.new ≡ woken.old }
{
    match wake_at(manager, index) {
        Some(wake) => {
            *woken = wake;
            true
        }
        None => false,
    }
}

/// Tells what is in a slot.
pub(crate) fn tell_look(manager: &LockManager, slot: u32, seen: &mut PlainSeen) -> u32
    ensures { TellsLook manager.now slot seen.old result seen.new }
{
    match look(manager, slot) {
        Some((key, status)) => {
            *seen = PlainSeen::of(key, status);
            of_status(status)
        }
        None => FREE,
    }
}

/// Tells the name of a number, and its owner.
pub(crate) fn tell_name(
    manager: &LockManager,
    number: u32,
    bytes: &mut [u8],
    length: &mut usize,
    owner: &mut PlainKey,
) -> u32
    ensures { TellsName manager.now number bytes.old length.old owner.old result bytes.new length.new owner.new }
{
    match named(manager, number) {
        Some((name, key)) => {
            *length = name.len();
            *owner = PlainKey::of(key);
            fill(name, bytes);
            OK
        }
        None => FREE,
    }
}

/// Tells the owner of a name.
pub(crate) fn tell_owner(manager: &LockManager, name: &[u8], owner: &mut PlainKey) -> u32
    ensures { TellsOwner manager.now name.now owner.old result owner.new }
{
    match manager.owner(name) {
        Some(key) => {
            *owner = PlainKey::of(key);
            OK
        }
        None => FREE,
    }
}

/// What was counted.
pub(crate) fn tell_totals(manager: &LockManager) -> PlainCounts
    ensures { result ≡ counts_of manager.now.totals manager.now.table.totals.accepted }
{
    PlainCounts::of(manager.totals(), manager.events())
}

/// The wake of this index.
fn wake_at(manager: &LockManager, index: usize) -> Option<PlainWake>
    ensures { result ≡ wake_at manager.now index }
{
    let grant = manager.granted().get(index)?;
    Some(PlainWake::of(*grant))
}

/// The transaction of a slot, and what it does.
fn look(manager: &LockManager, slot: u32) -> Option<(Key, Status)>
    ensures { LooksAt manager.now slot result }
{
    let key = manager.transaction_at(slot)?;
    match manager.status(key) {
        Ok(status) => Some((key, status)),
        Err(_) => unreachable!(),
    }
}

/// Copies a name to the head of these bytes, if they have room for it.
fn fill(name: &[u8], bytes: &mut [u8])
    ensures { bytes.new ≡ filled name.now bytes.old }
{
    if name.len() <= bytes.len() {
        bytes[..name.len()].copy_from_slice(name);
    }
}

/// The name of a number, and its owner.
fn named(manager: &LockManager, number: u32) -> Option<(&[u8], Key)>
    ensures { HasName manager.now number result }
{
    let name = manager.name(number)?;
    manager.keeps_laws();
    match manager.owner(name) {
        Some(key) => Some((name, key)),
        None => unreachable!(),
    }
}
