//! Who owns a name in the manager.
ghost use Rattle.std.specs.Prelude.{IsTrue, ◌↔◌};
ghost use Rattle.mm_manager.specs.LockState.{Owns};

use mm_manager::{Key, LockManager};

/// Returns whether the transaction owns the name.
pub fn owns(manager: &LockManager, key: Key, name: &[u8]) -> bool
    ensures { IsTrue result ↔ Owns manager.now key name.now }
{
    match manager.owner(name) {
        Some(owner) => owner == key,
        None => false,
    }
}
