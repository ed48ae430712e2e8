//! Values under keys that the arena picks: a process number, and a generation that tells one use of the number from the next.
//!
//! A key is live from the insert that gives it until it is removed, and never again.
//! A contract sees an arena as one value, the record `Slots` of `specs/Slots.antt`.
#![tactic(auto)]

mod arena;
mod key;
mod laws;
mod memory;
mod shelf;
mod slot;

pub use arena::{Arena, MAX_CAPACITY};
pub use key::Key;
pub use laws::removed_is_never_live;
pub use memory::Memory;
pub use shelf::Shelf;
