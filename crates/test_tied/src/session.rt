//! A thread's way to the locks.
ghost use Rattle.std.specs.Prelude.{◌≡◌, ◌<◌, ◌+◌, ◌^◌, []};
ghost use Rattle.mm_tied.specs.Mutex.{opened, IsPassOf};
ghost use Rattle.mm_tied.specs.History.{IsSound};
ghost use Rattle.test_tied.specs.ToyManager.{Asks};

use crate::locks::Locks;
use crate::manager::{Asked, ToyManager};
use crate::story::Hall;
use mm_tied::Pass;

/// A thread's way to the locks.
#[derive(Drop)]
pub struct Session<'m> {
    pub(crate) locks: &'m Locks,
    pub(crate) at: u32,
    pub(crate) pass: Pass<Hall, ToyManager, Asked>,
    ghost small: { at + 1 < 2 ^ 32 },
    ghost own: { IsPassOf locks.now.lock pass },
    ghost hands: { pass.me.1 ≡ [] },
    ghost sound: { IsSound Asks ((opened locks.now.lock).manager) pass.id pass.me.0 },
}
