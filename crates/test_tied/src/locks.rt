//! What threads share.
use crate::manager::{Asked, ToyManager};
use crate::story::{Hall, ManagerStory};
use mm_tied::TiedMutex;

/// Locks that threads share by reference.
#[derive(Drop)]
pub struct Locks {
    pub(crate) lock: TiedMutex<Hall, ToyManager, Asked, ManagerStory>,
}
