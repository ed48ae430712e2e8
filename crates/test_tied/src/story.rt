//! What lies behind the lock, and what its history tells.
use crate::manager::{Asked, ToyManager};
use atomic_table::Seat;
use mm_tied::Story;
use std::collections::LinkedList;

/// The manager, and how often the lock was had.
#[derive(Drop)]
pub struct Hall {
    pub(crate) manager: ToyManager,
    pub(crate) visits: u64,
    pub(crate) idle: Vec<Worker>,
}

/// As a worker that lies behind a lock: it has a seat at another table.
#[derive(Drop)]
pub struct Worker {
    pub(crate) at: u32,
    pub(crate) seat: Seat<u64, LinkedList<u8>>,
    pub(crate) names: Vec<Vec<u8>>,
}

/// The history speaks of the manager, and each event is one call of it.
pub struct ManagerStory;

impl Story<Hall, ToyManager, Asked> for ManagerStory {
    ghost use Rattle.test_tied.specs.ToyManager.{Asks};

    ghost state = { λ hall. hall.manager };

    ghost makes = { Asks };
}
