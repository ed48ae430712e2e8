//! A toy lock manager, and a counter, behind locks with one history.
#![tactic(auto)]

mod calls;
mod counter;
mod locks;
mod manager;
mod session;
mod story;
#[cfg(test)]
mod tests;

pub use counter::Counter;
pub use locks::Locks;
pub use manager::{Answer, Asked, ToyManager};
pub use session::Session;
pub use story::{Hall, ManagerStory};
