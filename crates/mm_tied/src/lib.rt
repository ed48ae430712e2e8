//! A lock round a value, of which there is one history: the very step that takes or gives back the lock ties the value to it.
//!
//! - `story`: `Story`, what a history tells of a value, and `Events`, what one call tells.
//! - `views`: what passes know. `rule`: what holds between any two steps.
//! - `lock`: `TiedMutex` and its passes. `mutex`: its calls.
#![tactic(auto)]

mod lock;
mod mutex;
mod rule;
mod story;
mod views;

pub use lock::{Pass, Steps, TiedMutex};
pub use rule::Kept;
pub use story::{Events, Story};
pub use views::{Stage, Told, View};
