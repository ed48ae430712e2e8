//! The lock manager behind its lock, beside the words of mm_thin.
#![tactic(auto)]

mod adopt;
mod all;
mod ask;
mod begin;
mod books;
mod cancel;
mod desk;
mod end;
mod error;
mod opening;
mod reads;
mod reply;
mod room;
mod tally;
mod unlock;

pub use desk::Desk;
pub use error::OpenError;
pub use opening::DeskConfig;
pub use reply::{Adopted, Asked, Tried, Unlocked};
pub use room::Room;
