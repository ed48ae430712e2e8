//! Words by which threads lock names without a lock while nobody waits for them.
#![tactic(auto)]

mod buckets;
mod config;
mod desk_part;
mod giving_up;
mod looks;
mod office;
mod opening;
mod place;
mod record;
mod reply;
mod rule;
mod spread;
mod steps;
mod text;
mod views;
mod worker;

pub use config::{OpenError, ThinConfig, WorkerError};
pub use office::Office;
pub use reply::{GiveUp, Got, Look, Take};
pub use rule::WordsRule;
pub use spread::Spread;
pub use text::{MAX_THIN_BYTES, Text};
pub use views::{DeskView, Lent, Part, RecordView, View};
pub use worker::{PLACES, RECORDS, Worker};
