//! Names for the numbers of a table: each name has one number, and each number one name or none. All memory is taken at the opening.
//!
//! - `config`: `NamesConfig`, the numbers with which names are opened.
//! - `error`: why they are not opened, and why a name gets no number.
//! - `places`: where the bytes of each name stand. `length`: how many they are.
//! - `hash`: the hash of a name.
//! - `spots`: where the number of a name stands, by the hash of the name.
//! - `names`: `Names`.
#![tactic(auto)]

mod config;
mod error;
mod hash;
mod length;
mod names;
mod places;
mod spots;

pub use config::NamesConfig;
pub use error::{NamesError, OpenError};
pub use hash::NameHash;
pub use names::{Entry, Names};
