//! Links between the places of a list that is kept in an array: each place, or what is kept there, is linked to the one before it
//! and to the next.
//!
//! - `link`: `Link`, a place or none.
//! - `links`: `Links`, the two links of a place.
//!
//! What chains of links are, and what a write leaves of them, is in `specs/` and `proofs/`.
#![tactic(auto)]

mod link;
mod links;

pub use link::Link;
pub use links::Links;
