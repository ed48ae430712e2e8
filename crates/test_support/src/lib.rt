//! What the tests of several crates share.
//!
//! - `Row`, `all_rows`: scripts with the replies that they are to have.
//! - `label`: a label by its parts. `greater`: the caller of the page of mm_label.
#![tactic(auto)]

mod labels;
mod rows;

pub use labels::{greater, label};
pub use rows::{Row, all_rows};
