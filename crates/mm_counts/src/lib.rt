//! What is counted of a table that threads share: what its passes have counted (`specs/Shares.antt`), and what it reports at its end
//! (`report`).
#![tactic(auto)]

mod report;

pub use report::Report;
