//! The wait-for graph of a table, gathered for display: its edges, and the cycle that a process is on. The table itself keeps no edges and searches
//! for no cycle.
//!
//! - `edges`: the waits of a table, each with its holder.
//! - `cycles`: the cycle that a process is on.
#![tactic(auto)]

mod cycles;
mod edges;

pub use cycles::cycle_through;
pub use edges::{Edge, edge_of, edges_of};
