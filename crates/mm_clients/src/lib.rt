//! Clients, each of which runs transactions one after another, and transmitters, which pass labels on and detect deadlocks: the rules by
//! which they go, on whatever answers the calls of a table.
//!
//! - `gate`: `Gate`, where workers meet.
//! - `steps`: `Steps`, the events of a table as a worker calls them. `alone`: a `Table` that nobody shares.
//! - `end`: how a client ends. `earlier`: how its transactions before that ended. `client`, `transmitter`: the rules by which they go.
//! - `outcome`: `Outcome`, what came of a workload, and the two lines that say so. `tally`: what workers count of the replies to their calls.
#![tactic(auto)]

mod alone;
mod client;
mod earlier;
mod end;
mod gate;
mod outcome;
mod steps;
mod tally;
mod transmitter;

pub use client::Client;
pub use earlier::{ClientEnds, EarlierEnds};
pub use end::End;
pub use gate::Gate;
pub use mm_board::{Hint, HintKind};
pub use outcome::{EndCounts, Outcome, TalliedOutcome};
pub use steps::Steps;
pub use tally::Tally;
pub use transmitter::Transmitter;
