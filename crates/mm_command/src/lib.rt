//! The command line of the program: what its words ask for.
//!
//! - `command_line`: what the words ask for, by clap's rules. Below it, `program` has the words that there are, `options` the numbers of a
//!   lock service.
//! - `help`: the text of the help. `version`: the version of the program.
#![tactic(auto)]

mod command_line;
mod help;
mod version;

pub use command_line::{ExplainOptions, LocksOptions, Request, asked, request_of};
