//! Clients and transmitters at work.
//!
//! - `client`, `transmitter`: one of either, call by call. `script` has the calls with their answers, `scripted` the steps and the gate that
//!   give them.
//! - `alone`: one client on a table. `rings`: one transmitter on tables. `threads`: a run by threads, with a look at its gates.
//! - `gates`: when gates are over. `lines`: the two lines that say what came of a workload.
//! - `passes`: the end of a test.

mod alone;
mod client;
mod gates;
mod lines;
mod passes;
mod rings;
mod script;
mod scripted;
mod threads;
mod transmitter;
