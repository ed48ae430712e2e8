//! The lock manager for programs in C, C++, Rust, Python and whatever else calls C: a static library, whose header is `include/pashkure.h`.
//!
//! - `plain`: the records that cross, as the header has them.
//! - `answer`: the number of each answer.
//! - `handle`, `parts`: a manager as a program in C holds it.
//! - `opening`: what a configuration is refused for.
//! - `calls`: the calls that change a manager. `reads`: those that do not. `tell`: what they tell.
//!
//! And for the layer for threads, whose header is `include/pashkure_desk.h`:
//!
//! - `desk_handle`, `worker_handle`: a desk and a worker as a program in C holds them. `hall`: a desk with its room.
//! - `desk_answer`: the number of each of their answers.
//! - `desk_opening`, `desk_calls`, `desk_reads`: the calls of a desk. `worker_calls`: those of a worker alone.
#![tactic(auto)]

mod answer;
mod calls;
mod desk_answer;
mod desk_calls;
mod desk_handle;
mod desk_opening;
mod desk_reads;
mod hall;
mod handle;
mod opening;
mod parts;
mod plain;
mod reads;
mod tell;
mod worker_calls;
mod worker_handle;
