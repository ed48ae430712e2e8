//! Threads that lock names, and sleep until they own them.
//!
//! - `opened`: how locks are opened and lent to threads, with one bucket for all names and with more.
//! - `cases`: the tests of threads that do more than a script can say, and what such threads do: `alone`, `together`, `ends`, `again`,
//!   `patience`, `wakes`.
//! - `scripts`: threads whose calls have one answer each, and `steps`: how they are made.
//! - `clocks`: a clock that a test moves; `helpers`: what the tests share.

mod again;
mod alone;
mod cases;
mod clocks;
mod ends;
mod helpers;
mod opened;
mod patience;
mod scripts;
mod steps;
mod together;
mod wakes;
