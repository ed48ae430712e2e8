//! Lines of bytes, from any reader to any writer: what scripts and services share. It knows neither what a line asks for nor what it is answered.
//!
//! - `server`: reads lines, has them answered, and writes the replies.
//! - `fault`: why lines were not answered to their end.
//! - `input`: the bytes that are read and not yet answered.
//! - `output`: writes the replies that wait.
//! - `words`: the words of a line, and the numbers and keys that they spell.
//! - `table`: the row of a table that has a word.
//! - `cut`: where bytes are cut.
#![tactic(auto)]

mod cut;
mod fault;
mod input;
mod output;
mod server;
mod table;
mod words;

pub use cut::{split_once, without_carriage_return};
pub use fault::Fault;
pub use input::{Input, Limits};
pub use output::{
    OUTPUT_LEN, Output, make_room, print_key, print_number, print_text, write_output,
};
pub use server::{Answerer, serve};
pub use table::row_of;
pub use words::{Words, number32};
