//! `board` for mm_board, `shared` for mm_shared, `rows` for the worked scripts on a shared table, and `call` for the calls of a script.

mod board;
mod call;
mod rows;
mod same;
mod shared;
