//! Tests of the table that threads share and of its board, by what their callers can call.
#![tactic(auto)]

#[cfg(test)]
mod tests;
