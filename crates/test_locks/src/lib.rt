//! Tests of the locks that threads share, by what their callers can call.
#![tactic(auto)]

#[cfg(test)]
mod tests;
