//! Tests of the clients and the transmitters of a workload, by what their callers can call.
#![tactic(auto)]

#[cfg(test)]
mod tests;
