//! Worked calls of the crates below the table, of generated workloads, and of scripts whose writer fails.
#![tactic(auto)]

#[cfg(test)]
mod tests;
