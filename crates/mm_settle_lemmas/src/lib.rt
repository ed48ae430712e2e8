//! Why a settle may look at those alone whose labels or waits changed: what such a settle keeps from one process to the next, and what
//! each event adds to the changed; and what each event changes of what processes show. All of it is said of states.
//!
//! - `laws`: facts about all tables, as the contracts of functions that do nothing. There is no other code.
#![tactic(auto)]

pub mod laws;
