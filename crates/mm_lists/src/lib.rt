//! What is in a list: words of the definitions of other crates, in `specs/`, and their lemmas, in `proofs/`. It has no code.
#![tactic(auto)]
