//! What a request of the lock service leaves of the transactions that it does not name: laws, without code.
#![tactic(auto)]

ghost use Rattle.mm_apart.specs.Apart.{OthersAreLeft};

/// A request leaves each live transaction that it does not name.
pub fn others_are_left()
    ensures { OthersAreLeft }
{}
