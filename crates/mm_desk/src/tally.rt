//! The counts of names while several names change at once.
ghost use Rattle.std.specs.Prelude.{◌≡◌, ◌<◌, ◌≤◌, ℕ, List, Option, None, length, slice_set, slice_index};
ghost use Rattle.mm_lists.specs.Members.{Among, NoRepeat};
ghost use Rattle.mm_names.specs.Names.{name_of};
ghost use Rattle.mm_desk.specs.Books.{AreCounted};
ghost use Rattle.mm_desk.specs.Tally.{name_at, IsCut, IsMended};

use mm_manager::LockManager;
use mm_thin::Spread;

/// Takes the name of a number from the counts.
fn uncount_one(manager: &LockManager, spread: Spread, number: u32, counts: &mut Vec<u32>)
    requires { (mid : List (Option (List ℕ))) × AreCounted spread mid counts.old.items × (number < length mid) × (name_at mid number ≡ name_of manager.now.names number) }
    ensures { (mid : List (Option (List ℕ))) → AreCounted spread mid counts.old.items → number < length mid → name_at mid number ≡ name_of manager.now.names number → AreCounted spread (slice_set mid number None) counts.new.items }
{
    if let Some(name) = manager.name(number) {
        let bucket = spread.of(name);
        counts[bucket] -= 1;
    }
}

/// Adds the name of a number to the counts.
fn recount_one(manager: &LockManager, spread: Spread, number: u32, counts: &mut Vec<u32>)
    requires some { (mid : List (Option (List ℕ))) × AreCounted spread mid counts.old.items × (number < length mid) × (length mid ≤ 16777216) × (name_at mid number ≡ None) }
    ensures { (mid : List (Option (List ℕ))) → AreCounted spread mid counts.old.items → number < length mid → name_at mid number ≡ None → AreCounted spread (slice_set mid number (name_of manager.now.names number)) counts.new.items }
{
    if let Some(name) = manager.name(number) {
        let bucket = spread.of(name);
        counts[bucket] += 1;
    }
}

/// Takes the names of these numbers from the counts.
pub(crate) fn uncount(
    manager: &LockManager,
    spread: Spread,
    numbers: &Vec<u32>,
    counts: &mut Vec<u32>,
)
    requires counted { AreCounted spread manager.now.names.names counts.old.items }
    requires once { NoRepeat numbers.now.items }
    requires inside { (n : ℕ) → Among n numbers.now.items → n < length manager.now.names.names }
    ensures { (mid : List (Option (List ℕ))) × IsCut manager.now.names.names numbers.now.items (length numbers.now.items) mid × AreCounted spread mid counts.new.items }
{
    for k in 0..numbers.len() {
        uncount_one(manager, spread, numbers[k], counts);
    }
}

/// Adds the names of these numbers to the counts, as far as they have names.
pub(crate) fn recount(
    manager: &LockManager,
    spread: Spread,
    numbers: &Vec<u32>,
    counts: &mut Vec<u32>,
)
    requires mended { (mid : List (Option (List ℕ))) × IsMended manager.now.names.names numbers.now.items 0 mid × AreCounted spread mid counts.old.items }
    requires once { NoRepeat numbers.now.items }
    requires inside { (n : ℕ) → Among n numbers.now.items → n < length manager.now.names.names }
    requires few { length manager.now.names.names ≤ 16777216 }
    ensures { AreCounted spread manager.now.names.names counts.new.items }
{
    for k in 0..numbers.len() {
        recount_one(manager, spread, numbers[k], counts);
    }
}
