//! Lists of items: an item is in one list at most, under a tag.
//!
//! - `spot`: a list and a tag.
//! - `kept`: a spot or none, in eight bytes.
//! - `tagged_lists`: `TaggedLists`.
//! - `counted_lists`: the same with the length of each list.
#![tactic(auto)]

mod counted_lists;
mod kept;
mod spot;
mod tagged_lists;

pub use counted_lists::CountedLists;
pub use spot::Spot;
pub use tagged_lists::TaggedLists;
