//! The labels that the tests expect, and the caller of the page of mm_label.
ghost use Rattle.std.specs.Prelude.{◌≡◌, ◌<◌, IsTrue};
ghost use Rattle.mm_label.specs.Label.{counter_range, process_range, label_le};

use mm_label::Label;

/// The label of these two parts.
pub fn label(counter: u64, process: u32) -> Label
    requires in_range { (counter < counter_range) × (process < process_range) }
    ensures { result ≡ record { counter = counter; process = process } }
{
    let Some(label) = Label::new(counter, process) else {
        unreachable!()
    };
    label
}

/// What a caller knows of a comparison.
pub fn greater(a: Label, b: Label) -> Label
    ensures at_least_a { IsTrue (label_le a result) }
    ensures at_least_b { IsTrue (label_le b result) }
{
    if a < b { b } else { a }
}
