//! Labels, and the words that they are kept in now and were kept in once.

use crate::tests::same::same;
use mm_label::Label;
use std::process::Abort;

/// The counter of a label, its process, and its word.
type Worked = (u64, u32, u64);

/// Words of 44 bits for the counter and 20 for the process.
static WORDS: [Worked; 7] = [
    (0, 0, 0),
    (0, 3, 3),
    (1, 0, 1_048_576),
    (2, 1, 2_097_153),
    (2, 3, 2_097_155),
    (17_592_186_044_415, 65_535, 18_446_744_073_708_568_575),
    (17_592_186_044_415, 1_048_575, 18_446_744_073_709_551_615),
];

/// Words of 48 bits for the counter and 16 for the process.
static OLD_WORDS: [Worked; 6] = [
    (0, 0, 0),
    (0, 3, 3),
    (1, 0, 65_536),
    (2, 1, 131_073),
    (2, 3, 131_075),
    (17_592_186_044_415, 4_095, 1_152_921_504_606_785_535),
];

/// The first old word whose counter is too great for a label.
const FIRST_TOO_GREAT: u64 = 1_152_921_504_606_846_976;

/// Ends the test unless this is the label of these parts.
fn is_label(rt: &impl Abort, label: Option<Label>, counter: u64, process: u32) {
    let parts = label.map(|label| (label.counter(), label.process()));
    same(rt, parts, Some((counter, process)));
}

#[test]
fn labels_and_their_words(rt: HostRuntime) {
    for &(counter, process, word) in &WORDS {
        let label = Label::new(counter, process);
        same(&rt, label.map(|label| label.word()), Some(word));
        is_label(&rt, Some(Label::of_word(word)), counter, process);
    }
}

#[test]
fn labels_of_old_words(rt: HostRuntime) {
    for &(counter, process, word) in &OLD_WORDS {
        is_label(&rt, Label::of_old_word(word), counter, process);
    }
    same(&rt, Label::of_old_word(FIRST_TOO_GREAT), None);
}
