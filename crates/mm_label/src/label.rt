//! The label, its parts, its word and its order.
ghost use Rattle.std.specs.Prelude.{◌≡◌, ◌<◌, ◌≤◌, Some, IfSome, SomeIff};
ghost use Rattle.std.specs.Cmp.{partial_order_from_own_ties};
ghost use Rattle.std.specs.Cmp.Rules.{comparing, hashing};
ghost use Rattle.std.specs.Hash as fed;
ghost use Rattle.std.specs.Ordering.{as_partial_cmp};
ghost use Rattle.std.proofs.Common.{rules};
ghost use Rattle.mm_label.specs.Label.{label_eq, label_cmp, label_text, fresh_label, counter_range, process_range, IsInRange, word_of, label_of, label_of_old};

use std::cmp::Ordering;
use std::fmt;
use std::hash::{Hash, Hasher};
use std::marker::Model;

/// Each label's counter is below this.
pub const COUNTER_RANGE: u64 = 1 << 44;

/// Each label's process is below this.
pub const PROCESS_RANGE: u32 = 1 << 20;

/// The process of a word of the former packing is below this.
const OLD_PROCESS_RANGE: u64 = 1 << 16;

/// A counter and a process, kept in one word.
#[derive(Clone, Copy, Debug)]
pub struct Label {
    word: u64,
}

impl Model for Label {
    ghost use Rattle.std.specs.Prelude.{◌^◌, ◌<◌};
    ghost use Rattle.std.proofs.Common.{ap, arith};
    ghost use Rattle.mm_label.specs.Label.{Label as Pair, word_of, label_of};

    ghost Value = { Pair };

    ghost view = { λ l. label_of l.word };

    ghost invariant = { λ l. l.word < 2 ^ 64 };

    ghost inverse = { λ pair. record { word = word_of pair } };

    ghost inverse_ok = { λ l in_range. ap (λ w. record { word = w }) (Prim.omega arith) };
}

impl Label {
    /// Returns the label of these two parts, in constant time.
    ///
    /// `None` exactly if the counter is `COUNTER_RANGE` or more, or the process `PROCESS_RANGE` or more.
    pub fn new(counter: u64, process: u32) -> Option<Self>
        ensures label { SomeIff result ((counter < counter_range) × (process < process_range))
            (record { counter = counter; process = process }) }
        ensures in_range { IfSome result IsInRange }
    {
        if counter >= COUNTER_RANGE || process >= PROCESS_RANGE {
            return None;
        }
        Some(Label {
            word: counter * u64::from(PROCESS_RANGE) + u64::from(process),
        })
    }

    /// Returns the counter, in constant time.
    pub fn counter(self) -> u64
        ensures value { result ≡ self.counter }
        ensures in_range { result < counter_range }
    {
        self.word / u64::from(PROCESS_RANGE)
    }

    /// Returns the process, in constant time.
    pub fn process(self) -> u32
        ensures value { result ≡ self.process }
        ensures in_range { result < process_range }
    {
        (self.word % u64::from(PROCESS_RANGE)) as u32
    }

    /// Returns the word that keeps this label, in constant time. `of_word` gives the label back.
    pub fn word(self) -> u64
        ensures value { result ≡ word_of self }
        ensures given_back { label_of result ≡ self }
        ensures in_range { IsInRange self }
    {
        self.word
    }

    /// Returns the label that this word keeps, in constant time. Each word keeps one, and `word` gives the word back.
    pub fn of_word(word: u64) -> Self
        ensures value { result ≡ label_of word }
        ensures given_back { word_of result ≡ word }
        ensures in_range { IsInRange result }
    {
        Label { word }
    }

    /// Returns the label that this word keeps by the former packing, of 48 bits of counter and 16 of process, in constant time.
    ///
    /// `None` exactly if its counter is `COUNTER_RANGE` or more. A label is written as a word of today's packing alone.
    ///
    /// Kept for the published interface: no crate above calls it.
    pub fn of_old_word(word: u64) -> Option<Self>
        ensures label { let label = label_of_old word
            in SomeIff result (label.counter < counter_range) label }
        ensures in_range { IfSome result IsInRange }
    {
        Label::new(word / OLD_PROCESS_RANGE, (word % OLD_PROCESS_RANGE) as u32)
    }
}

impl PartialEq for Label {
    ghost eq = { label_eq };

    ghost laws = { Prim.search (comparing, rules) };

    fn eq(&self, other: &Label) -> bool {
        self.word == other.word
    }
}

impl Eq for Label {
    ghost laws = { Prim.search (comparing, rules) };
}

impl PartialOrd for Label {
    ghost partial_cmp = { as_partial_cmp label_cmp };

    ghost laws = { partial_order_from_own_ties (Prim.search (comparing, rules)) (Prim.search (comparing, rules)) };

    fn partial_cmp(&self, other: &Label) -> Option<Ordering> {
        Some(self.cmp(other))
    }
}

impl Ord for Label {
    ghost cmp = { label_cmp };

    ghost total = { Prim.search (comparing, rules) };

    ghost matches_partial_cmp = { Prim.search (comparing, rules) };

    ghost matches_eq = { Prim.search (comparing, rules) };

    fn cmp(&self, other: &Label) -> Ordering {
        self.word.cmp(&other.word)
    }
}

impl Hash for Label {
    ghost hash_input = { λ l. fed.u64 (word_of l) };

    ghost respects_eq = { Prim.search (hashing, rules) };

    fn hash<H: Hasher>(&self, state: &mut H) {
        self.word.hash(state);
    }
}

/// Writes the counter, a dot and the process, both in decimal.
impl fmt::Display for Label {
    ghost output = { λ l. Some (label_text l) };

    fn fmt<W: fmt::Write>(&self, f: &mut fmt::Formatter<W>) -> fmt::Result {
        write!(f, "{}.{}", self.counter(), self.process())
    }
}

/// Returns the label that `process` gets if its public label is `own` and it comes to wait for one that shows `holder`, in constant time.
///
/// Its counter is one above the greater of theirs. `None` exactly if that is above `limit`. `own` may carry another process's number.
pub fn fresh(own: Label, holder: Label, process: u32, limit: u64) -> Option<Label>
    requires limit_in_range { limit < counter_range }
    requires process_in_range { process < process_range }
    ensures label { let label = fresh_label own holder process
        in SomeIff result (label.counter ≤ limit) label }
    ensures in_range { IfSome result IsInRange }
{
    if own.counter().max(holder.counter()) >= limit {
        return None;
    }
    Some(fresh_in_range(own, holder, process))
}

/// `fresh`, if the caller knows that the new counter is in range, and so without a test. Constant time.
#[inline]
pub fn fresh_in_range(own: Label, holder: Label, process: u32) -> Label
    requires process_in_range { process < process_range }
    requires counter_in_range { (fresh_label own holder process).counter < counter_range }
    ensures label { result ≡ fresh_label own holder process }
    ensures in_range { IsInRange result }
{
    let highest = own.counter().max(holder.counter());
    Label {
        word: (highest + 1) * u64::from(PROCESS_RANGE) + u64::from(process),
    }
}
