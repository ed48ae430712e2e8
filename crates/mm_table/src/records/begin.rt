//! A transaction begins.
ghost use Rattle.std.specs.Prelude.{◌≡◌, ◌≢◌, [], true, drop, slice_set, slice_index, MatchResult};
ghost use Rattle.mm_rules.specs.TableState.{key_of};
ghost use Rattle.mm_rules.specs.Event.{Gives, begun};

use super::Records;
use crate::{Key, Refusal};

impl Records {
    /// A new transaction in the first free process. Constant time.
    #[inline(always)]
    pub fn begin(&mut self) -> Result<Key, Refusal>
        ensures { Gives (begun self.old) result self.new }
    {
        if self.counts_exhausted() {
            return Err(Refusal::CountsExhausted);
        }
        let key = self.give_process()?;
        self.count();
        Ok(key)
    }

    /// Gives the first free process a live key. Refused as `Full` if there is none.
    fn give_process(&mut self) -> Result<Key, Refusal>
        ensures { MatchResult result
            (λ key. (self.old.free ≢ []) × (key ≡ key_of self.old (slice_index self.old.free 0)) × (self.new ≡ record self.old {
              free = drop 1 self.old.free;
              live = slice_set self.old.live (slice_index self.old.free 0) true;
            }))
            (λ refusal. (self.old.free ≡ []) × (refusal ≡ Refusal.Full) × (self.new ≡ self.old)) }
    {
        self.transactions.begin().ok_or(Refusal::Full)
    }
}
