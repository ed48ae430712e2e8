//! A wait that is taken back.
ghost use Rattle.std.specs.Prelude.{◌≡◌, ℕ, [], Err};
ghost use Rattle.mm_rules.specs.TableState.{has_verdict};
ghost use Rattle.mm_rules.specs.Laws.{AtRest};
ghost use Rattle.mm_rules.specs.Withdraw.{IsBehindVictim};
ghost use Rattle.mm_settled.specs.Calls.{MakesWithdrawal};
ghost use Rattle.mm_settled.specs.private.Lists.{Fits};

use crate::parts::Parts;
use crate::settle::{come_to_rest, has_room};
use crate::{Key, Refusal};

impl Parts {
    /// Takes back the wait of the key, and settles the table if another process that waits got a new label by that.
    pub fn withdraw(&mut self, key: Key) -> Result<(), Refusal>
        requires rest { AtRest self.old.table }
        requires fits { Fits self.old.table.config self.old.lists }
        ensures makes { MakesWithdrawal key self.old.table result self.new.table }
        ensures others { (v : ℕ) → has_verdict self.new.table v ≡ has_verdict self.old.table v }
        ensures carried { (result ≡ Err Refusal.Carried) → IsBehindVictim self.old.table key.process }
        ensures granted { self.new.lists.granted.items ≡ [] }
        ensures config { self.new.table.config ≡ self.old.table.config }
        ensures rest { AtRest self.new.table }
        ensures fits { Fits self.new.table.config self.new.lists }
    {
        self.table.keeps_laws();
        self.lists.granted.clear();
        if !has_room(&self.table) {
            return Err(Refusal::CountsExhausted);
        }
        self.table.withdraw_waking(key, &mut self.lists.woken)?;
        come_to_rest(&mut self.table, &self.lists.woken);
        Ok(())
    }
}
