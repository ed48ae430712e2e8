//! The end of any live transaction.
ghost use Rattle.std.specs.Prelude.{◌≡◌, ◌⊎◌, Ok, false, IfErr, OnOk, OnErr};
ghost use Rattle.mm_rules.specs.TableState.{is_live};
ghost use Rattle.mm_manager.specs.Permit.{may_cancel};
ghost use Rattle.mm_manager.specs.private.Handed.{EndsWaiting, HandsAllOver, IsSound, IsUntouched};

use crate::cancel::take_back;
use crate::named::NamedTable;
use crate::{Key, Refusal};
use mm_table::Mode;

impl NamedTable {
    /// Ends any live transaction. One that waits takes back its wait first.
    #[inline(never)]
    pub fn abort(&mut self, key: Key) -> Result<(), Refusal>
        requires { IsSound self.old }
        ensures ends { OnOk result (HandsAllOver key self.old self.new ⊎ EndsWaiting key self.old self.new) }
        ensures untouched { OnErr result (IsUntouched self.old self.new) }
        ensures refused { IfErr result (λ refusal. (is_live self.old.table.table key ≡ false) × (refusal ≡ Refusal.NoTransaction)) }
        ensures sound { IsSound self.new }
    {
        self.table.is_at_rest();
        let Ok(state) = self.table.table().state(key) else {
            return Err(Refusal::NoTransaction);
        };
        match state.mode {
            Mode::Active => self.finish(key),
            Mode::Waiting(_) | Mode::Convicted(_) => self.end_waiting(key),
        }
        Ok(())
    }

    /// Ends a transaction that waits.
    fn end_waiting(&mut self, key: Key)
        requires sound { IsSound self.old }
        requires may { may_cancel self.old.table.table key ≡ Ok tt }
        ensures ends { EndsWaiting key self.old self.new }
    {
        self.table.is_at_rest();
        take_back(&mut self.table, key);
        self.table.is_at_rest();
        self.finish(key);
    }
}
