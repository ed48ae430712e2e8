//! A resource is granted, or its owner is waited for with a new label.
ghost use Rattle.std.specs.Prelude.{◌≡◌, ◌<◌, ◌+◌, ◌^◌, ◌∷◌, ◌++◌, [], List, Bool, Ok, IsTrue, None, length, MatchOption, true, false};
ghost use Rattle.mm_rules.specs.TableState.{wait_of, is_live, owner_of};
ghost use Rattle.mm_rules.specs.Change.{block_fits, label_against};
ghost use Rattle.mm_rules.specs.Event.{Gives, acquired, allowed, resource_tests};
ghost use Rattle.mm_rules.specs.declared.reply.Acquired.TheVariants as Acquired;
ghost use Rattle.mm_rules.specs.Laws.{Laws};
ghost use Rattle.mm_settle_lemmas.specs.Touched.{Touches};
ghost use Rattle.mm_settle_lemmas.specs.Steps.Added.{Adds};
ghost use Rattle.mm_table.specs.private.LabelLimit.{waiting};

use super::Records;
use crate::{Acquired, Key, Refusal};
use mm_bit_set::BitSet;
use mm_label::Label;

impl Records {
    /// The key takes a free resource, or waits for its owner and is then added to the touched. Constant time.
    #[inline(always)]
    pub fn acquire(
        &mut self,
        key: Key,
        resource: u32,
        touched: &mut BitSet,
    ) -> Result<Acquired, Refusal>
        requires laws { Laws self.old }
        requires sized { length touched.old ≡ self.old.config.processes }
        ensures step { Gives (acquired self.old key resource) result self.new }
        ensures touched { Touches self.old self.new touched.old touched.new }
    {
        self.may_use(key, resource)?;
        let Some(holder) = self.owner_of(resource) else {
            self.grant(key, resource);
            self.count();
            return Ok(Acquired::Granted);
        };
        if holder.process == key.process {
            return Err(Refusal::AlreadyOwns);
        }
        let Some(label) = self.wait(key, resource, holder.process, touched) else {
            return Err(Refusal::LabelsExhausted);
        };
        Ok(Acquired::Waits { holder, label })
    }

    /// `acquire` of a resource that nobody owns, by a key that may use it: so nothing is tested. Constant time.
    #[inline(always)]
    pub fn grant_free(&mut self, key: Key, resource: u32)
        requires laws { Laws self.old }
        requires passed { allowed (resource_tests self.old key resource) ≡ Ok tt }
        requires process { key.process < self.old.config.processes }
        requires resource { resource < self.old.config.resources }
        requires count { self.old.totals.accepted < 2 ^ 62 }
        requires free { owner_of self.old resource ≡ None }
        ensures step { Gives (acquired self.old key resource) (Ok Acquired.Granted) self.new }
        ensures touched { (set : List Bool) → Touches self.old self.new set set }
    {
        self.grant(key, resource);
        self.count();
    }

    /// `acquire` of a resource that another process, `holder`, owns. Returns the label by which the transaction waits; `None` past the
    /// label limit, and then nothing changes. It is not inlined, so that the code of a grant is short, and its result fits in registers.
    #[inline(never)]
    fn wait(&mut self, key: Key, resource: u32, holder: u32, touched: &mut BitSet) -> Option<Label>
        requires live { IsTrue (is_live self.old key) }
        requires process { key.process < self.old.config.processes }
        requires holder { holder < self.old.config.processes }
        requires resource { resource < self.old.config.resources }
        requires idle { wait_of self.old key.process ≡ None }
        requires count { self.old.totals.accepted < 2 ^ 62 }
        requires sized { length touched.old ≡ self.old.config.processes }
        ensures state { MatchOption result
            ((block_fits self.old key.process holder ≡ false) × (self.new ≡ self.old))
            (λ label. (block_fits self.old key.process holder ≡ true) × (label ≡ label_against self.old key.process holder) × (self.new ≡ waiting self.old key resource label)) }
        ensures touched { MatchOption result (touched.new ≡ touched.old) (λ _. Adds key.process touched.old touched.new) }
    {
        let label = self.label_against(key.process, holder)?;
        self.relabel(key.process, label);
        self.count_wait(key, resource);
        touched.add(key.process);
        Some(label)
    }

    /// Counts an accepted event by which a live transaction that did not wait waits for a resource, last in its queue. The count is
    /// the number of its arrival.
    fn count_wait(&mut self, key: Key, resource: u32)
        requires live { IsTrue (is_live self.old key) }
        requires resource { resource < self.old.config.resources }
        requires idle { wait_of self.old key.process ≡ None }
        requires count { self.old.totals.accepted < 2 ^ 62 }
        ensures { self.new ≡ record self.old {
          waits = self.old.waits ++ record { key = key; resource = resource } ∷ [];
          totals = record self.old.totals { accepted = self.old.totals.accepted + 1 };
        } }
    {
        self.totals.accepted += 1;
        self.transactions
            .start_wait(key, resource, self.totals.accepted);
    }
}
