//! A waiting transaction whose label came round gets a verdict.
ghost use Rattle.std.specs.Prelude.{◌≡◌, ◌<◌, ◌^◌, IsTrue, ℕ, false, length};
ghost use Rattle.mm_bit_set.specs.BitSet.{has};
ghost use Rattle.mm_rules.specs.TableState.{is_live};
ghost use Rattle.mm_rules.specs.Change.{can_detect, detect};
ghost use Rattle.mm_rules.specs.Event.{Gives, detected};
ghost use Rattle.mm_rules.specs.Laws.{Laws};
ghost use Rattle.mm_settle_lemmas.specs.Steps.Detects.{IsDetected};
ghost use Rattle.mm_settle_lemmas.specs.Steps.Settling.{IsSettling};

use super::Records;
use crate::{Detected, Key, Refusal};
use mm_bit_set::BitSet;

impl Records {
    /// The waiting transaction gets a verdict if its own label came round to its holder. Constant time.
    pub fn detect(&mut self, key: Key) -> Result<Detected, Refusal>
        ensures { Gives (detected self.old key) result self.new }
    {
        let transaction = self.may_call_waiting(key)?;
        let answer = if transaction.has_verdict {
            Detected::Standing
        } else if self.can_detect(key) {
            let label = self.labels.of(key.process).private;
            self.convict(key);
            Detected::Deadlock(label)
        } else {
            Detected::Clear
        };
        self.count();
        Ok(answer)
    }

    /// Returns whether a live transaction has no verdict yet, and both its labels and its holder's public one are one label.
    pub(super) fn can_detect(&self, key: Key) -> bool
        requires { IsTrue (is_live self.now key) }
        ensures { result ≡ can_detect self.now key.process }
    {
        let labels = self.labels.of(key.process);
        if labels.private != labels.public || self.has_verdict(key) {
            return false;
        }
        match self.holder_label(key) {
            Some(shown) => labels.public == shown,
            None => false,
        }
    }

    /// Gives a verdict to a live transaction that can detect, and counts it.
    pub(super) fn convict(&mut self, key: Key)
        requires live { IsTrue (is_live self.old key) }
        requires can { IsTrue (can_detect self.old key.process) }
        requires count { self.old.totals.verdicts < u64.MAX }
        ensures { self.new ≡ detect self.old key.process }
    {
        self.transactions.set_verdict(key, true);
        self.totals.verdicts += 1;
    }

    /// `process` gets a verdict if its label came round to its holder, and is then added to the touched. Returns whether it did.
    fn detect_at(&mut self, process: u32, touched: &mut BitSet) -> bool
        requires laws { Laws self.old }
        requires count { self.old.totals.verdicts < u64.MAX }
        requires touched { length touched.old ≡ self.old.config.processes }
        ensures convicted { result ≡ can_detect self.old process }
        ensures state { self.new ≡ detect self.old process }
        ensures touched { IsSettling self.old self.new touched.old touched.new }
    {
        let Some(key) = self.tenant(process) else {
            return false;
        };
        let can = self.can_detect(key);
        if can {
            self.convict(key);
            touched.add(process);
        }
        can
    }

    /// Each that is left to check detects if it can, in ascending order. Returns how many verdicts are new.
    pub(super) fn detect_all(&mut self, checks: &mut BitSet, touched: &mut BitSet) -> u64
        requires laws { Laws self.old }
        requires sized { length checks.old ≡ self.old.config.processes }
        requires detects { (k : ℕ) → has checks.old k ≡ false → can_detect self.old k ≡ false }
        requires count { self.old.totals.verdicts < 2 ^ 62 }
        requires touched { length touched.old ≡ self.old.config.processes }
        ensures detected { IsDetected self.old result checks.new self.new }
        ensures touched { IsSettling self.old self.new touched.old touched.new }
    {
        let mut verdicts = 0;
        let mut from = 0;
        while let Some(process) = checks.take_next(from) {
            if self.detect_at(process, touched) {
                verdicts += 1;
            }
            from = process + 1;
        }
        verdicts
    }
}
