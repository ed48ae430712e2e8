//! A waiting transaction without a verdict takes back its wait, whatever label it shows.
ghost use Rattle.std.specs.Prelude.{◌≡◌, ◌<◌, ◌&&◌, true, false, Ok, Err, IsTrue, OnOk, IfOk, IfErr, IfNone, IfSome, MatchOption, length};
ghost use Rattle.mm_label.specs.Label.{label_eq};
ghost use Rattle.mm_rules.specs.TableState.{is_live, is_waiting, private_of};
ghost use Rattle.mm_rules.specs.Event.{Gives, allowed};
ghost use Rattle.mm_rules.specs.Laws.{Laws};
ghost use Rattle.mm_rules.specs.Withdraw.{renew, renew_fits, shown_process, shows_waiting, withdraw_tests, withdrawn};
ghost use Rattle.mm_settle_lemmas.specs.Touched.{Touches};
ghost use Rattle.mm_settle_lemmas.specs.Steps.Added.{Adds};
ghost use Rattle.mm_table.specs.private.Renewal.{renewed, IsRenewal, let_go};

use super::Records;
use crate::{Key, Refusal};
use mm_bit_set::BitSet;
use mm_label::Label;

/// A new label for a process that waits.
#[derive(Clone, Copy)]
pub struct Renewal {
    pub process: u32,
    pub label: Label,
}

impl Records {
    /// Takes back the wait of a transaction without a verdict. If it shows the label with which another transaction waits, that one
    /// gets a new label. Both are added to the touched. Constant time.
    pub fn withdraw(&mut self, key: Key, touched: &mut BitSet) -> Result<(), Refusal>
        requires laws { Laws self.old }
        requires sized { length touched.old ≡ self.old.config.processes }
        ensures step { Gives (withdrawn self.old key) result self.new }
        ensures touched { Touches self.old self.new touched.old touched.new }
    {
        let renewal = self.may_withdraw(key)?;
        self.renew(renewal, touched);
        self.activate(key);
        touched.add(key.process);
        self.count();
        Ok(())
    }

    /// Gives the new label, if there is one, and adds its process to the touched.
    fn renew(&mut self, renewal: Option<Renewal>, touched: &mut BitSet)
        requires renewal { IfSome renewal (IsRenewal self.old) }
        requires sized { length touched.old ≡ self.old.config.processes }
        ensures state { self.new ≡ renewed self.old renewal }
        ensures touched { MatchOption renewal (touched.new ≡ touched.old) (λ r. Adds r.process touched.old touched.new) }
    {
        if let Some(renewal) = renewal {
            self.relabel(renewal.process, renewal.label);
            touched.add(renewal.process);
        }
    }

    /// The tests of `withdraw`, in their order; and the new label that another one gets.
    fn may_withdraw(&self, key: Key) -> Result<Option<Renewal>, Refusal>
        ensures refused { IfErr result (λ refusal. Err refusal ≡ allowed (withdraw_tests self.now key)) }
        ensures allowed { OnOk result (Ok tt ≡ allowed (withdraw_tests self.now key)) }
        ensures state { IfOk result (λ renewal. renewed self.now renewal ≡ let_go self.now key.process) }
        ensures renewal { IfOk result (λ renewal. IfSome renewal (IsRenewal self.now)) }
        ensures live { OnOk result (IsTrue (is_live self.now key)) }
        ensures in_range { OnOk result (key.process < self.now.config.processes) }
        ensures waiting { OnOk result (IsTrue (is_waiting self.now key.process)) }
    {
        let transaction = self.may_call_waiting(key)?;
        if transaction.has_verdict {
            return Err(Refusal::UnderVerdict);
        }
        let Some(carrier) = self.carrier(key.process) else {
            return Ok(None);
        };
        if self.has_verdict(carrier) {
            return Err(Refusal::Carried);
        }
        self.renewal(carrier)
    }

    /// Returns the new label of a live transaction that waits. Refused past the label limit.
    fn renewal(&self, key: Key) -> Result<Option<Renewal>, Refusal>
        requires live { IsTrue (is_live self.now key) }
        requires in_range { key.process < self.now.config.processes }
        ensures refused { IfErr result (λ refusal. (refusal ≡ Refusal.LabelsExhausted) × (renew_fits self.now key.process ≡ false)) }
        ensures allowed { OnOk result (renew_fits self.now key.process ≡ true) }
        ensures state { IfOk result (λ renewal. renewed self.now renewal ≡ renew self.now key.process) }
        ensures renewal { IfOk result (λ renewal. IfSome renewal (IsRenewal self.now)) }
    {
        let Some(holder) = self.holder(key) else {
            return Ok(None);
        };
        let Some(label) = self.label_against(key.process, holder) else {
            return Err(Refusal::LabelsExhausted);
        };
        Ok(Some(Renewal {
            process: key.process,
            label,
        }))
    }

    /// Returns the other transaction that waits with the label that a process shows.
    fn carrier(&self, process: u32) -> Option<Key>
        requires { process < self.now.config.processes }
        ensures none { IfNone result (shows_waiting self.now process ≡ false) }
        ensures some { IfSome result (λ carrier. (shows_waiting self.now process ≡ true) × (carrier.process ≡ shown_process self.now process)) }
        ensures live { IfSome result (λ carrier. IsTrue (is_live self.now carrier)) }
        ensures in_range { IfSome result (λ carrier. carrier.process < self.now.config.processes) }
    {
        let shown = self.labels.public(process);
        let carrier = self.tenant(shown.process())?;
        if carrier.process == process || !self.waits_with(carrier, shown) {
            return None;
        }
        Some(carrier)
    }

    /// Returns whether a live transaction waits with this private label.
    fn waits_with(&self, key: Key, label: Label) -> bool
        requires live { IsTrue (is_live self.now key) }
        requires in_range { key.process < self.now.config.processes }
        ensures { result ≡ (is_waiting self.now key.process && label_eq (private_of self.now key.process) label) }
    {
        self.transactions.get(key).unwrap().waits_for.is_some()
            && self.labels.of(key.process).private == label
    }
}
