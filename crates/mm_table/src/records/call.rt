//! What every event tests first, and how an accepted one is counted.
ghost use Rattle.std.specs.Prelude.{◌≡◌, ◌<◌, ◌+◌, ◌^◌, IsTrue, None, Ok, Err, OnOk, IfOk, IfErr};
ghost use Rattle.mm_rules.specs.TableState.{wait_of, is_live, is_waiting, has_verdict};
ghost use Rattle.mm_rules.specs.Event.{allowed, resource_tests, counts_exhausted, key_tests, waiting_tests};

use super::Records;
use crate::{Key, Refusal};
use mm_limits::COUNT_LIMIT;
use mm_transactions::Transaction;

impl Records {
    pub(super) fn counts_exhausted(&self) -> bool
        ensures { result ≡ counts_exhausted self.now }
    {
        // Not `||`: if both are read, one test serves for both.
        (self.totals.accepted >= COUNT_LIMIT) | (self.totals.verdicts >= COUNT_LIMIT)
    }

    /// Returns what is known of the transaction of a key, after the tests of every call with a key, in their order.
    pub(super) fn may_call(&self, key: Key) -> Result<Transaction, Refusal>
        ensures refused { IfErr result (λ refusal. Err refusal ≡ allowed (key_tests self.now key)) }
        ensures allowed { OnOk result (Ok tt ≡ allowed (key_tests self.now key)) }
        ensures waits_for { IfOk result (λ transaction. transaction.waits_for ≡ wait_of self.now key.process) }
        ensures has_verdict { IfOk result (λ transaction. transaction.has_verdict ≡ has_verdict self.now key.process) }
        ensures live { OnOk result (IsTrue (is_live self.now key)) }
        ensures in_range { OnOk result (key.process < self.now.config.processes) }
    {
        if self.counts_exhausted() {
            return Err(Refusal::CountsExhausted);
        }
        let Some(transaction) = self.transactions.get(key) else {
            return Err(Refusal::Stale);
        };
        Ok(transaction)
    }

    /// The same, for every call that only a waiting transaction may make.
    pub(super) fn may_call_waiting(&self, key: Key) -> Result<Transaction, Refusal>
        ensures refused { IfErr result (λ refusal. Err refusal ≡ allowed (waiting_tests self.now key)) }
        ensures allowed { OnOk result (Ok tt ≡ allowed (waiting_tests self.now key)) }
        ensures waits { OnOk result (IsTrue (is_waiting self.now key.process)) }
        ensures has_verdict { IfOk result (λ transaction. transaction.has_verdict ≡ has_verdict self.now key.process) }
        ensures live { OnOk result (IsTrue (is_live self.now key)) }
        ensures in_range { OnOk result (key.process < self.now.config.processes) }
    {
        let transaction = self.may_call(key)?;
        if transaction.waits_for.is_none() {
            return Err(Refusal::NotWaiting);
        }
        Ok(transaction)
    }

    /// The tests of every call that only an active transaction may make of a resource, in their order.
    pub(super) fn may_use(&self, key: Key, resource: u32) -> Result<(), Refusal>
        ensures tests { result ≡ allowed (resource_tests self.now key resource) }
        ensures live { OnOk result (IsTrue (is_live self.now key)) }
        ensures in_range { OnOk result (key.process < self.now.config.processes) }
        ensures resource { OnOk result (resource < self.now.config.resources) }
        ensures active { OnOk result (wait_of self.now key.process ≡ None) }
    {
        let transaction = self.may_call(key)?;
        if resource >= self.config.resources {
            return Err(Refusal::NoResource);
        }
        if transaction.waits_for.is_some() {
            return Err(Refusal::Waiting);
        }
        Ok(())
    }

    /// Counts an accepted event.
    pub(super) fn count(&mut self)
        requires { self.old.totals.accepted < 2 ^ 62 }
        ensures { self.new ≡ record self.old { totals = record self.old.totals { accepted = self.old.totals.accepted + 1 } } }
    {
        self.totals.accepted += 1;
    }
}
