//! The end of a shared table.
ghost use Rattle.std.specs.Prelude.{◌≡◌, ◌≢◌, IfOk, IfErr, IfSome, IfNone};
ghost use Rattle.mm_counts.specs.Shares.{all_parts};

use crate::pass::{ALL_PARTS, Pass};
use crate::shared::SharedTable;
use mm_board::Name;
use mm_counts::Report;
use mm_table::Refusal;
use std::sync::ledger::Ledger;
use thiserror::Error;

/// The table was not closed, since the pass does not have all parts. It gives both back.
#[derive(Drop, Error)]
#[derive_where(Debug)]
#[error("the pass does not have all parts")]
pub struct CloseRefused<N: Name, A: Ledger, V: Ledger, B: Ledger> {
    /// `SharesMissing`.
    pub refusal: Refusal,
    pub table: SharedTable<N, A, V, B>,
    pub pass: Pass<N, A, V, B>,
}

impl<N: Name, A: Ledger, V: Ledger, B: Ledger> SharedTable<N, A, V, B> {
    /// Ends the table, and reports what it counted: that is what the pass has counted, once all passes are joined into it.
    ///
    /// Refused as `SharesMissing` exactly if the pass does not have all parts; the table and the pass are then given back, both as
    /// they were. It takes no lock, since nobody else has the table, and no memory. Constant time, apart from giving the table's
    /// memory back.
    pub fn close(self, pass: Pass<N, A, V, B>) -> Result<Report, CloseRefused<N, A, V, B>>
        ensures closed { IfOk result (λ report. (pass.parts ≡ all_parts) × (report.accepted ≡ pass.accepted) × (report.verdicts ≡ pass.verdicts) × (report.aborts ≡ pass.aborts)) }
        ensures refused { IfErr result (λ refused. (pass.parts ≢ all_parts) × (refused.refusal ≡ Refusal.SharesMissing) × (refused.table ≡ self) × (refused.pass ≡ pass)) }
    {
        if pass.parts() != ALL_PARTS {
            return Err(CloseRefused {
                refusal: Refusal::SharesMissing,
                table: self,
                pass,
            });
        }
        Ok(self.counted(pass))
    }

    /// Ends the table as `close` does. `None` exactly if `close` is refused; the table and the pass are gone then as well.
    ///
    /// It takes no lock and no memory. Constant time, apart from giving the table's memory back.
    pub fn into_report(self, pass: Pass<N, A, V, B>) -> Option<Report>
        ensures closed { IfSome result (λ report. (pass.parts ≡ all_parts) × (report.accepted ≡ pass.accepted) × (report.verdicts ≡ pass.verdicts) × (report.aborts ≡ pass.aborts)) }
        ensures refused { IfNone result (pass.parts ≢ all_parts) }
    {
        if pass.parts() == ALL_PARTS {
            return Some(self.counted(pass));
        }
        None
    }

    /// Returns what the table counted, by the pass that has all parts.
    fn counted(self, pass: Pass<N, A, V, B>) -> Report
        requires { pass.parts ≡ all_parts }
        ensures accepted { result.accepted ≡ pass.accepted }
        ensures verdicts { result.verdicts ≡ pass.verdicts }
        ensures aborts { result.aborts ≡ pass.aborts }
    {
        self.ledgers_have_all_parts();
        let mut pass = pass;
        let mut inside = self.into_inside();
        let report = inside.report(&mut pass);
        drop(inside);
        report
    }
}
