//! How a caller cites a law of mm_rules: after a settle the table is at rest.
ghost use Rattle.std.specs.Prelude.{◌≤◌, IfOk, OnOk};
ghost use Rattle.mm_rules.specs.Event.{Step, Settle};
ghost use Rattle.mm_rules.specs.Laws.{AtRest, most_raises};

use mm_table::laws::settle_gives_rest;
use mm_table::{Refusal, Settled, Table};

/// Settles the table. It is then at rest: no transmit and no detect has anything left to do, and each cycle of waits has one verdict.
/// It raised at most waiting transactions times processes labels.
///
/// Refused as `Table::settle` is. It costs what `Table::settle` costs: the two other calls do nothing.
pub fn settle_to_rest(table: &mut Table) -> Result<Settled, Refusal>
    ensures step { Step Settle table.old result table.new }
    ensures rest { OnOk result (AtRest table.new) }
    ensures raises { IfOk result (λ answer. answer.raises ≤ most_raises table.old) }
{
    table.keeps_laws();
    settle_gives_rest();
    table.settle()
}
