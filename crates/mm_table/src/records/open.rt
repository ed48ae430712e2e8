//! The opening.
ghost use Rattle.std.specs.Prelude.{◌≡◌, IfOk, IfErr};
ghost use Rattle.mm_rules.specs.TableState.{IsWide, opening};

use super::Records;
use crate::labels::Labels;
use crate::{Config, Refusal, Totals};
use mm_tagged_lists::CountedLists;
use mm_transactions::Transactions;
use std::alloc::Global;

impl Records {
    /// The opening of this configuration, whose numbers are in range. Takes memory once for each part.
    pub fn open(alloc: Global, config: Config) -> Result<Records, Refusal>
        requires { IsWide config }
        ensures opened { IfOk result (λ records. records ≡ opening config) }
        ensures memory { IfErr result (λ refusal. refusal ≡ Refusal.Memory) }
    {
        let Ok(transactions) = Transactions::new(
            alloc,
            config.processes,
            config.resources,
            config.generation_limit,
        ) else {
            return Err(Refusal::Memory);
        };
        let Ok(labels) = Labels::open(alloc, config.processes) else {
            return Err(Refusal::Memory);
        };
        let Ok(owned) = CountedLists::new(alloc, config.processes, config.resources) else {
            return Err(Refusal::Memory);
        };
        Ok(Records {
            config,
            transactions,
            labels,
            owned,
            totals: Totals {
                accepted: 0,
                verdicts: 0,
                aborts: 0,
            },
        })
    }
}
