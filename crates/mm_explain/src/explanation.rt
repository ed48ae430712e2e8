//! The explanation of a script as it grows.

use crate::sheet::Sheet;
use crate::view::{View, standing_of};
use mm_script::{Call, Reply};
use mm_table::Table;
use std::alloc::{AllocError, Global};

/// What is explained of a script and not yet written, and what its table showed before the line.
///
/// `calls` explains what a call came to, `changes` what it changed of transactions, and `cycle` the cycle that it closed.
#[derive(Drop)]
pub struct Explanation {
    alloc: Global,
    /// What is not yet written.
    pub sheet: Sheet,
    /// What the table showed before the line.
    pub view: View,
}

impl Explanation {
    /// Returns an explanation of no line.
    pub fn open(alloc: Global, width: usize, has_colors: bool) -> Result<Explanation, AllocError> {
        let sheet = Sheet::open(alloc, width, has_colors)?;
        Ok(Explanation {
            alloc,
            sheet,
            view: View::of_no_table(alloc),
        })
    }

    /// Takes what the table shows into the view, in place of what it had.
    pub fn look(&mut self, table: &Table) -> Result<(), AllocError> {
        self.view.turn_to(self.alloc, table.config())?;
        for process in 0..table.config().processes {
            self.view.keep(process, standing_of(table, process))?;
        }
        Ok(())
    }

    /// Explains a call that the table accepted.
    pub fn explain_accepted(
        &mut self,
        table: &Table,
        call: Call,
        reply: &Reply,
    ) -> Result<(), AllocError> {
        self.view.turn_to(self.alloc, table.config())?;
        self.explain_hand_over(table, call);
        self.explain_changes(table)?;
        self.explain_call(table, call, reply);
        Ok(())
    }
}
