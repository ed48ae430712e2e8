//! What a line changed: the waits, which labels rose, and who was convicted.

use crate::explanation::Explanation;
use crate::sheet::{Paint, Sheet, Value};
use crate::view::{Standing, standing_of};
use mm_table::Table;
use std::alloc::AllocError;

impl Explanation {
    /// Adds what is shown of each transaction now and was not before, and keeps it in the view.
    pub fn explain_changes(&mut self, table: &Table) -> Result<(), AllocError> {
        for process in 0..table.config().processes {
            let now = standing_of(table, process);
            if now.is_none() && process as usize >= self.view.used() {
                return Ok(());
            }
            let before = self.view.standing(process);
            self.view.keep(process, now)?;
            self.explain_change(table, before, now);
        }
        Ok(())
    }

    /// Adds what is shown of a process now and was not before.
    fn explain_change(&mut self, table: &Table, before: Option<Standing>, now: Option<Standing>) {
        match (before, now) {
            (None, Some(now)) => explain_begun(&mut self.sheet, &now),
            (Some(before), None) => self.sheet.line(
                "{} ends, and its process is free",
                &[Value::Key(before.key)],
            ),
            (Some(before), Some(now)) => self.explain_kept(table, &before, &now),
            (None, None) => {}
        }
    }

    /// Adds what is shown of a transaction now and was not before.
    fn explain_kept(&mut self, table: &Table, before: &Standing, now: &Standing) {
        explain_wait(&mut self.sheet, before, now);
        explain_labels(&mut self.sheet, before, now);
        if now.is_convicted() && !before.is_convicted() {
            explain_verdict(&mut self.sheet, now);
            self.explain_cycle(table, now.key, "so it has gone round the cycle {}");
        }
    }
}

fn explain_begun(sheet: &mut Sheet, now: &Standing) {
    sheet.line(
        "{} begins, with the labels of its process: private {}, public {}",
        &[
            Value::Key(now.key),
            Value::Label(now.state.private),
            Value::Label(now.state.public),
        ],
    );
}

/// Adds for what the transaction waits now, if that is another wait than before.
fn explain_wait(sheet: &mut Sheet, before: &Standing, now: &Standing) {
    if before.wait == now.wait {
        return;
    }
    let Some(wait) = now.wait else {
        sheet.line("{} waits no longer", &[Value::Key(now.key)]);
        return;
    };
    let text = if before.wait.is_none() {
        "{} waits for resource {}, which {} owns"
    } else {
        "{} waits on for resource {}, which {} owns now"
    };
    sheet.line(
        text,
        &[
            Value::Key(now.key),
            Value::Number(wait.resource),
            Value::Key(wait.holder),
        ],
    );
}

/// Adds the labels of the transaction that are others than before. A fresh label is its private and its public one; one that is passed on
/// comes from its holder, and is its public one.
fn explain_labels(sheet: &mut Sheet, before: &Standing, now: &Standing) {
    let (old, new) = (before.state, now.state);
    if new.private != old.private {
        sheet.line(
            "{} makes the label {}, private and public (before: private {}, public {})",
            &[
                Value::Key(now.key),
                Value::Label(new.private),
                Value::Label(old.private),
                Value::Label(old.public),
            ],
        );
    } else if new.public != old.public {
        explain_raise(sheet, before, now);
    }
}

/// Adds the holder from which the transaction has its public label.
fn explain_raise(sheet: &mut Sheet, before: &Standing, now: &Standing) {
    sheet.begin(
        "{} raises its public label from {} to {}",
        &[
            Value::Key(now.key),
            Value::Label(before.state.public),
            Value::Label(now.state.public),
        ],
    );
    add_holder(sheet, ", the public label of its holder {}", now);
    sheet.newline();
}

/// Adds why the transaction was convicted.
fn explain_verdict(sheet: &mut Sheet, now: &Standing) {
    sheet.paint(Paint::Alarm);
    sheet.begin(
        "{} is convicted: {} is its private label, its public one",
        &[Value::Key(now.key), Value::Label(now.state.private)],
    );
    add_holder(sheet, ", and that of {}", now);
    sheet.paint(Paint::Plain);
    sheet.newline();
}

/// Adds this text with the holder for which the transaction waits, if it waits.
fn add_holder(sheet: &mut Sheet, text: &str, now: &Standing) {
    if let Some(wait) = now.wait {
        sheet.fill(text, &[Value::Key(wait.holder)]);
    }
}
