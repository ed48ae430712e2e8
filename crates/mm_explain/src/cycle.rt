//! The cycle of waits that a transaction is on.

use crate::explanation::Explanation;
use crate::sheet::{Sheet, Value};
use mm_table::{Key, Label, Table};

impl Explanation {
    /// Adds the cycle of waits that the transaction is on, and which private label is the greatest on it; nothing if it is on none. `lead`
    /// is the text that begins the line, with a place for the key.
    pub fn explain_cycle(&mut self, table: &Table, key: Key, lead: &str) {
        if !self.view.has_cycle(table, key.process) {
            return;
        }
        self.sheet.begin(lead, &[Value::Key(key)]);
        explain_members(&mut self.sheet, table, &self.view.members);
        explain_greatest(&mut self.sheet, table, &self.view.members);
    }
}

fn explain_members(sheet: &mut Sheet, table: &Table, members: &[u32]) {
    for member in members {
        if let Some(member) = table.tenant(*member) {
            sheet.fill(" -> {}", &[Value::Key(member)]);
        }
    }
    sheet.newline();
}

fn explain_greatest(sheet: &mut Sheet, table: &Table, members: &[u32]) {
    if let Some((owner, label)) = greatest_private(table, members) {
        sheet.line(
            "the greatest private label on it is {}, that of {}",
            &[Value::Label(label), Value::Key(owner)],
        );
    }
}

/// Returns the greatest private label of these processes, and whose it is.
fn greatest_private(table: &Table, members: &[u32]) -> Option<(Key, Label)> {
    let mut greatest = None;
    for member in members {
        greatest = greater(greatest, private_of(table, *member));
    }
    greatest
}

/// Returns the private label of this process, and the key of its transaction.
fn private_of(table: &Table, process: u32) -> Option<(Key, Label)> {
    let key = table.tenant(process)?;
    let state = table.state(key).ok()?;
    Some((key, state.private))
}

/// Returns the one with the greater label.
fn greater(first: Option<(Key, Label)>, second: Option<(Key, Label)>) -> Option<(Key, Label)> {
    let (Some((_, one)), Some((_, other))) = (first, second) else {
        return first.or(second);
    };
    if one < other { second } else { first }
}
