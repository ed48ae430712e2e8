//! What an accepted call came to, beside what it changed of transactions.

use crate::explanation::Explanation;
use crate::sheet::{INDENT, Sheet, Value};
use mm_graph::edge_of;
use mm_script::{Call, Reply};
use mm_table::{Acquired, Detected, Key, Label, Mode, Refusal, Settled, State, Table, Transmitted};

impl Explanation {
    /// Adds the new owner of each resource that the call handed over.
    pub fn explain_hand_over(&mut self, table: &Table, call: Call) {
        match call {
            Call::Release { resource, .. } => explain_owner(&mut self.sheet, table, resource),
            Call::Finish(_) | Call::Abort(_) => {
                explain_owners(&mut self.sheet, table, &self.view.owned)
            }
            _ => {}
        }
    }

    /// Adds what else a call came to.
    pub fn explain_call(&mut self, table: &Table, call: Call, reply: &Reply) {
        match call {
            Call::Acquire { key, resource } => match reply {
                Reply::Acquired(Acquired::Granted) => {
                    explain_granted(&mut self.sheet, key, resource)
                }
                _ => self.explain_cycle(table, key, "this closes the cycle {}"),
            },
            Call::Transmit(key) => explain_transmit(&mut self.sheet, table, key, reply),
            Call::Detect(key) => explain_detect(&mut self.sheet, table, key, reply),
            Call::Settle => explain_settle(&mut self.sheet, reply),
            Call::State(key) => explain_state(&mut self.sheet, key, reply),
            Call::Table { .. } => explain_table(&mut self.sheet, table, reply),
            _ => {}
        }
    }
}

/// Adds why a call was refused.
pub fn explain_refusal(sheet: &mut Sheet, refusal: Refusal) {
    sheet.text(INDENT);
    sheet.refusal(refusal);
    sheet.text("; nothing changes");
    sheet.newline();
}

/// Adds the numbers of a table that was opened.
fn explain_table(sheet: &mut Sheet, table: &Table, reply: &Reply) {
    let Reply::Opened = reply else {
        return;
    };
    let config = table.config();
    sheet.line(
        "processes {}, resources {}, label limit {}, generation limit {}",
        &[
            Value::Number(config.processes),
            Value::Number(config.resources),
            Value::Limit(config.label_limit),
            Value::Number(config.generation_limit),
        ],
    );
}

/// Adds that the transaction owns the resource.
fn explain_granted(sheet: &mut Sheet, key: Key, resource: u32) {
    sheet.line(
        "{} owns resource {} now",
        &[Value::Key(key), Value::Number(resource)],
    );
}

/// Adds whose a resource is that was given back.
fn explain_owner(sheet: &mut Sheet, table: &Table, resource: u32) {
    match table.owner(resource) {
        Ok(Some(owner)) => sheet.line(
            "resource {} goes to {}, which waited the longest for it",
            &[Value::Number(resource), Value::Key(owner)],
        ),
        _ => sheet.line("resource {} is free", &[Value::Number(resource)]),
    }
}

fn explain_owners(sheet: &mut Sheet, table: &Table, resources: &[u32]) {
    for resource in resources {
        explain_owner(sheet, table, *resource);
    }
}

/// Adds why no label was transmitted, if none was.
fn explain_transmit(sheet: &mut Sheet, table: &Table, key: Key, reply: &Reply) {
    if let Reply::Transmitted(Transmitted::Still) = reply {
        explain_still(sheet, table, key);
    }
}

fn explain_still(sheet: &mut Sheet, table: &Table, key: Key) {
    if let Some((own, holder, shown)) = labels_of_wait(table, key) {
        sheet.line(
            "its holder {} shows {}, which is not greater than {}",
            &[
                Value::Key(holder),
                Value::Label(shown),
                Value::Label(own.public),
            ],
        );
    }
}

/// Adds why no verdict was given, if none was.
fn explain_detect(sheet: &mut Sheet, table: &Table, key: Key, reply: &Reply) {
    match reply {
        Reply::Detected(Detected::Clear) => explain_clear(sheet, table, key),
        Reply::Detected(Detected::Standing) => sheet.line("it has its verdict already", &[]),
        _ => {}
    }
}

fn explain_clear(sheet: &mut Sheet, table: &Table, key: Key) {
    if let Some((own, holder, shown)) = labels_of_wait(table, key) {
        if own.private == own.public {
            sheet.line(
                "no verdict: its label is {}, and its holder {} shows {}",
                &[
                    Value::Label(own.private),
                    Value::Key(holder),
                    Value::Label(shown),
                ],
            );
        } else {
            sheet.line(
                "no verdict: its public label {} is another's, its private one is {}",
                &[Value::Label(own.public), Value::Label(own.private)],
            );
        }
    }
}

/// Returns what the table shows of a waiting transaction, its holder, and the public label of that.
fn labels_of_wait(table: &Table, key: Key) -> Option<(State, Key, Label)> {
    let own = table.state(key).ok()?;
    let holder = edge_of(table, key.process)?.holder;
    let shown = table.state(holder).ok()?;
    Some((own, holder, shown.public))
}

/// Adds that a settle found nothing to do, if it found nothing.
fn explain_settle(sheet: &mut Sheet, reply: &Reply) {
    if let Reply::Settled(
        Settled {
            raises: 0,
            verdicts: 0,
        },
    ) = reply
    {
        sheet.line("no label to raise, and no verdict to give", &[]);
    }
}

fn explain_state(sheet: &mut Sheet, key: Key, reply: &Reply) {
    let Reply::Read(state) = reply else {
        return;
    };
    let (private, public) = (Value::Label(state.private), Value::Label(state.public));
    match state.mode {
        Mode::Active => sheet.line(
            "{} waits for nothing; private label {}, public label {}",
            &[Value::Key(key), private, public],
        ),
        Mode::Waiting(resource) => sheet.line(
            "{} waits, for resource {}; private label {}, public label {}",
            &[Value::Key(key), Value::Number(resource), private, public],
        ),
        Mode::Convicted(resource) => sheet.line(
            "{} waits under a verdict, for resource {}; private label {}, public label {}",
            &[Value::Key(key), Value::Number(resource), private, public],
        ),
    }
}
