//! The text that is not yet written.
ghost use Rattle.std.specs.Prelude.{◌≡◌, ◌++◌, ◌<◌, codes, decimal};
ghost use Rattle.mm_explain.specs.Sheet.{Adds};

use itoa::Buffer;
use mm_table::{Key, Label, Refusal};
use std::alloc::{AllocError, Global};
use std::io::Write;

/// Where the explanation of a line begins.
pub const INDENT: &str = "         ";

/// A value that stands in a line of text.
#[derive(Clone, Copy)]
pub enum Value {
    Number(u32),
    Limit(u64),
    Key(Key),
    Label(Label),
    /// A key as Mermaid names its node.
    Node(Key),
}

/// How text is shown on a terminal.
#[derive(Clone, Copy)]
pub enum Paint {
    Plain,
    Faint,
    Strong,
    Warning,
    Alarm,
}

/// Text that is not yet written. If memory for it is refused, some of it is missing.
#[derive(Drop)]
pub struct Sheet {
    pub bytes: Vec<u8>,
    /// Memory for some of the text was refused.
    pub is_short: bool,
    /// How many bytes of the last line are shown.
    pub column: usize,
    /// How many columns a line has at most, if its parts are not longer.
    width: usize,
    /// Paint is shown.
    pub has_colors: bool,
}

impl Sheet {
    /// No text.
    pub fn open(alloc: Global, width: usize, has_colors: bool) -> Result<Sheet, AllocError> {
        Ok(Sheet {
            bytes: Vec::with_capacity(alloc, 4096)?,
            is_short: false,
            column: 0,
            width,
            has_colors,
        })
    }

    /// Takes away all text.
    pub fn clear(&mut self) {
        self.bytes.clear();
        self.column = 0;
    }

    /// Adds bytes that take no column.
    fn add_hidden(&mut self, bytes: &[u8])
        ensures { Adds self.old bytes.now self.new }
    {
        if self.bytes.extend_from_slice(bytes).is_err() {
            self.is_short = true;
        }
    }

    /// Adds bytes of one line.
    pub fn add(&mut self, bytes: &[u8])
        ensures { Adds self.old bytes.now self.new }
    {
        self.add_hidden(bytes);
        self.column = self.column.saturating_add(bytes.len());
    }

    /// Adds a text of one line.
    pub fn text(&mut self, text: &str)
        ensures { Adds self.old text.now self.new }
    {
        self.add(text.as_bytes());
    }

    /// Adds a number, in decimal digits.
    pub fn number(&mut self, number: u64)
        ensures { Adds self.old (decimal number) self.new }
    {
        self.add(Buffer::new().format(number).as_bytes());
    }

    /// Adds a key, as `process.generation`.
    pub fn key(&mut self, key: Key) {
        self.number(u64::from(key.process));
        self.text(".");
        self.number(u64::from(key.generation));
    }

    /// Adds a label, as `counter.process`.
    pub fn label(&mut self, label: Label) {
        self.number(label.counter());
        self.text(".");
        self.number(u64::from(label.process()));
    }

    /// Adds what a refusal means.
    pub fn refusal(&mut self, refusal: Refusal) {
        if write!(self.bytes, "{refusal}").is_err() {
            self.is_short = true;
        }
    }

    /// Ends the line.
    pub fn newline(&mut self)
        ensures { Adds self.old (codes "\n") self.new }
    {
        self.add_hidden(b"\n");
        self.column = 0;
    }

    /// Adds spaces up to this column.
    pub fn fill_to(&mut self, column: usize) {
        for _ in self.column..column {
            self.text(" ");
        }
    }

    /// Shows what follows so, if colours are shown.
    pub fn paint(&mut self, paint: Paint) {
        if self.has_colors {
            self.add_hidden(match paint {
                Paint::Plain => b"\x1b[0m",
                Paint::Faint => b"\x1b[2m",
                Paint::Strong => b"\x1b[1m",
                Paint::Warning => b"\x1b[33m",
                Paint::Alarm => b"\x1b[31m",
            });
        }
    }

    /// Adds a text with a value at each `{}` of it. A part that does not fit on this line begins the next one.
    pub fn fill(&mut self, text: &str, values: &[Value]) {
        let mut rest = text;
        for value in values {
            let Some((before, after)) = rest.split_once("{}") else {
                return;
            };
            self.part(before);
            self.value(value);
            rest = after;
        }
        self.part(rest);
    }

    /// Begins a line of an explanation.
    pub fn begin(&mut self, text: &str, values: &[Value]) {
        self.text(INDENT);
        self.fill(text, values);
    }

    /// Adds a line of an explanation.
    pub fn line(&mut self, text: &str, values: &[Value]) {
        self.begin(text, values);
        self.newline();
    }

    fn part(&mut self, text: &str) {
        if !text.is_empty() {
            self.make_room(text.len());
            self.text(text);
        }
    }

    fn value(&mut self, value: &Value) {
        self.make_room(columns_of(value));
        match value {
            Value::Number(number) => self.number(u64::from(*number)),
            Value::Limit(limit) => self.number(*limit),
            Value::Key(key) => self.key(*key),
            Value::Label(label) => self.label(*label),
            Value::Node(key) => self.node(*key),
        }
    }

    fn node(&mut self, key: Key) {
        self.text("t");
        self.number(u64::from(key.process));
        self.text("_");
        self.number(u64::from(key.generation));
    }

    /// Begins the next line if this many columns do not fit on this one.
    fn make_room(&mut self, columns: usize) {
        if self.column.saturating_add(columns) > self.width {
            self.newline();
            self.text(INDENT);
        }
    }
}

/// Returns how many columns of a line are kept for a value. A long number takes more.
fn columns_of(value: &Value) -> usize {
    match value {
        Value::Number(_) | Value::Limit(_) => 5,
        _ => 7,
    }
}
