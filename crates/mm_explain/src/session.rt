//! A script as far as it is explained.
ghost use Rattle.std.specs.Prelude.{◌≡◌};

use crate::calls::explain_refusal;
use crate::explanation::Explanation;
use crate::heading::add_heading;
use crate::picture::{Format, Picture};
use crate::{ExplainFault, Options};
use mm_lines::{Fault, Input, split_once};
use mm_script::{Call, Line, Reply, line_of, make};
use mm_table::Table;
use std::alloc::{AllocError, Global};
use std::io::Write;

/// How many columns a line of text has at most. A line of a picture may have more.
const COLUMNS: usize = 100;

/// How many bytes of text are held before they are written, at least. The text of one line may be longer.
const MAX_HELD: usize = 65_536;

/// A script as far as it is explained.
#[derive(Drop)]
pub struct Session {
    alloc: Global,
    options: Options,
    /// The table that stands, if one does.
    table: Option<Table>,
    explanation: Explanation,
    /// How many lines were read.
    lines: u64,
    /// How many of them were malformed.
    malformed: u64,
}

impl Session {
    /// No line is read yet.
    pub fn open(alloc: Global, options: Options) -> Result<Session, AllocError> {
        let width = if options.mermaid || options.dot {
            usize::MAX
        } else {
            COLUMNS
        };
        let explanation = Explanation::open(alloc, width, options.has_colors)?;
        Ok(Session {
            alloc,
            options,
            table: None,
            explanation,
            lines: 0,
            malformed: 0,
        })
    }

    /// Returns whether no more lines are wanted.
    pub fn is_over(&self) -> bool {
        match self.options.at {
            Some(at) => self.lines >= at,
            None => false,
        }
    }

    /// Explains the lines whose newline was read, as far as they are wanted, and writes that.
    pub fn explain_piece<W: Write>(
        &mut self,
        input: &mut Input,
        writer: &mut W,
    ) -> Result<(), ExplainFault>
        ensures { input.new ≡ record input.old { held = input.new.held } }
    {
        while !self.is_over() {
            let Some((line, _)) = split_once(b'\n', input.held()) else {
                break;
            };
            let len = line.len();
            self.explain_line(line)?;
            if self.explanation.sheet.bytes.len() >= MAX_HELD {
                self.write(writer)?;
            }
            input.drop_front(len + 1);
        }
        self.write(writer)
    }

    /// Explains the line that no newline ends, unless it is empty or not wanted.
    fn explain_open(&mut self, line: &[u8]) -> Result<(), AllocError> {
        if line.is_empty() || self.is_over() {
            return Ok(());
        }
        self.explain_line(line)
    }

    /// Runs a line, and explains it if its text is printed.
    fn explain_line(&mut self, line: &[u8]) -> Result<(), AllocError> {
        self.lines = self.lines.saturating_add(1);
        match line_of(line) {
            Line::Silent => self.add_heading(line, None),
            Line::Malformed => {
                self.malformed = self.malformed.saturating_add(1);
                self.add_heading(line, Some(&Reply::Malformed));
            }
            Line::Call(call) if self.is_wanted() => return self.explain_call(line, call),
            Line::Call(call) => {
                let _reply = make(&mut self.table, self.alloc, call);
            }
        }
        Ok(())
    }

    /// Adds a line with its number and its reply, if its text is printed.
    fn add_heading(&mut self, line: &[u8], reply: Option<&Reply>) {
        if self.is_wanted() {
            add_heading(&mut self.explanation.sheet, self.lines, line, reply);
        }
    }

    /// Returns whether the text of the last line is printed.
    fn is_wanted(&self) -> bool {
        !self.options.mermaid && !self.options.dot && (self.options.at.is_none() || self.is_over())
    }

    /// Makes a call, and explains it.
    fn explain_call(&mut self, line: &[u8], call: Call) -> Result<(), AllocError> {
        if self.options.at.is_some() {
            self.look()?;
        }
        self.list_ending(call);
        let reply = make(&mut self.table, self.alloc, call);
        let explanation = &mut self.explanation;
        add_heading(&mut explanation.sheet, self.lines, line, Some(&reply));
        if let Reply::Refused(refusal) = reply {
            explain_refusal(&mut explanation.sheet, refusal);
            return Ok(());
        }
        match &self.table {
            Some(table) => explanation.explain_accepted(table, call, &reply),
            None => Ok(()),
        }
    }

    /// Takes what the table shows now into the view: no line before this one was explained.
    fn look(&mut self) -> Result<(), AllocError> {
        match &self.table {
            Some(table) => self.explanation.look(table),
            None => Ok(()),
        }
    }

    /// Lists what the transaction owns that the call ends, if it ends one.
    fn list_ending(&mut self, call: Call) {
        if let (Some(table), Call::Finish(key) | Call::Abort(key)) = (&self.table, call) {
            self.explanation.view.list_owned(table, key);
        }
    }

    /// Writes what is explained.
    fn write<W: Write>(&mut self, writer: &mut W) -> Result<(), ExplainFault> {
        if self.explanation.sheet.is_short {
            return Err(ExplainFault::Memory);
        }
        if writer.write_all(&self.explanation.sheet.bytes).is_err() {
            return Err(ExplainFault::Lines(Fault::Write));
        }
        self.explanation.sheet.clear();
        Ok(())
    }

    /// Explains the line that no newline ends, adds the pictures that are wanted, writes all, and returns how many lines were malformed.
    pub fn finish<W: Write>(&mut self, line: &[u8], writer: &mut W) -> Result<u64, ExplainFault> {
        self.explain_open(line)?;
        self.write(writer)?;
        self.draw_wanted()?;
        self.write(writer)?;
        match writer.flush() {
            Ok(()) => Ok(self.malformed),
            Err(_) => Err(ExplainFault::Lines(Fault::Write)),
        }
    }

    /// Adds the pictures that are wanted.
    fn draw_wanted(&mut self) -> Result<(), ExplainFault> {
        if self.options.at.is_some() && !self.is_over() {
            return Err(ExplainFault::NoLine(self.lines));
        }
        if self.options.mermaid {
            self.draw(Format::Mermaid)?;
        }
        if self.options.dot {
            self.draw(Format::Dot)?;
        }
        Ok(())
    }

    /// Adds the picture of this format.
    fn draw(&mut self, format: Format) -> Result<(), AllocError> {
        let picture = Picture {
            format,
            all: self.options.all,
        };
        picture.draw(&mut self.explanation.sheet, self.alloc, &self.table)
    }
}
