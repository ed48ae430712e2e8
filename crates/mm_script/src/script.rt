//! Answers the lines of a script.
ghost use Rattle.std.specs.Prelude.{◌≡◌, None};

use super::calls::make;
use super::line::{Line, line_of};
use super::reply::{MAX_REPLY, Reply, print_reply};
use super::{INPUT_LIMIT, MAX_LINE};
use mm_lines::{Answerer, Fault, Limits, Output};
use mm_table::Table;
use std::alloc::Global;
use std::io::Write;
use std::marker::Model;

/// A script as far as it is answered. A contract sees the table that stands, if one does.
#[derive(Drop)]
pub struct Script {
    alloc: Global,
    table: Option<Table>,
}

impl Model for Script {
    ghost use Rattle.std.specs.Prelude.{Option};
    ghost use Rattle.mm_table.specs.TableState.{TableState};

    ghost Value = { Option TableState };

    ghost view = { λ it. it.table };
}

impl Script {
    /// No table stands.
    pub fn new(alloc: Global) -> Self
        ensures { result ≡ None }
    {
        Script { alloc, table: None }
    }
}

impl Answerer for Script {
    ghost use Rattle.mm_script.specs.Script.{input_limit};
    ghost use Rattle.mm_script.specs.Text.{Answers};
    ghost use Rattle.mm_script.specs.private.Long.{answers_long};

    ghost answers = { Answers };

    ghost LIMITS = { record { input = input_limit; line = 128 } };

    const LIMITS: Limits = Limits {
        input: INPUT_LIMIT,
        line: MAX_LINE,
    };

    ghost ROOM = { 128 };

    const ROOM: usize = MAX_REPLY;

    fn answer<W: Write>(
        &mut self,
        line: &[u8],
        output: &mut Output,
        _writer: &mut W,
    ) -> Result<bool, Fault> {
        let (reply, is_malformed) = match line_of(line) {
            Line::Silent => return Ok(false),
            Line::Malformed => (Reply::Malformed, true),
            Line::Call(call) => (make(&mut self.table, self.alloc, call), false),
        };
        print_reply(output, &reply);
        Ok(is_malformed)
    }

    ghost long = { answers_long };
}
