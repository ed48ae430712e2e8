//! Calls of the table that stands, if one does.
ghost use Rattle.std.specs.Prelude.{◌≡◌, None, Some};
ghost use Rattle.mm_script.specs.Text.{OpensBy, Replies, RepliesWithNone, RepliesWithTable, most_processes, reply_to};

use super::line::{Call, Header};
use super::reply::Reply;
use mm_table::{Config, Refusal, Table};
use std::alloc::Global;

impl Header {
    /// Returns how many processes a table may have that this word opens.
    fn most_processes(self) -> u32
        ensures { result ≡ most_processes self }
    {
        match self {
            Header::Table => 4096,
            Header::Table2 => Config::MAX_PROCESSES,
        }
    }
}

/// Makes a call of the table, or opens one, and returns the reply. Only `table` and `table2` allocate.
pub fn make(table: &mut Option<Table>, alloc: Global, call: Call) -> Reply
    ensures { Replies call table.old result table.new }
{
    match table {
        Some(table) => make_with_table(table, call),
        None => make_with_none(table, alloc, call),
    }
}

/// Makes a call while a table stands.
fn make_with_table(table: &mut Table, call: Call) -> Reply
    ensures { RepliesWithTable call table.old result (Some table.new) }
{
    match accepted(table, call) {
        Ok(reply) => reply,
        Err(refusal) => Reply::Refused(refusal),
    }
}

/// Makes a call of a table, and returns the reply or the refusal.
fn accepted(table: &mut Table, call: Call) -> Result<Reply, Refusal>
    ensures { RepliesWithTable call table.old (reply_to (λ reply. reply) result) (Some table.new) }
{
    match call {
        Call::Table { .. } => Ok(Reply::TableStands),
        Call::Begin => table.begin().map(Reply::Begun),
        Call::Acquire { key, resource } => table.acquire(key, resource).map(Reply::Acquired),
        Call::Release { key, resource } => table.release(key, resource).map(Reply::Released),
        Call::Finish(key) => table.finish(key).map(|()| Reply::Finished),
        Call::Transmit(key) => table.transmit(key).map(Reply::Transmitted),
        Call::Detect(key) => table.detect(key).map(Reply::Detected),
        Call::Abort(key) => table.abort(key).map(|()| Reply::Aborted),
        Call::GiveUp(key) => table.give_up(key).map(|()| Reply::Withdrawn),
        Call::Settle => table.settle().map(Reply::Settled),
        Call::State(key) => table.state(key).map(Reply::Read),
        Call::Owner(resource) => table.owner(resource).map(Reply::Owned),
        Call::Totals => Ok(Reply::Counted(table.totals())),
    }
}

/// Makes a call while no table stands. A header that is refused leaves none.
fn make_with_none(table: &mut Option<Table>, alloc: Global, call: Call) -> Reply
    requires { table.old ≡ None }
    ensures { RepliesWithNone call result table.new }
{
    let Call::Table { header, config } = call else {
        return Reply::NoTable;
    };
    match open(alloc, header, config) {
        Ok(opened) => {
            fill(table, opened);
            Reply::Opened
        }
        Err(refusal) => Reply::Refused(refusal),
    }
}

/// Puts a value if there is none.
fn fill<T: Drop>(place: &mut Option<T>, value: T)
    requires { place.old ≡ None }
    ensures { place.new ≡ Some value }
{
    *place = Some(value);
}

/// Opens a table by a header. Refused as `BadConfig` before any request for memory if it has more processes than the header allows.
fn open(alloc: Global, header: Header, config: Config) -> Result<Table, Refusal>
    ensures { OpensBy header config result }
{
    if config.processes > header.most_processes() {
        return Err(Refusal::BadConfig);
    }
    Table::open(alloc, config)
}
