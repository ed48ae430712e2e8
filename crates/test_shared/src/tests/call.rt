//! A line of a script as a call of a shared table, and the text of its reply. `mm_script` reads the line and prints the reply, as it does for a
//! script.
ghost use Rattle.std.specs.Prelude.{◌≤◌, vec_capacity};

use crate::tests::same::same;
use mm_lines::Output;
use mm_script::{Call, Line, Reply, line_of, print_reply};
use mm_shared::{Name, Pass, Refusal, SharedTable};
use mm_table::Totals;
use std::process::Abort;
use std::sync::Wait;
use std::sync::ledger::Ledger;

/// The totals of a table that has counted nothing.
const NOTHING: Totals = Totals {
    accepted: 0,
    verdicts: 0,
    aborts: 0,
};

/// The call of a line.
pub fn call_of(line: &str) -> Option<Call> {
    match line_of(line.as_bytes()) {
        Line::Call(call) => Some(call),
        Line::Silent | Line::Malformed => None,
    }
}

/// Ends the test unless the reply, or that to the refusal, has this text.
pub fn is_told(rt: &impl Abort, answer: Result<Reply, Refusal>, text: &str) {
    let reply = answer.unwrap_or_else(|refusal| Reply::Refused(refusal));
    let mut printed = Output::new();
    print_reply(&mut printed, &reply);
    let _newline = printed.pop();
    same(rt, printed.as_slice(), text.as_bytes());
}

/// Makes the call on a shared table, which stands, and has no call for the totals: they are those of nothing then.
pub fn on_shared<N: Name, A: Ledger, V: Ledger, B: Ledger, R: Wait>(
    rt: &R,
    table: &SharedTable<N, A, V, B>,
    pass: &mut Pass<N, A, V, B>,
    call: Call,
) -> Result<Reply, Refusal> {
    match call {
        Call::Table { .. } => Ok(Reply::TableStands),
        Call::Begin => table.begin(rt, pass).map(Reply::Begun),
        Call::Acquire { key, resource } => {
            table.acquire(rt, pass, key, resource).map(Reply::Acquired)
        }
        Call::Release { key, resource } => {
            table.release(rt, pass, key, resource).map(Reply::Released)
        }
        Call::Finish(key) => table.finish(rt, pass, key).map(|()| Reply::Finished),
        Call::Transmit(key) => table.transmit(rt, pass, key).map(Reply::Transmitted),
        Call::Detect(key) => table.detect(rt, pass, key).map(Reply::Detected),
        Call::Abort(key) => table.abort(rt, pass, key).map(|()| Reply::Aborted),
        Call::GiveUp(key) => table.give_up(rt, pass, key).map(|()| Reply::Withdrawn),
        Call::Settle => table.settle(rt, pass).map(Reply::Settled),
        Call::State(key) => table.state(rt, pass, key).map(Reply::Read),
        Call::Owner(resource) => table.owner(rt, pass, resource).map(Reply::Owned),
        Call::Totals => Ok(Reply::Counted(NOTHING)),
    }
}

/// Makes the call on a shared table. If it has a form that lists the processes to wake, that one.
pub fn on_shared_waking<N: Name, A: Ledger, V: Ledger, B: Ledger, R: Wait>(
    rt: &R,
    table: &SharedTable<N, A, V, B>,
    pass: &mut Pass<N, A, V, B>,
    wake: &mut Vec<u32>,
    call: Call,
) -> Result<Reply, Refusal>
    requires { table.now ≤ vec_capacity wake.old }
{
    match call {
        Call::Release { key, resource } => {
            let answer = table.release_waking(rt, pass, key, resource, wake);
            answer.map(Reply::Released)
        }
        Call::Finish(key) => {
            let answer = table.finish_waking(rt, pass, key, wake);
            answer.map(|()| Reply::Finished)
        }
        Call::Abort(key) => {
            let answer = table.abort_waking(rt, pass, key, wake);
            answer.map(|()| Reply::Aborted)
        }
        Call::Settle => table.settle_waking(rt, pass, wake).map(Reply::Settled),
        _ => on_shared(rt, table, pass, call),
    }
}
