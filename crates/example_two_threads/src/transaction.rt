//! A transaction that takes two resources, and is aborted if that closes a cycle of waits.
ghost use Rattle.std.specs.Prelude.{◌≡◌, ◌+◌, IfOk, OnErr};
ghost use Rattle.example_two_threads.specs.Ending.{aborts_of};

use mm_shared::{Acquired, Detected, Key, Name, Pass, Refusal, SharedTable};
use std::sync::Wait;
use std::sync::ledger::Ledger;
use std::thread;

/// How a transaction ended.
#[derive(Clone, Copy, Debug, PartialEq, Eq)]
pub enum Ending {
    /// It had both resources.
    Finished,
    /// It got a verdict, and was aborted.
    Aborted,
    /// A call was refused.
    Refused(Refusal),
}

/// What a transaction that asked for a resource has come to.
#[derive(Clone, Copy, Debug, PartialEq, Eq)]
enum Asked {
    Given,
    Convicted,
}

/// One round of waiting: takes over the holder's label, and looks whether its own label came round. `None` if it waits on.
fn wait_once<N: Name, A: Ledger, V: Ledger, B: Ledger, R: Wait>(
    rt: &R,
    table: &SharedTable<N, A, V, B>,
    pass: &mut Pass<N, A, V, B>,
    key: Key,
) -> Result<Option<Asked>, Refusal>
    ensures aborts { pass.new.aborts ≡ pass.old.aborts }
    ensures parts { pass.new.parts ≡ pass.old.parts }
{
    // A call that is refused since nothing waits says that the resource was handed over in the meantime.
    match table.transmit(rt, pass, key) {
        Err(Refusal::NotWaiting) => return Ok(Some(Asked::Given)),
        Err(refusal) => return Err(refusal),
        Ok(_) => {}
    }
    match table.detect(rt, pass, key) {
        Err(Refusal::NotWaiting) => Ok(Some(Asked::Given)),
        Err(refusal) => Err(refusal),
        Ok(Detected::Clear) => Ok(None),
        Ok(_) => Ok(Some(Asked::Convicted)),
    }
}

/// Asks for a resource, and waits until it is given or a verdict comes.
fn take<N: Name, A: Ledger, V: Ledger, B: Ledger, R: Wait>(
    rt: &R,
    table: &SharedTable<N, A, V, B>,
    pass: &mut Pass<N, A, V, B>,
    key: Key,
    resource: u32,
) -> Result<Asked, Refusal>
    ensures aborts { pass.new.aborts ≡ pass.old.aborts }
    ensures parts { pass.new.parts ≡ pass.old.parts }
{
    let mut asked = Asked::Given;
    if table.acquire(rt, pass, key, resource)? != Acquired::Granted {
        for _ in rt.forever() {
            if let Some(end) = wait_once(rt, table, pass, key)? {
                asked = end;
                break;
            }
            thread::yield_now();
        }
    }
    Ok(asked)
}

/// Takes both resources, one after the other, as long as no verdict comes.
fn take_both<N: Name, A: Ledger, V: Ledger, B: Ledger, R: Wait>(
    rt: &R,
    table: &SharedTable<N, A, V, B>,
    pass: &mut Pass<N, A, V, B>,
    key: Key,
    first: u32,
    second: u32,
) -> Result<Asked, Refusal>
    ensures aborts { pass.new.aborts ≡ pass.old.aborts }
    ensures parts { pass.new.parts ≡ pass.old.parts }
{
    match take(rt, table, pass, key, first)? {
        Asked::Given => take(rt, table, pass, key, second),
        Asked::Convicted => Ok(Asked::Convicted),
    }
}

/// A transaction from its begin to its end.
fn attempt<N: Name, A: Ledger, V: Ledger, B: Ledger, R: Wait>(
    rt: &R,
    table: &SharedTable<N, A, V, B>,
    pass: &mut Pass<N, A, V, B>,
    first: u32,
    second: u32,
) -> Result<Ending, Refusal>
    ensures ended { IfOk result (λ ending. pass.new.aborts ≡ pass.old.aborts + aborts_of ending) }
    ensures refused { OnErr result (pass.new.aborts ≡ pass.old.aborts) }
    ensures parts { pass.new.parts ≡ pass.old.parts }
{
    let key = table.begin(rt, pass)?;
    match take_both(rt, table, pass, key, first, second)? {
        Asked::Given => {
            table.finish(rt, pass, key)?;
            Ok(Ending::Finished)
        }
        Asked::Convicted => {
            table.abort(rt, pass, key)?;
            Ok(Ending::Aborted)
        }
    }
}

/// A transaction that takes two resources. Its pass counts one abort exactly if it ends as `Aborted`.
pub fn transaction<N: Name, A: Ledger, V: Ledger, B: Ledger, R: Wait>(
    rt: &R,
    table: &SharedTable<N, A, V, B>,
    mut pass: Pass<N, A, V, B>,
    first: u32,
    second: u32,
) -> (Ending, Pass<N, A, V, B>)
    ensures aborts { result.1.aborts ≡ pass.aborts + aborts_of result.0 }
    ensures parts { result.1.parts ≡ pass.parts }
{
    let ending = match attempt(rt, table, &mut pass, first, second) {
        Ok(ending) => ending,
        Err(refusal) => Ending::Refused(refusal),
    };
    (ending, pass)
}
