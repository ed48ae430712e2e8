//! Tells connections what a request caused.
ghost use Rattle.std.specs.Prelude.{◌≡◌, ◌≤◌, ◌+◌, ◌++◌, ℕ, List, length, OnOk, IsOkUnless};
ghost use Rattle.arrayvec.specs.ArrayVec.{array_vec_len};
ghost use Rattle.mm_lines.specs.Output.{Prints, Writes};
ghost use Rattle.mm_service.specs.Reply.{line_text};
ghost use Rattle.mm_service.specs.Text.{told_line};
ghost use Rattle.mm_connections.specs.Begun.{connection_of};
ghost use Rattle.mm_connections.specs.Hub.{to_any};
ghost use Rattle.mm_connections.specs.Text.{aborted_text, deadlock_text, end_receiver, events_text, receiver, told_text};

use crate::names::asked_name;
use crate::permission::OPERATOR;
use crate::request::{ClientRequest, Heard};
use crate::served::{MAX_ANSWER, ServedManager, print_to};
use mm_lines::{Fault, OUTPUT_LEN, Output, make_room, print_key, print_text};
use mm_manager::{Grant, Key};
use mm_service::reply::{MAX_REPLY, end_line};
use mm_service::{Effect, MAX_PAIRS, MAX_REQUEST, Walk, print_pair, print_told, write_cycle};
use std::io::Write;

/// How many bytes `* deadlock` has, with which the operator's line of a deadlock begins.
const DEADLOCK_LEN: usize = 10;

impl ServedManager {
    ghost use Rattle.mm_connections.specs.private.Served.{hub_of};

    /// Writes what a request caused for others.
    pub(crate) fn write_events<W: Write>(
        &self,
        heard: Heard<'_, ClientRequest>,
        effect: Effect,
        output: &mut Output,
        writer: &mut W,
    ) -> Result<(), Fault>
        requires { length heard.name.now ≤ MAX_REQUEST }
        ensures written { (lost : List ℕ) × Writes (W.contents writer.old) (W.contents writer.new) (output.old.items ++ events_text heard.entry.connection heard.entry.request heard.entry.name.now (hub_of self.now) effect) lost
            × OnOk result (lost ≡ output.new.items) }
        ensures fault { IsOkUnless result Fault.Write }
    {
        match effect {
            Effect::Nothing => Ok(()),
            Effect::EndedWaits => self.write_told(None, output, writer),
            Effect::Ended(key) => {
                make_room(output, MAX_ANSWER, writer)?;
                self.print_end(heard.connection, key, output);
                self.write_told(None, output, writer)
            }
            Effect::Deadlock { key, holder, place } => {
                let name = asked_name(heard.request, heard.name, place);
                self.write_deadlock(key, name, holder, output, writer)
            }
        }
    }

    /// Prints that this transaction was aborted, to its connection, if the request was the operator's.
    fn print_end(&self, connection: u32, key: Key, output: &mut Output)
        requires { array_vec_len output.old + MAX_ANSWER ≤ OUTPUT_LEN }
        ensures { output.new.items ≡ output.old.items ++ to_any (end_receiver connection (connection_of self.now.begun key)) (line_text (aborted_text key)) }
    {
        if let Some(owner) = end_receiver(connection, self.begun.connection(key)) {
            print_to(output, owner);
            print_aborted(output, key);
        }
    }

    /// Writes whose waits the last call ended, each to the connection of its transaction, but to none that hangs up.
    pub(crate) fn write_told<W: Write>(
        &self,
        but: Option<u32>,
        output: &mut Output,
        writer: &mut W,
    ) -> Result<(), Fault>
        ensures written { (lost : List ℕ) × Writes (W.contents writer.old) (W.contents writer.new) (output.old.items ++ told_text but (hub_of self.now)) lost
            × OnOk result (lost ≡ output.new.items) }
        ensures fault { IsOkUnless result Fault.Write }
    {
        for grant in self.manager.granted() {
            make_room(output, MAX_ANSWER, writer)?;
            self.print_grant(but, *grant, output);
        }
        Ok(())
    }

    /// Prints whose wait a grant ended, if anybody is to be told.
    fn print_grant(&self, but: Option<u32>, grant: Grant, output: &mut Output)
        requires { array_vec_len output.old + MAX_ANSWER ≤ OUTPUT_LEN }
        ensures { output.new.items ≡ output.old.items ++ to_any (receiver but (connection_of self.now.begun grant.key)) (told_line self.now.manager grant) }
    {
        if let Some(connection) = receiver(but, self.begun.connection(grant.key)) {
            print_to(output, connection);
            print_told(&self.manager, output, grant);
        }
    }

    /// Writes the cycle that a transaction would have closed by a wait for this name, to the operator.
    fn write_deadlock<W: Write>(
        &self,
        key: Key,
        name: &[u8],
        holder: Key,
        output: &mut Output,
        writer: &mut W,
    ) -> Result<(), Fault>
        requires { length name.now ≤ MAX_REQUEST }
        ensures written { (lost : List ℕ) × Writes (W.contents writer.old) (W.contents writer.new) (output.old.items ++ deadlock_text self.now.manager key name.now holder) lost
            × OnOk result (lost ≡ output.new.items) }
        ensures fault { IsOkUnless result Fault.Write }
    {
        make_room(output, MAX_ANSWER + DEADLOCK_LEN, writer)?;
        print_to(output, OPERATOR);
        print_text(output, b"* deadlock");
        print_pair(output, key, name);
        let walk = Walk {
            requester: key,
            at: holder,
            left: MAX_PAIRS - 1,
        };
        write_cycle(&self.manager, walk, output, writer)
    }
}

/// A line that says who was aborted.
fn print_aborted(output: &mut Output, key: Key)
    requires { array_vec_len output.old + MAX_REPLY ≤ OUTPUT_LEN }
    ensures { Prints output.old.items (line_text (aborted_text key)) MAX_REPLY output.new.items }
{
    print_key(output, b"* aborted ", key);
    end_line(output);
}

/// Returns who is told of the end of a transaction of this connection: its connection, if the operator ended it.
fn end_receiver(connection: u32, owner: Option<u32>) -> Option<u32>
    ensures { result ≡ end_receiver connection owner }
{
    if connection == OPERATOR { owner } else { None }
}

/// Returns who is told of a transaction of this connection: nobody, if it is the one that hangs up.
fn receiver(but: Option<u32>, owner: Option<u32>) -> Option<u32>
    ensures { result ≡ receiver but owner }
{
    match (but, owner) {
        (Some(but), Some(owner)) if owner == but => None,
        (Some(_) | None, owner) => owner,
    }
}
