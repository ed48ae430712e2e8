//! A transaction of many names ends by parts, so that others have their turns between them.
ghost use Rattle.std.specs.Prelude.{◌≡◌, ◌≤◌, ◌+◌, ◌*◌, ◌%◌, ◌++◌, ℕ, List, None, Err, length, is_some, if◌then◌else◌, MatchResult, OnOk, IsOkUnless};
ghost use Rattle.arrayvec.specs.ArrayVec.{array_vec_len};
ghost use Rattle.mm_lines.specs.Output.{Prints, Writes};
ghost use Rattle.mm_connections.specs.Hub.{IsLawfulHub};
ghost use Rattle.mm_connections.specs.Text.{EndsPart, GivesBackMany, many, more_text, part_of, part_of_key};

use crate::request::ClientRequest;
use crate::served::ServedManager;
use mm_lines::{Fault, OUTPUT_LEN, Output, make_room, print_key};
use mm_manager::Key;
use mm_service::reply::{MAX_REPLY, end_line};
use mm_service::{KeyRequest, Request};
use std::io::Write;

/// How many names are given back by one line at most.
pub const END_PART: u32 = 1024;

impl ServedManager {
    ghost use Rattle.mm_connections.specs.private.Served.{hub_of};

    /// Returns the transaction that a request ends a part of, and no more. Constant time.
    pub(crate) fn part_of(&self, request: ClientRequest) -> Option<Key>
        ensures { result ≡ part_of (hub_of self.now) request }
    {
        match request {
            ClientRequest::Plain(Request::OfKey(request, key)) => self.part_of_key(request, key),
            ClientRequest::Begin
            | ClientRequest::LockAll(_)
            | ClientRequest::Plain(_)
            | ClientRequest::Read(_) => None,
        }
    }

    /// The same of a request of a key.
    fn part_of_key(&self, request: KeyRequest, key: Key) -> Option<Key>
        ensures { result ≡ part_of_key (hub_of self.now) request key }
    {
        match request {
            KeyRequest::Commit if self.manager.wait_at(key.process).is_some() => None,
            KeyRequest::Commit | KeyRequest::Abort => self.many(key),
            KeyRequest::Cancel | KeyRequest::Status => None,
        }
    }

    /// Returns the transaction if it owns so many names that it ends by parts.
    pub(crate) fn many(&self, key: Key) -> Option<Key>
        ensures { result ≡ many (hub_of self.now) key }
    {
        if self.manager.owned_len(key) > END_PART {
            Some(key)
        } else {
            None
        }
    }

    /// Ends a part of a transaction: sets it aside, takes back its wait, and gives back `END_PART` names. The answer says that there is more.
    ///
    /// After a fault as much is done, and what there is to tell of it is lost.
    pub(crate) fn end_by_part<W: Write>(
        &mut self,
        key: Key,
        output: &mut Output,
        writer: &mut W,
    ) -> Result<(), Fault>
        requires { length self.old.begun.lists % 2 ≡ 0 }
        ensures ends { (text : List ℕ) × (lost : List ℕ) × EndsPart key (hub_of self.old) text (hub_of self.new)
            × Writes (W.contents writer.old) (W.contents writer.new) (output.old.items ++ text) lost × OnOk result (lost ≡ output.new.items) }
        ensures fault { IsOkUnless result Fault.Write }
        ensures lists { length self.new.begun.lists ≡ length self.old.begun.lists }
        ensures spots { length self.new.begun.spots ≡ length self.old.begun.spots }
        ensures config { self.new.manager.table.config ≡ self.old.manager.table.config }
        ensures options { self.new.options ≡ self.old.options }
    {
        self.begun.set_aside(key);
        let _answer = self.manager.cancel(key);
        self.manager.keeps_laws();
        let outcome = self.give_back(key, END_PART, None, output, writer);
        self.manager.keeps_laws();
        self.begun.keeps_laws();
        write_more_after(outcome, key, output, writer)
    }

    /// Gives back so many names of a transaction, each as by an unlock, and writes who is granted them, but not to a connection that hangs up.
    pub(crate) fn give_back<W: Write>(
        &mut self,
        key: Key,
        count: u32,
        but: Option<u32>,
        output: &mut Output,
        writer: &mut W,
    ) -> Result<(), Fault>
        ensures gives { (told : List ℕ) × (lost : List ℕ) × GivesBackMany but key count (hub_of self.old) told (hub_of self.new)
            × Writes (W.contents writer.old) (W.contents writer.new) (output.old.items ++ told) lost × OnOk result (lost ≡ output.new.items) }
        ensures fault { IsOkUnless result Fault.Write }
        ensures begun { self.new.begun ≡ self.old.begun }
        ensures config { self.new.manager.table.config ≡ self.old.manager.table.config }
        ensures options { self.new.options ≡ self.old.options }
    {
        let mut written = Ok(());
        'name: for _ in 0..count {
            let _answer = self.manager.unlock_any(key);
            self.manager.keeps_laws();
            written = self.write_told_after(written, but, output, writer);
        }
        written
    }
}

/// Writes that the server has to send a line again, by which this transaction ends, if what came before was written.
fn write_more_after<W: Write>(
    before: Result<(), Fault>,
    key: Key,
    output: &mut Output,
    writer: &mut W,
) -> Result<(), Fault>
    requires { IsOkUnless before Fault.Write }
    ensures more { MatchResult before
        (λ _. (lost : List ℕ) × Writes (W.contents writer.old) (W.contents writer.new) (output.old.items ++ more_text key) lost × OnOk result (lost ≡ output.new.items))
        (λ fault. (W.contents writer.new ≡ W.contents writer.old) × (result ≡ Err fault)) }
    ensures fault { IsOkUnless result Fault.Write }
{
    match before {
        Ok(()) => {
            make_room(output, MAX_REPLY, writer)?;
            print_more(output, key);
            Ok(())
        }
        Err(fault) => Err(fault),
    }
}

/// Prints that the server has to send a line again, by which this transaction ends.
fn print_more(output: &mut Output, key: Key)
    requires { array_vec_len output.old + MAX_REPLY ≤ OUTPUT_LEN }
    ensures { Prints output.old.items (more_text key) MAX_REPLY output.new.items }
{
    print_key(output, b"* more ", key);
    end_line(output);
}
