//! A connection hangs up, a part of it by each line that says so.
ghost use Rattle.std.specs.Prelude.{◌≡◌, ◌<◌, ◌≤◌, ◌+◌, ◌++◌, ℕ, List, Some, Err, length, take, MatchOption, MatchResult, IfSome, OnOk, IsOkUnless};
ghost use Rattle.arrayvec.specs.ArrayVec.{array_vec_len};
ghost use Rattle.mm_lines.specs.Output.{Writes};
ghost use Rattle.mm_lists.specs.Members.{head};
ghost use Rattle.mm_rules.specs.TableState.{owned_count};
ghost use Rattle.mm_tagged_lists.specs.TaggedLists.{freed, list_at, spot_at};
ghost use Rattle.mm_connections.specs.Begun.{IsOf, aside_list, has_any};
ghost use Rattle.mm_connections.specs.Hub.{IsLawfulHub};
ghost use Rattle.mm_connections.specs.Text.{DropsAll, EndsFront, HangsUp, SetsAllAside, closed, hang_up_text, long_first, to_end, to_set_aside, told_text};

use crate::parts::END_PART;
use crate::served::{MAX_ANSWER, ServedManager};
use mm_lines::{Fault, OUTPUT_LEN, Output, make_room, print_number};
use mm_manager::Key;
use mm_service::reply::end_line;
use std::io::Write;

/// How many transactions of a connection take back their waits by one line, and how many end.
pub const HANG_UP_PART: usize = 256;

impl ServedManager {
    ghost use Rattle.mm_connections.specs.private.Fits.{NoneFits};
    ghost use Rattle.mm_connections.specs.private.Served.{hub_of};

    /// A connection hangs up, or goes on to do so. First its transactions take back their waits, so that none is in a queue when others end,
    /// and then they end, at most `HANG_UP_PART` of each by one call, and no more than own `END_PART` names in all. If the next one owns more by
    /// itself, it gives back so many. The answer says whether some are left.
    ///
    /// After a fault as many end, and what there is to tell of them is lost.
    pub(crate) fn hang_up<W: Write>(
        &mut self,
        connection: u32,
        output: &mut Output,
        writer: &mut W,
    ) -> Result<(), Fault>
        requires connection { aside_list connection < length self.old.begun.lists }
        ensures hangs_up { (text : List ℕ) × (lost : List ℕ) × IsLawfulHub (hub_of self.old) × HangsUp connection (hub_of self.old) text (hub_of self.new)
            × Writes (W.contents writer.old) (W.contents writer.new) (output.old.items ++ text) lost × OnOk result (lost ≡ output.new.items) }
        ensures fault { IsOkUnless result Fault.Write }
        ensures lists { length self.new.begun.lists ≡ length self.old.begun.lists }
        ensures spots { length self.new.begun.spots ≡ length self.old.begun.spots }
        ensures config { self.new.manager.table.config ≡ self.old.manager.table.config }
        ensures options { self.new.options ≡ self.old.options }
    {
        self.manager.keeps_laws();
        self.begun.keeps_laws();
        self.set_part_aside(connection);
        let outcome = self.end_part(connection, output, writer);
        let has_more = self.close(connection);
        self.manager.keeps_laws();
        self.begun.keeps_laws();
        write_part_after(outcome, connection, has_more, output, writer)
    }

    /// Takes back the waits of transactions of a connection, the one begun last first, and sets those transactions aside: a part of them.
    fn set_part_aside(&mut self, connection: u32)
        requires { aside_list connection < length self.old.begun.lists }
        ensures sets { SetsAllAside connection (to_set_aside self.old.begun connection) (hub_of self.old) (hub_of self.new) }
        ensures lists { length self.new.begun.lists ≡ length self.old.begun.lists }
        ensures spots { length self.new.begun.spots ≡ length self.old.begun.spots }
        ensures config { self.new.manager.table.config ≡ self.old.manager.table.config }
        ensures options { self.new.options ≡ self.old.options }
    {
        self.begun.keeps_laws();
        'aside: for _ in 0..HANG_UP_PART {
            let Some(key) = self.begun.set_first_aside(connection) else {
                return;
            };
            let _answer = self.manager.cancel(key);
            self.manager.keeps_laws();
            self.begun.keeps_laws();
        }
    }

    /// Ends transactions of a connection, once all of them are set aside: a part of them. Writes what there is to tell of that.
    fn end_part<W: Write>(
        &mut self,
        connection: u32,
        output: &mut Output,
        writer: &mut W,
    ) -> Result<(), Fault>
        requires connection { aside_list connection < length self.old.begun.lists }
        ensures ends { (told : List ℕ) × (lost : List ℕ) × EndsFront connection (to_end self.old.begun connection) (hub_of self.old) told (hub_of self.new)
            × Writes (W.contents writer.old) (W.contents writer.new) (output.old.items ++ told) lost × OnOk result (lost ≡ output.new.items) }
        ensures fault { IsOkUnless result Fault.Write }
        ensures lists { length self.new.begun.lists ≡ length self.old.begun.lists }
        ensures spots { length self.new.begun.spots ≡ length self.old.begun.spots }
        ensures config { self.new.manager.table.config ≡ self.old.manager.table.config }
        ensures options { self.new.options ≡ self.old.options }
    {
        if self.begun.has_open(connection) {
            return Ok(());
        }
        match self.long_first(connection) {
            Some(key) => self.give_back(key, END_PART, Some(connection), output, writer),
            None => self.drop_part(connection, output, writer),
        }
    }

    /// Returns the transaction of a connection that ends next, if it owns so many names that it ends by parts.
    fn long_first(&self, connection: u32) -> Option<Key>
        requires { aside_list connection < length self.now.begun.lists }
        ensures first { result ≡ long_first (hub_of self.now) (list_at self.now.begun (aside_list connection)) }
        ensures own { IfSome result (λ key. IsOf self.now.begun connection key) }
    {
        let key = self.begun.first_aside(connection)?;
        self.many(key)
    }

    /// Ends transactions of a connection that are set aside: a part of them, which own `END_PART` names in all at most. Writes what there is to
    /// tell of that.
    fn drop_part<W: Write>(
        &mut self,
        connection: u32,
        output: &mut Output,
        writer: &mut W,
    ) -> Result<(), Fault>
        requires connection { aside_list connection < length self.old.begun.lists }
        ensures drops { (told : List ℕ) × (lost : List ℕ) × DropsAll connection END_PART (take HANG_UP_PART (list_at self.old.begun (aside_list connection))) (hub_of self.old) told (hub_of self.new)
            × Writes (W.contents writer.old) (W.contents writer.new) (output.old.items ++ told) lost × OnOk result (lost ≡ output.new.items) }
        ensures fault { IsOkUnless result Fault.Write }
        ensures lists { length self.new.begun.lists ≡ length self.old.begun.lists }
        ensures spots { length self.new.begun.spots ≡ length self.old.begun.spots }
        ensures config { self.new.manager.table.config ≡ self.old.manager.table.config }
        ensures options { self.new.options ≡ self.old.options }
    {
        let mut written = Ok(());
        let mut left = END_PART;
        self.begun.keeps_laws();
        'drop: for _ in 0..HANG_UP_PART {
            let Some(key) = self.take_fitting(connection, left) else {
                return written;
            };
            left -= self.manager.owned_len(key);
            let answer = self.manager.abort(key);
            self.counts.count_end(connection, &answer);
            self.manager.keeps_laws();
            self.begun.keeps_laws();
            written = self.write_told_after(written, Some(connection), output, writer);
        }
        written
    }

    /// Takes the first transaction of a connection that is set aside, which is nobody's from now on, if it owns at most so many names.
    fn take_fitting(&mut self, connection: u32, left: u32) -> Option<Key>
        requires { aside_list connection < length self.old.begun.lists }
        ensures taken { MatchOption result ((hub_of self.new ≡ hub_of self.old) × NoneFits left (hub_of self.old) (list_at self.old.begun (aside_list connection)))
            (λ key. (hub_of self.new ≡ record (hub_of self.old) { begun = freed self.old.begun key.process }) × (head (list_at self.old.begun (aside_list connection)) ≡ Some key.process)
            × (spot_at self.old.begun key.process ≡ Some (record { list = aside_list connection; tag = key.generation })) × (owned_count self.old.manager.table key ≤ left)) }
        ensures lists { length self.new.begun.lists ≡ length self.old.begun.lists }
        ensures spots { length self.new.begun.spots ≡ length self.old.begun.spots }
    {
        let key = self.begun.first_aside(connection)?;
        if self.manager.owned_len(key) > left {
            return None;
        }
        self.begun.free(key.process);
        Some(key)
    }

    /// Writes whose waits the last call ended, but to none that hangs up, if what came before was written.
    pub(crate) fn write_told_after<W: Write>(
        &self,
        before: Result<(), Fault>,
        but: Option<u32>,
        output: &mut Output,
        writer: &mut W,
    ) -> Result<(), Fault>
        requires { IsOkUnless before Fault.Write }
        ensures told { MatchResult before
            (λ _. (lost : List ℕ) × Writes (W.contents writer.old) (W.contents writer.new) (output.old.items ++ told_text but (hub_of self.now)) lost × OnOk result (lost ≡ output.new.items))
            (λ fault. (W.contents writer.new ≡ W.contents writer.old) × (result ≡ Err fault)) }
        ensures fault { IsOkUnless result Fault.Write }
    {
        match before {
            Ok(()) => self.write_told(but, output, writer),
            Err(fault) => Err(fault),
        }
    }

    /// Returns whether transactions of a connection are left. If none is, its count is 0 from now on.
    fn close(&mut self, connection: u32) -> bool
        requires { aside_list connection < length self.old.begun.lists }
        ensures more { result ≡ has_any self.old.begun connection }
        ensures closed { hub_of self.new ≡ closed connection (hub_of self.old) }
        ensures manager { self.new.manager ≡ self.old.manager }
        ensures begun { self.new.begun ≡ self.old.begun }
        ensures options { self.new.options ≡ self.old.options }
    {
        let has_more = self.begun.has_any(connection);
        if !has_more {
            self.counts.set(connection, 0);
        }
        has_more
    }
}

/// Writes whether a connection has to hang up again, or is over, if what came before was written.
fn write_part_after<W: Write>(
    before: Result<(), Fault>,
    connection: u32,
    has_more: bool,
    output: &mut Output,
    writer: &mut W,
) -> Result<(), Fault>
    requires { IsOkUnless before Fault.Write }
    ensures part { MatchResult before
        (λ _. (lost : List ℕ) × Writes (W.contents writer.old) (W.contents writer.new) (output.old.items ++ hang_up_text has_more connection) lost × OnOk result (lost ≡ output.new.items))
        (λ fault. (W.contents writer.new ≡ W.contents writer.old) × (result ≡ Err fault)) }
    ensures fault { IsOkUnless result Fault.Write }
{
    match before {
        Ok(()) => {
            make_room(output, MAX_ANSWER, writer)?;
            print_part(output, connection, has_more);
            Ok(())
        }
        Err(fault) => Err(fault),
    }
}

/// Prints whether a connection has to hang up again, or is over.
fn print_part(output: &mut Output, connection: u32, has_more: bool)
    requires { array_vec_len output.old + MAX_ANSWER ≤ OUTPUT_LEN }
    ensures { output.new.items ≡ output.old.items ++ hang_up_text has_more connection }
{
    let number = u64::from(connection);
    if has_more {
        print_number(output, b"* more ", number);
    } else {
        print_number(output, b"- ", number);
    }
    end_line(output);
}
