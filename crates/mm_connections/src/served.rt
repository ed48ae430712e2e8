//! Serves a connection.
ghost use Rattle.std.specs.Prelude.{◌≡◌, ◌<◌, ◌≤◌, ◌+◌, ◌*◌, ◌%◌, ◌++◌, ℕ, List, length, codes, decimal, IfOk, OnOk, IsOkUnless, if◌then◌else◌};
ghost use Rattle.arrayvec.specs.ArrayVec.{array_vec_len};
ghost use Rattle.mm_lines.specs.Output.{Prints, Writes};
ghost use Rattle.mm_service.specs.Holds.{HasRoom};
ghost use Rattle.mm_service.specs.Reply.{line_text};
ghost use Rattle.mm_connections.specs.Hub.{IsLawfulHub, to};
ghost use Rattle.mm_connections.specs.Text.{Answers, MakesBy, Serves, part_of};
ghost use Rattle.mm_connections.specs.Begun.{aside_list};

use crate::begun::Begun;
use crate::counts::Counts;
use crate::line::{Said, said_of};
use crate::options::ConnectionOptions;
use crate::permission::{Permission, permission_of};
use crate::request::{ClientRequest, Heard};
use mm_lines::{Fault, OUTPUT_LEN, Output, print_number, print_text};
use mm_manager::LockManager;
use mm_service::reply::{MAX_NAMED, print_line};
use mm_service::{MAX_REQUEST, Numbers};
use std::io::Write;

/// A line to a connection has at most this many bytes, with its newline.
pub const MAX_ANSWER: usize = MAX_NAMED + 21;

/// A lock manager, with the connections that began its transactions.
#[derive(Drop)]
pub struct ServedManager {
    pub manager: LockManager,
    pub begun: Begun,
    pub counts: Counts,
    pub options: ConnectionOptions,
}

impl ServedManager {
    ghost use Rattle.mm_connections.specs.private.Served.{hub_of};

    /// Answers a line, and returns whether it is malformed. At a fault a part of what it is answered, and of what was not yet written, is lost.
    pub fn answer<W: Write>(
        &mut self,
        line: &[u8],
        numbers: &mut Numbers,
        output: &mut Output,
        writer: &mut W,
    ) -> Result<bool, Fault>
        requires room { array_vec_len output.old + MAX_ANSWER ≤ OUTPUT_LEN }
        requires lists { length self.old.begun.lists ≡ self.old.options.connections * 2 }
        requires slots { self.old.manager.table.config.processes ≤ length self.old.begun.spots }
        requires numbers { HasRoom self.old.manager numbers.old }
        ensures answered { (reply : List ℕ) × (one : ℕ) × (lost : List ℕ) × Answers (hub_of self.old) line.now reply one (hub_of self.new)
            × Writes (W.contents writer.old) (W.contents writer.new) (output.old.items ++ reply) lost
            × IfOk result (λ malformed. (one ≡ (if malformed then 1 else 0)) × (lost ≡ output.new.items)) }
        ensures fault { IsOkUnless result Fault.Write }
        ensures lists { length self.new.begun.lists ≡ length self.old.begun.lists }
        ensures spots { length self.new.begun.spots ≡ length self.old.begun.spots }
        ensures config { self.new.manager.table.config ≡ self.old.manager.table.config }
        ensures options { self.new.options ≡ self.old.options }
        ensures numbers { HasRoom self.new.manager numbers.new }
    {
        let named = said_of(self.options.connections, line);
        match named.said {
            Said::Nobody => Ok(true),
            Said::Malformed(connection) => {
                print_line_to(output, connection, b"malformed");
                Ok(true)
            }
            Said::HangsUp(connection) => {
                let outcome = self.hang_up(connection, output, writer);
                outcome.and(Ok(false))
            }
            Said::Asks(connection, request) => {
                let heard = Heard {
                    connection,
                    request,
                    name: named.name,
                };
                let outcome = self.serve(heard, numbers, output, writer);
                outcome.and(Ok(false))
            }
        }
    }

    /// Makes a request of a connection, if it may ask for that.
    fn serve<W: Write>(
        &mut self,
        heard: Heard<'_, ClientRequest>,
        numbers: &mut Numbers,
        output: &mut Output,
        writer: &mut W,
    ) -> Result<(), Fault>
        requires room { array_vec_len output.old + MAX_ANSWER ≤ OUTPUT_LEN }
        requires connection { aside_list heard.connection < length self.old.begun.lists }
        requires even { length self.old.begun.lists % 2 ≡ 0 }
        requires slots { self.old.manager.table.config.processes ≤ length self.old.begun.spots }
        requires numbers { HasRoom self.old.manager numbers.old }
        requires short { length heard.name.now ≤ MAX_REQUEST }
        ensures serves { (text : List ℕ) × (lost : List ℕ) × IsLawfulHub (hub_of self.old) × Serves heard.entry.connection heard.entry.request heard.entry.name.now (hub_of self.old) text (hub_of self.new)
            × Writes (W.contents writer.old) (W.contents writer.new) (output.old.items ++ text) lost × OnOk result (lost ≡ output.new.items) }
        ensures fault { IsOkUnless result Fault.Write }
        ensures lists { length self.new.begun.lists ≡ length self.old.begun.lists }
        ensures spots { length self.new.begun.spots ≡ length self.old.begun.spots }
        ensures config { self.new.manager.table.config ≡ self.old.manager.table.config }
        ensures options { self.new.options ≡ self.old.options }
        ensures numbers { HasRoom self.new.manager numbers.new }
    {
        self.manager.keeps_laws();
        self.begun.keeps_laws();
        match permission_of(&self.begun, heard.connection, heard.request) {
            Permission::Make => self.make_or_end(heard, numbers, output, writer),
            Permission::NoTransaction => {
                print_line_to(output, heard.connection, b"refused no-transaction");
                Ok(())
            }
            Permission::Operator => {
                print_line_to(output, heard.connection, b"refused operator");
                Ok(())
            }
        }
    }

    /// Makes a request, or ends a part of its transaction.
    fn make_or_end<W: Write>(
        &mut self,
        heard: Heard<'_, ClientRequest>,
        numbers: &mut Numbers,
        output: &mut Output,
        writer: &mut W,
    ) -> Result<(), Fault>
        requires room { array_vec_len output.old + MAX_ANSWER ≤ OUTPUT_LEN }
        requires connection { aside_list heard.connection < length self.old.begun.lists }
        requires even { length self.old.begun.lists % 2 ≡ 0 }
        requires slots { self.old.manager.table.config.processes ≤ length self.old.begun.spots }
        requires numbers { HasRoom self.old.manager numbers.old }
        requires short { length heard.name.now ≤ MAX_REQUEST }
        ensures makes { (text : List ℕ) × (lost : List ℕ) × MakesBy (part_of (hub_of self.old) heard.entry.request) heard.entry.connection heard.entry.request heard.entry.name.now (hub_of self.old) text (hub_of self.new)
            × Writes (W.contents writer.old) (W.contents writer.new) (output.old.items ++ text) lost × OnOk result (lost ≡ output.new.items) }
        ensures fault { IsOkUnless result Fault.Write }
        ensures lists { length self.new.begun.lists ≡ length self.old.begun.lists }
        ensures spots { length self.new.begun.spots ≡ length self.old.begun.spots }
        ensures config { self.new.manager.table.config ≡ self.old.manager.table.config }
        ensures options { self.new.options ≡ self.old.options }
        ensures numbers { HasRoom self.new.manager numbers.new }
    {
        match self.part_of(heard.request) {
            Some(key) => self.end_by_part(key, output, writer),
            None => {
                print_to(output, heard.connection);
                self.make(heard, numbers, output, writer)
            }
        }
    }
}

/// Prints the number of the connection that a line goes to.
pub(crate) fn print_to(output: &mut Output, connection: u32)
    requires { array_vec_len output.old + 21 ≤ OUTPUT_LEN }
    ensures { Prints output.old.items (decimal connection ++ codes " ") 21 output.new.items }
{
    print_number(output, b"", u64::from(connection));
    print_text(output, b" ");
}

/// Prints a short line to a connection.
fn print_line_to(output: &mut Output, connection: u32, text: &[u8])
    requires room { array_vec_len output.old + MAX_ANSWER ≤ OUTPUT_LEN }
    requires short { length text.now ≤ 128 }
    ensures { output.new.items ≡ output.old.items ++ to connection (line_text text.now) }
{
    print_to(output, connection);
    print_line(output, text);
}
