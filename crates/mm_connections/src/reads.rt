//! What a connection reads.
ghost use Rattle.std.specs.Prelude.{◌≡◌, ◌≤◌, ◌+◌, ◌++◌, ℕ, List, length, codes, decimal, nat_eq, OnOk, IsOkUnless};
ghost use Rattle.arrayvec.specs.ArrayVec.{array_vec_len};
ghost use Rattle.mm_lines.specs.Output.{Prints, Writes};
ghost use Rattle.mm_manager.specs.Reads.{live_of, waits_of};
ghost use Rattle.mm_service.specs.Holds.{HasRoom};
ghost use Rattle.mm_service.specs.Reply.{line_text};
ghost use Rattle.mm_connections.specs.Hub.{to};
ghost use Rattle.mm_connections.specs.Reads.{FenceText, ReadReply, connection_text, counts_text, doing_text, edge_lines, fence_by, graph_text, hello_text, list_text, live_line, live_lines};

use crate::request::{Heard, ReadRequest};
use crate::served::{MAX_ANSWER, ServedManager, print_to};
use mm_lines::{Fault, OUTPUT_LEN, Output, make_room, print_key, print_number, print_text};
use mm_manager::{Key, LockManager};
use mm_service::reply::{
    MAX_NAMED, MAX_REPLY, end_line, name_at, print_edge, print_line, print_status,
};
use mm_service::{Numbers, count_waits, write_holds};
use std::io::Write;

/// A line of a list has at most this many bytes.
const MAX_LIVE: usize = MAX_NAMED + 100;

impl ServedManager {
    ghost use Rattle.mm_connections.specs.private.Served.{hub_of};

    /// Reads something for a connection.
    pub(crate) fn read<W: Write>(
        &self,
        heard: Heard<'_, ReadRequest>,
        numbers: &mut Numbers,
        output: &mut Output,
        writer: &mut W,
    ) -> Result<(), Fault>
        requires room { array_vec_len output.old + MAX_NAMED ≤ OUTPUT_LEN }
        requires numbers { HasRoom self.now.manager numbers.old }
        ensures read { (text : List ℕ) × (lost : List ℕ) × ReadReply heard.entry.connection heard.entry.request heard.entry.name.now (hub_of self.now) text
            × Writes (W.contents writer.old) (W.contents writer.new) (output.old.items ++ text) lost × OnOk result (lost ≡ output.new.items) }
        ensures fault { IsOkUnless result Fault.Write }
        ensures numbers { HasRoom self.now.manager numbers.new }
    {
        let connection = heard.connection;
        match heard.request {
            ReadRequest::Holds(key) => {
                write_holds(&self.manager, numbers, key, heard.name, output, writer)
            }
            ReadRequest::Fence(key) => {
                self.print_fence(key, heard.name, output);
                Ok(())
            }
            ReadRequest::Status(key) => {
                self.print_doing(key, output);
                Ok(())
            }
            ReadRequest::Hello => {
                self.print_hello(output);
                Ok(())
            }
            ReadRequest::Graph => self.write_graph(connection, output, writer),
            ReadRequest::List => self.write_live(connection, output, writer),
            ReadRequest::Counts => {
                print_counts(&self.manager, output);
                Ok(())
            }
        }
    }

    /// Prints the fence of a name.
    fn print_fence(&self, key: Key, name: &[u8], output: &mut Output)
        requires { array_vec_len output.old + MAX_REPLY ≤ OUTPUT_LEN }
        ensures { (text : List ℕ) × FenceText (hub_of self.now) key name.now text × (output.new.items ≡ output.old.items ++ text) }
    {
        let owner = self.manager.owner(name);
        if self.manager.status(key).is_err() {
            print_line(output, b"refused no-transaction");
            return;
        }
        let Some(epoch) = self.options.epoch else {
            print_line(output, b"refused no-epoch");
            return;
        };
        if name.len() > self.manager.config().name_bytes as usize {
            print_line(output, b"refused name-too-long");
        } else if owner == Some(key) {
            print_number(output, b"fence ", epoch);
            print_number(output, b" ", self.manager.events());
            end_line(output);
        } else {
            print_line(output, b"refused not-owner");
        }
    }

    /// Prints the protocol, the epoch, and the numbers of the opening.
    fn print_hello(&self, output: &mut Output)
        requires { array_vec_len output.old + MAX_REPLY ≤ OUTPUT_LEN }
        ensures { output.new.items ≡ output.old.items ++ line_text (hello_text (hub_of self.now)) }
    {
        let config = self.manager.config();
        print_number(output, b"hello 2 ", self.options.epoch.unwrap_or(0));
        print_number(output, b" ", u64::from(config.transactions));
        print_number(output, b" ", u64::from(config.names));
        print_number(output, b" ", u64::from(config.name_bytes));
        end_line(output);
    }

    /// Writes how many transactions wait, and a line for each of them.
    fn write_graph<W: Write>(
        &self,
        connection: u32,
        output: &mut Output,
        writer: &mut W,
    ) -> Result<(), Fault>
        requires { array_vec_len output.old + MAX_REPLY ≤ OUTPUT_LEN }
        ensures written { (lost : List ℕ) × Writes (W.contents writer.old) (W.contents writer.new) (output.old.items ++ graph_text connection self.now.manager) lost
            × OnOk result (lost ≡ output.new.items) }
        ensures fault { IsOkUnless result Fault.Write }
    {
        print_number(output, b"graph ", count_waits(&self.manager));
        end_line(output);
        self.write_edges(connection, output, writer)
    }

    /// Writes a line for each wait.
    fn write_edges<W: Write>(
        &self,
        connection: u32,
        output: &mut Output,
        writer: &mut W,
    ) -> Result<(), Fault>
        ensures written { (lost : List ℕ) × Writes (W.contents writer.old) (W.contents writer.new) (output.old.items ++ edge_lines connection self.now.manager (waits_of self.now.manager.table)) lost
            × OnOk result (lost ≡ output.new.items) }
        ensures fault { IsOkUnless result Fault.Write }
    {
        for wait in self.manager.graph() {
            make_room(output, MAX_ANSWER, writer)?;
            print_to(output, connection);
            print_edge(
                output,
                wait.key,
                name_at(&self.manager, wait.number),
                wait.holder,
            );
        }
        Ok(())
    }

    /// Writes how many transactions are live, and a line for each of them.
    fn write_live<W: Write>(
        &self,
        connection: u32,
        output: &mut Output,
        writer: &mut W,
    ) -> Result<(), Fault>
        requires { array_vec_len output.old + MAX_REPLY ≤ OUTPUT_LEN }
        ensures written { (lost : List ℕ) × Writes (W.contents writer.old) (W.contents writer.new) (output.old.items ++ list_text connection (hub_of self.now)) lost
            × OnOk result (lost ≡ output.new.items) }
        ensures fault { IsOkUnless result Fault.Write }
    {
        print_number(output, b"list ", count_live(&self.manager));
        end_line(output);
        self.write_live_lines(connection, output, writer)
    }

    /// Writes a line for each live transaction.
    fn write_live_lines<W: Write>(
        &self,
        connection: u32,
        output: &mut Output,
        writer: &mut W,
    ) -> Result<(), Fault>
        ensures written { (lost : List ℕ) × Writes (W.contents writer.old) (W.contents writer.new) (output.old.items ++ live_lines connection (hub_of self.now) (live_of self.now.manager.table)) lost
            × OnOk result (lost ≡ output.new.items) }
        ensures fault { IsOkUnless result Fault.Write }
    {
        for key in self.manager.transactions() {
            make_room(output, MAX_LIVE, writer)?;
            print_to(output, connection);
            self.print_live(key, output);
        }
        Ok(())
    }

    /// Prints a transaction, its connection, and what it does.
    fn print_live(&self, key: Key, output: &mut Output)
        requires { array_vec_len output.old + (MAX_NAMED + 79) ≤ OUTPUT_LEN }
        ensures { output.new.items ≡ output.old.items ++ live_line (hub_of self.now) key }
    {
        print_key(output, b"* ", key);
        print_text(output, b" ");
        print_connection(output, self.begun.connection(key));
        print_text(output, b" ");
        self.print_doing(key, output);
    }

    /// Prints what a transaction does.
    fn print_doing(&self, key: Key, output: &mut Output)
        requires { array_vec_len output.old + MAX_NAMED ≤ OUTPUT_LEN }
        ensures { Prints output.old.items (line_text (doing_text (hub_of self.now) key)) MAX_NAMED output.new.items }
    {
        let status = self.manager.status(key);
        if status.is_ok() && self.begun.is_aside(key) {
            print_line(output, b"ending");
        } else {
            print_status(output, &self.manager, &status);
        }
    }
}

/// Prints the connection of a transaction, if it has one.
fn print_connection(output: &mut Output, connection: Option<u32>)
    requires { array_vec_len output.old + 20 ≤ OUTPUT_LEN }
    ensures { Prints output.old.items (connection_text connection) 20 output.new.items }
{
    match connection {
        Some(connection) => print_number(output, b"", u64::from(connection)),
        None => print_text(output, b"-"),
    }
}

/// Prints the totals, the events, and how many are left.
fn print_counts(manager: &LockManager, output: &mut Output)
    requires { array_vec_len output.old + MAX_NAMED ≤ OUTPUT_LEN }
    ensures { output.new.items ≡ output.old.items ++ line_text (counts_text manager.now) }
{
    let totals = manager.totals();
    print_number(output, b"counts ", totals.begun);
    print_number(output, b" ", totals.committed);
    print_number(output, b" ", totals.aborted);
    print_number(output, b" ", totals.deadlocks);
    print_number(output, b" ", totals.waits);
    print_number(output, b" ", totals.withdrawn);
    print_number(output, b" ", manager.events());
    print_number(output, b" ", manager.labels_left());
    print_number(output, b" ", manager.counts_left());
    end_line(output);
}

/// Returns how many transactions are live. `O(transactions)`.
fn count_live(manager: &LockManager) -> u64
    ensures { result ≡ length (live_of manager.now.table) }
{
    manager.keeps_laws();
    manager.transactions().count() as u64
}
