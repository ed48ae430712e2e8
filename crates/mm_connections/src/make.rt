//! Makes a request of a connection.
ghost use Rattle.std.specs.Prelude.{◌≡◌, ◌<◌, ◌≤◌, ◌+◌, ◌++◌, ℕ, List, Ok, length, drop, IfOk, OnOk, IsOkUnless, false};
ghost use Rattle.arrayvec.specs.ArrayVec.{array_vec_len};
ghost use Rattle.mm_lines.specs.Output.{Writes};
ghost use Rattle.mm_lines.specs.Words.{words_of};
ghost use Rattle.mm_service.specs.Holds.{HasRoom};
ghost use Rattle.mm_connections.specs.Hub.{IsLawfulHub};
ghost use Rattle.mm_connections.specs.Text.{Asks, AsksAll, BeginsBy, RepliesTo, events_text, full_refusal, is_full};
ghost use Rattle.mm_connections.specs.Begun.{aside_list};
ghost use Rattle.mm_connections.specs.Counts.{counted};
ghost use Rattle.mm_connections.specs.private.Made.{BeginsWith};

use crate::begun::Begun;
use crate::counts::Counts;
use crate::names::{lock_names, skip_words, stop_effect, write_begun_with, write_stop};
use crate::request::{ClientRequest, Heard};
use crate::served::ServedManager;
use mm_lines::{Fault, OUTPUT_LEN, Output, Words};
use mm_manager::{Key, LockManager, Refusal};
use mm_service::reply::{MAX_NAMED, print_begun};
use mm_service::{Asked, Effect, MAX_REQUEST, Numbers, make};
use std::io::Write;

impl ServedManager {
    ghost use Rattle.mm_connections.specs.private.Served.{hub_of};

    /// Makes a request of a connection, and writes what it caused to the connections that it concerns.
    pub(crate) fn make<W: Write>(
        &mut self,
        heard: Heard<'_, ClientRequest>,
        numbers: &mut Numbers,
        output: &mut Output,
        writer: &mut W,
    ) -> Result<(), Fault>
        requires room { array_vec_len output.old + MAX_NAMED ≤ OUTPUT_LEN }
        requires connection { aside_list heard.connection < length self.old.begun.lists }
        requires slots { self.old.manager.table.config.processes ≤ length self.old.begun.spots }
        requires numbers { HasRoom self.old.manager numbers.old }
        requires short { length heard.name.now ≤ MAX_REQUEST }
        ensures makes { (reply : List ℕ) × (effect : Effect) × (lost : List ℕ) × RepliesTo heard.entry.connection heard.entry.request heard.entry.name.now (hub_of self.old) reply effect (hub_of self.new) × IsLawfulHub (hub_of self.new)
            × Writes (W.contents writer.old) (W.contents writer.new) (output.old.items ++ (reply ++ events_text heard.entry.connection heard.entry.request heard.entry.name.now (hub_of self.new) effect)) lost × OnOk result (lost ≡ output.new.items) }
        ensures fault { IsOkUnless result Fault.Write }
        ensures lists { length self.new.begun.lists ≡ length self.old.begun.lists }
        ensures spots { length self.new.begun.spots ≡ length self.old.begun.spots }
        ensures config { self.new.manager.table.config ≡ self.old.manager.table.config }
        ensures options { self.new.options ≡ self.old.options }
        ensures numbers { HasRoom self.new.manager numbers.new }
    {
        let outcome = self.reply(heard, numbers, output, writer);
        self.manager.keeps_laws();
        self.begun.keeps_laws();
        match outcome {
            Ok(effect) => self.write_events(heard, effect, output, writer),
            Err(fault) => Err(fault),
        }
    }

    /// Makes a request of a connection, and writes its reply. Returns what else it came to.
    fn reply<W: Write>(
        &mut self,
        heard: Heard<'_, ClientRequest>,
        numbers: &mut Numbers,
        output: &mut Output,
        writer: &mut W,
    ) -> Result<Effect, Fault>
        requires room { array_vec_len output.old + MAX_NAMED ≤ OUTPUT_LEN }
        requires connection { aside_list heard.connection < length self.old.begun.lists }
        requires slots { self.old.manager.table.config.processes ≤ length self.old.begun.spots }
        requires numbers { HasRoom self.old.manager numbers.old }
        requires short { length heard.name.now ≤ MAX_REQUEST }
        ensures replies { (reply : List ℕ) × (effect : Effect) × (lost : List ℕ) × RepliesTo heard.entry.connection heard.entry.request heard.entry.name.now (hub_of self.old) reply effect (hub_of self.new)
            × Writes (W.contents writer.old) (W.contents writer.new) (output.old.items ++ reply) lost × IfOk result (λ it. (it ≡ effect) × (lost ≡ output.new.items)) }
        ensures fault { IsOkUnless result Fault.Write }
        ensures lists { length self.new.begun.lists ≡ length self.old.begun.lists }
        ensures spots { length self.new.begun.spots ≡ length self.old.begun.spots }
        ensures config { self.new.manager.table.config ≡ self.old.manager.table.config }
        ensures options { self.new.options ≡ self.old.options }
        ensures numbers { HasRoom self.new.manager numbers.new }
    {
        let name = heard.name;
        match heard.request {
            ClientRequest::Begin => self.begin(heard.connection, name, output, writer),
            ClientRequest::LockAll(key) => self.lock_all(key, name, output, writer),
            ClientRequest::Plain(request) => self.ask(
                Asked { request, name },
                numbers,
                output,
                writer,
            ),
            ClientRequest::Read(request) => {
                let outcome = self.read(heard.reading(request), numbers, output, writer);
                outcome.and(Ok(Effect::Nothing))
            }
        }
    }

    /// Makes a request that the lock service without connections has too.
    fn ask<W: Write>(
        &mut self,
        asked: Asked<'_>,
        numbers: &mut Numbers,
        output: &mut Output,
        writer: &mut W,
    ) -> Result<Effect, Fault>
        requires room { array_vec_len output.old + MAX_NAMED ≤ OUTPUT_LEN }
        requires numbers { HasRoom self.old.manager numbers.old }
        ensures replies { (reply : List ℕ) × (effect : Effect) × (lost : List ℕ) × Asks asked.entry.request asked.entry.name.now (hub_of self.old) reply effect (hub_of self.new)
            × Writes (W.contents writer.old) (W.contents writer.new) (output.old.items ++ reply) lost × IfOk result (λ it. (it ≡ effect) × (lost ≡ output.new.items)) }
        ensures fault { IsOkUnless result Fault.Write }
        ensures begun { self.new.begun ≡ self.old.begun }
        ensures config { self.new.manager.table.config ≡ self.old.manager.table.config }
        ensures options { self.new.options ≡ self.old.options }
        ensures numbers { HasRoom self.new.manager numbers.new }
    {
        let effect = make(&mut self.manager, numbers, asked, output, writer)?;
        count(&self.begun, &mut self.counts, effect);
        Ok(effect)
    }

    /// Lets a transaction ask for several names, and writes the reply. Returns what else it came to.
    fn lock_all<W: Write>(
        &mut self,
        key: Key,
        line: &[u8],
        output: &mut Output,
        writer: &mut W,
    ) -> Result<Effect, Fault>
        requires room { array_vec_len output.old + MAX_NAMED ≤ OUTPUT_LEN }
        requires short { length line.now ≤ MAX_REQUEST }
        ensures replies { (reply : List ℕ) × (effect : Effect) × (lost : List ℕ) × AsksAll key (drop 2 (words_of line.now)) (hub_of self.old) reply effect (hub_of self.new)
            × Writes (W.contents writer.old) (W.contents writer.new) (output.old.items ++ reply) lost × IfOk result (λ it. (it ≡ effect) × (lost ≡ output.new.items)) }
        ensures fault { IsOkUnless result Fault.Write }
        ensures begun { self.new.begun ≡ self.old.begun }
        ensures config { self.new.manager.table.config ≡ self.old.manager.table.config }
        ensures options { self.new.options ≡ self.old.options }
    {
        let mut names = Words::new(line);
        skip_words(&mut names, 2);
        let stop = lock_names(&mut self.manager, key, &mut names);
        let outcome = write_stop(&self.manager, key, stop, output, writer);
        outcome.and(Ok(stop_effect(key, stop)))
    }

    /// Begins a transaction for a connection, which asks for names, and writes the reply. Returns what else it came to.
    fn begin<W: Write>(
        &mut self,
        connection: u32,
        line: &[u8],
        output: &mut Output,
        writer: &mut W,
    ) -> Result<Effect, Fault>
        requires room { array_vec_len output.old + MAX_NAMED ≤ OUTPUT_LEN }
        requires connection { aside_list connection < length self.old.begun.lists }
        requires slots { self.old.manager.table.config.processes ≤ length self.old.begun.spots }
        requires short { length line.now ≤ MAX_REQUEST }
        ensures replies { (reply : List ℕ) × (effect : Effect) × (lost : List ℕ) × BeginsBy (is_full (hub_of self.old) connection) connection (drop 1 (words_of line.now)) (hub_of self.old) reply effect (hub_of self.new)
            × Writes (W.contents writer.old) (W.contents writer.new) (output.old.items ++ reply) lost × IfOk result (λ it. (it ≡ effect) × (lost ≡ output.new.items)) }
        ensures fault { IsOkUnless result Fault.Write }
        ensures lists { length self.new.begun.lists ≡ length self.old.begun.lists }
        ensures spots { length self.new.begun.spots ≡ length self.old.begun.spots }
        ensures config { self.new.manager.table.config ≡ self.old.manager.table.config }
        ensures options { self.new.options ≡ self.old.options }
    {
        let count = self.counts.of(connection);
        let each = self.options.each;
        if each <= count {
            print_begun(output, &Err(full_refusal(&self.manager)));
            return Ok(Effect::Nothing);
        }
        self.manager.keeps_laws();
        let answer = self.manager.begin();
        self.manager.keeps_laws();
        match answer {
            Ok(key) => {
                self.begun.begin(connection, key);
                self.counts.set(connection, count + 1);
                self.begin_with(key, line, output, writer)
            }
            Err(_) => {
                print_begun(output, &answer);
                Ok(Effect::Nothing)
            }
        }
    }

    /// Lets a transaction that began ask for names, and writes the reply. Returns what else it came to.
    fn begin_with<W: Write>(
        &mut self,
        key: Key,
        line: &[u8],
        output: &mut Output,
        writer: &mut W,
    ) -> Result<Effect, Fault>
        requires room { array_vec_len output.old + MAX_NAMED ≤ OUTPUT_LEN }
        requires short { length line.now ≤ MAX_REQUEST }
        ensures replies { (reply : List ℕ) × (effect : Effect) × (lost : List ℕ) × BeginsWith key (drop 1 (words_of line.now)) (hub_of self.old) reply effect (hub_of self.new)
            × Writes (W.contents writer.old) (W.contents writer.new) (output.old.items ++ reply) lost × IfOk result (λ it. (it ≡ effect) × (lost ≡ output.new.items)) }
        ensures fault { IsOkUnless result Fault.Write }
        ensures begun { self.new.begun ≡ self.old.begun }
        ensures config { self.new.manager.table.config ≡ self.old.manager.table.config }
        ensures options { self.new.options ≡ self.old.options }
    {
        let mut names = Words::new(line);
        skip_words(&mut names, 1);
        let stop = lock_names(&mut self.manager, key, &mut names);
        let outcome = write_begun_with(&self.manager, key, stop, output, writer);
        outcome.and(Ok(stop_effect(key, stop)))
    }
}

/// Returns why a begin is refused of a connection that has as many transactions as it may have.
fn full_refusal(manager: &LockManager) -> Refusal
    ensures { result ≡ full_refusal manager.now }
{
    if manager.counts_left() == 0 {
        Refusal::CountsFull
    } else {
        Refusal::TransactionsFull
    }
}

/// Counts a transaction no longer that ended.
fn count(begun: &Begun, counts: &mut Counts, effect: Effect)
    ensures { counts.new ≡ counted begun.now counts.old effect }
{
    match effect {
        Effect::Ended(key) => {
            if let Some(connection) = begun.connection(key) {
                counts.remove(connection);
            }
        }
        Effect::Nothing | Effect::Deadlock { .. } | Effect::EndedWaits => {}
    }
}
