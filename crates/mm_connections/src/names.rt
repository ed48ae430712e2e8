//! A request of several names.
ghost use Rattle.std.specs.Prelude.{◌≡◌, ◌≤◌, ◌<◌, ◌+◌, ◌++◌, ◌^◌, ℕ, List, length, drop, slice_index_or, codes, decimal, OnOk, IsOkUnless, if◌then◌else◌, []};
ghost use Rattle.arrayvec.specs.ArrayVec.{array_vec_len};
ghost use Rattle.mm_lines.specs.Output.{Prints, Writes};
ghost use Rattle.mm_lines.specs.Words.{words_of};
ghost use Rattle.mm_lines.specs.WordsLeft.{words_left};
ghost use Rattle.mm_service.specs.Reply.{line_text, refusal_word};
ghost use Rattle.mm_connections.specs.Text.{asked_name};
ghost use Rattle.mm_connections.specs.Names.{LocksNames, begun_with_text, is_of_transaction, reason_effect, reason_text, stop_effect, stop_of, stop_text};

use crate::request::ClientRequest;
use mm_lines::{Fault, OUTPUT_LEN, Output, Words, print_key, print_number, print_text};
use mm_manager::{Key, Lock, LockManager, Refusal};
use mm_service::reply::{MAX_REPLY, end_line, print_line, word_of};
use mm_service::{Effect, MAX_PAIRS, Walk, write_cycle};
use std::io::Write;

/// A name that stopped such a request.
#[derive(Clone, Copy)]
pub struct Stop {
    /// The place of the name, from 0. Those before it are owned, and those after it were not asked for.
    pub place: u64,
    pub reason: StopReason,
}

/// Why a name stopped such a request.
#[derive(Clone, Copy)]
pub enum StopReason {
    /// The holder owns it, and the transaction waits for it.
    Waits { holder: Key },
    /// The holder owns it, and a wait for it would have closed a cycle of waits.
    Deadlock { holder: Key },
    /// It was refused.
    Refused(Refusal),
}

/// Asks for these names, one after the other, and returns what stopped that, if anything did.
pub fn lock_names(manager: &mut LockManager, key: Key, names: &mut Words<'_>) -> Option<Stop>
    requires { length (words_left names.old) < 2 ^ 32 }
    ensures { LocksNames 0 key (words_left names.old) manager.old result manager.new }
{
    let mut place = 0u64;
    'name: while let Some(name) = names.next() {
        let answer = manager.lock(key, name);
        manager.keeps_laws();
        if let Some(reason) = stop_of(answer) {
            return Some(Stop { place, reason });
        }
        place += 1;
    }
    None
}

/// Returns why an answer stops such a request, if it does.
fn stop_of(answer: Result<Lock, Refusal>) -> Option<StopReason>
    ensures { result ≡ stop_of answer }
{
    match answer {
        Ok(Lock::Granted | Lock::Held) => None,
        Ok(Lock::Waits { holder }) => Some(StopReason::Waits { holder }),
        Ok(Lock::Deadlock { holder }) => Some(StopReason::Deadlock { holder }),
        Err(refusal) => Some(StopReason::Refused(refusal)),
    }
}

/// Returns what such a request came to beside its reply.
pub fn stop_effect(key: Key, stop: Option<Stop>) -> Effect
    ensures { result ≡ stop_effect key stop }
{
    match stop {
        Some(stop) => reason_effect(key, stop.place, stop.reason),
        None => Effect::Nothing,
    }
}

fn reason_effect(key: Key, place: u64, reason: StopReason) -> Effect
    ensures { result ≡ reason_effect key place reason }
{
    match reason {
        StopReason::Deadlock { holder } => Effect::Deadlock { key, holder, place },
        StopReason::Waits { .. } | StopReason::Refused(_) => Effect::Nothing,
    }
}

/// Writes the reply to a request of several names.
pub fn write_stop<W: Write>(
    manager: &LockManager,
    key: Key,
    stop: Option<Stop>,
    output: &mut Output,
    writer: &mut W,
) -> Result<(), Fault>
    requires { array_vec_len output.old + MAX_REPLY ≤ OUTPUT_LEN }
    ensures written { (lost : List ℕ) × Writes (W.contents writer.old) (W.contents writer.new) (output.old.items ++ line_text (stop_text manager.now key stop)) lost
        × OnOk result (lost ≡ output.new.items) }
    ensures fault { IsOkUnless result Fault.Write }
{
    match stop {
        Some(stop) => write_reason(manager, key, stop, output, writer),
        None => {
            print_line(output, b"granted");
            Ok(())
        }
    }
}

/// Writes the reply to a begin with names.
pub fn write_begun_with<W: Write>(
    manager: &LockManager,
    key: Key,
    stop: Option<Stop>,
    output: &mut Output,
    writer: &mut W,
) -> Result<(), Fault>
    requires { array_vec_len output.old + MAX_REPLY ≤ OUTPUT_LEN }
    ensures written { (lost : List ℕ) × Writes (W.contents writer.old) (W.contents writer.new) (output.old.items ++ line_text (begun_with_text manager.now key stop)) lost
        × OnOk result (lost ≡ output.new.items) }
    ensures fault { IsOkUnless result Fault.Write }
{
    print_key(output, b"begun ", key);
    match stop {
        Some(stop) => {
            print_text(output, b" ");
            write_reason(manager, key, stop, output, writer)
        }
        None => {
            end_line(output);
            Ok(())
        }
    }
}

/// Writes the rest of a line: why a name stopped the request of this transaction.
fn write_reason<W: Write>(
    manager: &LockManager,
    key: Key,
    stop: Stop,
    output: &mut Output,
    writer: &mut W,
) -> Result<(), Fault>
    requires { array_vec_len output.old + 80 ≤ OUTPUT_LEN }
    ensures written { (lost : List ℕ) × Writes (W.contents writer.old) (W.contents writer.new) (output.old.items ++ line_text (reason_text manager.now key stop.place stop.reason)) lost
        × OnOk result (lost ≡ output.new.items) }
    ensures fault { IsOkUnless result Fault.Write }
{
    match stop.reason {
        StopReason::Waits { holder } => {
            print_number(output, b"waits ", stop.place);
            print_key(output, b" ", holder);
            end_line(output);
            Ok(())
        }
        StopReason::Deadlock { holder } => {
            print_number(output, b"deadlock ", stop.place);
            let walk = Walk {
                requester: key,
                at: holder,
                left: MAX_PAIRS,
            };
            write_cycle(manager, walk, output, writer)
        }
        StopReason::Refused(refusal) => {
            print_refused(output, stop.place, refusal);
            end_line(output);
            Ok(())
        }
    }
}

/// Returns the name at this place among those that a request is about. `O(length)`.
pub fn asked_name(request: ClientRequest, about: &[u8], place: u64) -> &[u8]
    ensures name { result.now ≡ asked_name request about.now place }
    ensures short { length result.now ≤ length about.now }
{
    match request {
        ClientRequest::Begin => word_after(about, 1, place),
        ClientRequest::LockAll(_) => word_after(about, 2, place),
        ClientRequest::Plain(_) | ClientRequest::Read(_) => about,
    }
}

/// Returns the word at this place behind the first ones, of which this many are passed over; no bytes if there is none.
fn word_after(line: &[u8], passed: u64, place: u64) -> &[u8]
    ensures { result.now ≡ slice_index_or (drop passed (words_of line.now)) place [] }
{
    let mut words = Words::new(line);
    skip_words(&mut words, passed);
    skip_words(&mut words, place);
    words.next().unwrap_or(&[])
}

/// Takes this many words, if there are so many.
pub fn skip_words(words: &mut Words<'_>, count: u64)
    ensures { words_left words.new ≡ drop count (words_left words.old) }
{
    'word: for _ in 0..count {
        skip_word(words);
    }
}

/// Takes the next word, if there is one.
fn skip_word(words: &mut Words<'_>)
    ensures { words_left words.new ≡ drop 1 (words_left words.old) }
{
    let _word = words.next();
}

/// Prints why the name at this place was refused.
fn print_refused(output: &mut Output, place: u64, refusal: Refusal)
    requires { array_vec_len output.old + 79 ≤ OUTPUT_LEN }
    ensures { Prints output.old.items (codes "refused " ++ (if is_of_transaction refusal then [] else decimal place ++ codes " ") ++ refusal_word refusal) 79 output.new.items }
{
    print_text(output, b"refused ");
    if !is_of_transaction(refusal) {
        print_number(output, b"", place);
        print_text(output, b" ");
    }
    print_text(output, word_of(refusal));
}

/// Returns whether a refusal is of the transaction, whatever the name is.
fn is_of_transaction(refusal: Refusal) -> bool
    ensures { result ≡ is_of_transaction refusal }
{
    matches!(refusal, Refusal::NoTransaction | Refusal::Waiting)
}
