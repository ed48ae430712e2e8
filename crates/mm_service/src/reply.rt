//! How replies are printed, each with its newline.
ghost use Rattle.std.specs.Prelude.{◌≡◌, ◌≤◌, ◌+◌, ◌++◌, length, codes};
ghost use Rattle.arrayvec.specs.ArrayVec.{array_vec_len};
ghost use Rattle.mm_arena.specs.Key.{key_text};
ghost use Rattle.mm_lines.specs.Output.{Prints};
ghost use Rattle.mm_service.specs.Reply.{line_text, answer_text, begun_text, try_text, unlocked_text, committed_text, abort_text, cancel_text, owner_text, totals_text, status_text, wait_text, granted_text, edge_text, refusal_word, name_at};

use mm_limits::MAX_NAME_BYTES;
use mm_lines::{OUTPUT_LEN, Output, print_key, print_number, print_text};
use mm_manager::{Key, LockManager, Refusal, Status, Totals, TryLock};

/// A line about no name has at most this many bytes, with its newline.
pub const MAX_REPLY: usize = 128;

/// A line about a name has at most this many bytes, with its newline.
pub const MAX_NAMED: usize = 1_200;

/// A name has at most this many bytes.
pub const MAX_NAME: usize = MAX_NAME_BYTES as usize;

/// Ends a line.
pub fn end_line(output: &mut Output)
    requires { array_vec_len output.old + 1 ≤ OUTPUT_LEN }
    ensures { output.new.items ≡ output.old.items ++ codes "\n" }
{
    print_text(output, b"\n");
}

/// A line of this text.
pub fn print_line(output: &mut Output, text: &[u8])
    requires { array_vec_len output.old + length text.now + 1 ≤ OUTPUT_LEN }
    ensures { output.new.items ≡ output.old.items ++ line_text text.now }
{
    print_text(output, text);
    end_line(output);
}

fn print_refused(output: &mut Output, refusal: Refusal)
    requires { array_vec_len output.old + 40 ≤ OUTPUT_LEN }
    ensures { Prints output.old.items (codes "refused " ++ refusal_word refusal) 40 output.new.items }
{
    print_text(output, b"refused ");
    print_text(output, word_of(refusal));
}

/// A line that says why a request was refused.
pub fn print_refusal(output: &mut Output, refusal: Refusal)
    requires { array_vec_len output.old + MAX_REPLY ≤ OUTPUT_LEN }
    ensures { Prints output.old.items (line_text (codes "refused " ++ refusal_word refusal)) MAX_REPLY output.new.items }
{
    print_refused(output, refusal);
    end_line(output);
}

/// Returns the word that a refusal is printed as.
pub fn word_of(refusal: Refusal) -> &'static [u8]
    ensures word { result.now ≡ refusal_word refusal }
    ensures short { length result.now ≤ 17 }
{
    match refusal {
        Refusal::NoTransaction => b"no-transaction",
        Refusal::Waiting => b"waiting",
        Refusal::NameEmpty => b"name-empty",
        Refusal::NameTooLong => b"name-too-long",
        Refusal::NotOwner => b"not-owner",
        Refusal::NotWaiting => b"not-waiting",
        Refusal::TransactionsFull => b"transactions-full",
        Refusal::NamesFull => b"names-full",
        Refusal::TooManyNames => b"too-many-names",
        Refusal::LabelsFull => b"labels-full",
        Refusal::CountsFull => b"counts-full",
    }
}

pub fn print_begun(output: &mut Output, answer: &Result<Key, Refusal>)
    requires { array_vec_len output.old + MAX_REPLY ≤ OUTPUT_LEN }
    ensures { Prints output.old.items (line_text (answer_text begun_text answer.now)) MAX_REPLY output.new.items }
{
    match answer {
        Ok(key) => print_key(output, b"begun ", *key),
        Err(refusal) => print_refused(output, *refusal),
    }
    end_line(output);
}

/// A line that says for whom a transaction waits.
pub fn print_waits(output: &mut Output, holder: Key)
    requires { array_vec_len output.old + MAX_REPLY ≤ OUTPUT_LEN }
    ensures { Prints output.old.items (line_text (codes "waits " ++ key_text holder)) MAX_REPLY output.new.items }
{
    print_key(output, b"waits ", holder);
    end_line(output);
}

pub fn print_try(output: &mut Output, answer: &Result<TryLock, Refusal>)
    requires { array_vec_len output.old + MAX_REPLY ≤ OUTPUT_LEN }
    ensures { Prints output.old.items (line_text (answer_text try_text answer.now)) MAX_REPLY output.new.items }
{
    match answer {
        Ok(TryLock::Granted) => print_text(output, b"granted"),
        Ok(TryLock::Held) => print_text(output, b"held"),
        Ok(TryLock::Busy { holder }) => print_key(output, b"busy ", *holder),
        Err(refusal) => print_refused(output, *refusal),
    }
    end_line(output);
}

pub fn print_unlocked(output: &mut Output, answer: &Result<(), Refusal>)
    requires { array_vec_len output.old + MAX_REPLY ≤ OUTPUT_LEN }
    ensures { Prints output.old.items (line_text (answer_text unlocked_text answer.now)) MAX_REPLY output.new.items }
{
    match answer {
        Ok(()) => print_text(output, b"unlocked"),
        Err(refusal) => print_refused(output, *refusal),
    }
    end_line(output);
}

pub fn print_committed(output: &mut Output, answer: &Result<(), Refusal>)
    requires { array_vec_len output.old + MAX_REPLY ≤ OUTPUT_LEN }
    ensures { Prints output.old.items (line_text (answer_text committed_text answer.now)) MAX_REPLY output.new.items }
{
    match answer {
        Ok(()) => print_text(output, b"committed"),
        Err(refusal) => print_refused(output, *refusal),
    }
    end_line(output);
}

pub fn print_abort(output: &mut Output, answer: &Result<(), Refusal>)
    requires { array_vec_len output.old + MAX_REPLY ≤ OUTPUT_LEN }
    ensures { Prints output.old.items (line_text (answer_text abort_text answer.now)) MAX_REPLY output.new.items }
{
    match answer {
        Ok(()) => print_text(output, b"aborted"),
        Err(refusal) => print_refused(output, *refusal),
    }
    end_line(output);
}

pub fn print_cancel(output: &mut Output, answer: &Result<(), Refusal>)
    requires { array_vec_len output.old + MAX_REPLY ≤ OUTPUT_LEN }
    ensures { Prints output.old.items (line_text (answer_text cancel_text answer.now)) MAX_REPLY output.new.items }
{
    match answer {
        Ok(()) => print_text(output, b"cancelled"),
        Err(refusal) => print_refused(output, *refusal),
    }
    end_line(output);
}

pub fn print_owner(output: &mut Output, owner: Option<Key>)
    requires { array_vec_len output.old + MAX_REPLY ≤ OUTPUT_LEN }
    ensures { Prints output.old.items (line_text (owner_text owner)) MAX_REPLY output.new.items }
{
    match owner {
        None => print_text(output, b"free"),
        Some(key) => print_key(output, b"owner ", key),
    }
    end_line(output);
}

pub fn print_totals(output: &mut Output, totals: &Totals)
    requires { array_vec_len output.old + MAX_REPLY ≤ OUTPUT_LEN }
    ensures { Prints output.old.items (line_text (totals_text totals.now)) MAX_REPLY output.new.items }
{
    print_number(output, b"totals ", totals.begun);
    print_number(output, b" ", totals.committed);
    print_number(output, b" ", totals.aborted);
    print_number(output, b" ", totals.deadlocks);
    end_line(output);
}

/// Returns the name of a number; no bytes if it has none.
pub fn name_at(manager: &LockManager, number: u32) -> &[u8]
    ensures name { result.now ≡ name_at manager.now number }
    ensures short { length result.now ≤ MAX_NAME }
{
    manager.keeps_laws();
    manager.name(number).unwrap_or(b"")
}

/// A name and whose it is, after the transaction that waits for it.
fn print_wait(output: &mut Output, name: &[u8], holder: Key)
    requires room { array_vec_len output.old + 1070 ≤ OUTPUT_LEN }
    requires name { length name.now ≤ MAX_NAME }
    ensures { Prints output.old.items (wait_text name.now holder) 1070 output.new.items }
{
    print_text(output, b" ");
    print_text(output, name);
    print_key(output, b" ", holder);
}

pub fn print_status(output: &mut Output, manager: &LockManager, answer: &Result<Status, Refusal>)
    requires { array_vec_len output.old + MAX_NAMED ≤ OUTPUT_LEN }
    ensures { Prints output.old.items (line_text (answer_text (status_text manager.now) answer.now)) MAX_NAMED output.new.items }
{
    match answer {
        Ok(Status::Active) => print_text(output, b"active"),
        Ok(Status::Waiting { number, holder }) => {
            print_text(output, b"waiting");
            print_wait(output, name_at(manager, *number), *holder);
        }
        Err(refusal) => print_refused(output, *refusal),
    }
    end_line(output);
}

/// A line that says who was granted a name.
pub fn print_granted(output: &mut Output, key: Key, name: &[u8])
    requires room { array_vec_len output.old + MAX_NAMED ≤ OUTPUT_LEN }
    requires name { length name.now ≤ MAX_NAME }
    ensures { Prints output.old.items (line_text (granted_text key name.now)) MAX_NAMED output.new.items }
{
    print_key(output, b"* granted ", key);
    print_text(output, b" ");
    print_line(output, name);
}

/// A line of the wait-for graph.
pub fn print_edge(output: &mut Output, key: Key, name: &[u8], holder: Key)
    requires room { array_vec_len output.old + MAX_NAMED ≤ OUTPUT_LEN }
    requires name { length name.now ≤ MAX_NAME }
    ensures { Prints output.old.items (line_text (edge_text key name.now holder)) MAX_NAMED output.new.items }
{
    print_key(output, b"* ", key);
    print_wait(output, name, holder);
    end_line(output);
}
