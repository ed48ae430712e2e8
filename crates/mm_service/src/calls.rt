//! Makes a request, and writes its reply and what it caused for others.
ghost use Rattle.std.specs.Prelude.{◌≡◌, ◌≤◌, ◌+◌, ◌++◌, ℕ, List, MatchResult, OnOk, IsOkUnless};
ghost use Rattle.arrayvec.specs.ArrayVec.{array_vec_len};
ghost use Rattle.mm_lines.specs.Output.{Writes};
ghost use Rattle.mm_service.specs.Holds.{HasRoom};
ghost use Rattle.mm_service.specs.Text.{AnswersRequest, EndsNobody, Replies, RepliesKey, RepliesName, end_effect, lock_effect};

use crate::cycle::write_lock;
use crate::effect::Effect;
use crate::holds::{Numbers, write_holds};
use crate::line::{Asked, Request};
use crate::lists::{write_effect, write_graph};
use crate::reply::{
    MAX_NAMED, MAX_REPLY, print_abort, print_begun, print_cancel, print_committed, print_owner,
    print_status, print_totals, print_try, print_unlocked,
};
use crate::requests::{KeyRequest, NameRequest};
use mm_lines::{Fault, OUTPUT_LEN, Output};
use mm_manager::{Key, Lock, LockManager, Refusal};
use std::io::Write;

/// Makes a request, and writes its reply and what it caused for others.
pub fn answer_request<W: Write>(
    manager: &mut LockManager,
    numbers: &mut Numbers,
    asked: Asked<'_>,
    output: &mut Output,
    writer: &mut W,
) -> Result<(), Fault>
    requires room { array_vec_len output.old + MAX_NAMED ≤ OUTPUT_LEN }
    requires numbers { HasRoom manager.old numbers.old }
    ensures answered { (text : List ℕ) × (lost : List ℕ) × AnswersRequest asked.entry.request asked.entry.name.now manager.old text manager.new
        × Writes (W.contents writer.old) (W.contents writer.new) (output.old.items ++ text) lost × OnOk result (lost ≡ output.new.items) }
    ensures fault { IsOkUnless result Fault.Write }
    ensures numbers { HasRoom manager.new numbers.new }
{
    match make(manager, numbers, asked, output, writer) {
        Ok(effect) => write_effect(manager, effect, output, writer),
        Err(fault) => Err(fault),
    }
}

/// Makes a request, and writes its reply. Returns what else it came to. If its reply could not be written, it ended no transaction.
pub fn make<W: Write>(
    manager: &mut LockManager,
    numbers: &mut Numbers,
    asked: Asked<'_>,
    output: &mut Output,
    writer: &mut W,
) -> Result<Effect, Fault>
    requires room { array_vec_len output.old + MAX_NAMED ≤ OUTPUT_LEN }
    requires numbers { HasRoom manager.old numbers.old }
    ensures replies { (text : List ℕ) × (effect : Effect) × (lost : List ℕ) × Replies asked.entry.request asked.entry.name.now manager.old text effect manager.new
        × Writes (W.contents writer.old) (W.contents writer.new) (output.old.items ++ text) lost × MatchResult result (λ it. (it ≡ effect) × (lost ≡ output.new.items)) (λ _. EndsNobody effect) }
    ensures fault { IsOkUnless result Fault.Write }
    ensures numbers { HasRoom manager.new numbers.new }
{
    match asked.request {
        Request::Begin => {
            print_begun(output, &manager.begin());
            Ok(Effect::Nothing)
        }
        Request::OfName(request, key) => {
            write_of_name(manager, request, key, asked.name, output, writer)
        }
        Request::OfKey(request, key) => Ok(reply_of_key(manager, request, key, output)),
        Request::Holds(key) => {
            write_holds(manager, numbers, key, asked.name, output, writer)?;
            Ok(Effect::Nothing)
        }
        Request::Owner => {
            print_owner(output, manager.owner(asked.name));
            Ok(Effect::Nothing)
        }
        Request::Graph => {
            write_graph(manager, output, writer)?;
            Ok(Effect::Nothing)
        }
        Request::Totals => {
            print_totals(output, &manager.totals());
            Ok(Effect::Nothing)
        }
    }
}

/// Makes a request of a transaction and a name, and writes its reply. Returns what else it came to.
fn write_of_name<W: Write>(
    manager: &mut LockManager,
    request: NameRequest,
    key: Key,
    name: &[u8],
    output: &mut Output,
    writer: &mut W,
) -> Result<Effect, Fault>
    requires { array_vec_len output.old + MAX_REPLY ≤ OUTPUT_LEN }
    ensures replies { (reply : List ℕ) × (effect : Effect) × (lost : List ℕ) × RepliesName request key name.now manager.old reply effect manager.new
        × Writes (W.contents writer.old) (W.contents writer.new) (output.old.items ++ reply) lost × MatchResult result (λ it. (it ≡ effect) × (lost ≡ output.new.items)) (λ _. EndsNobody effect) }
    ensures fault { IsOkUnless result Fault.Write }
{
    match request {
        NameRequest::Lock => {
            let answer = manager.lock(key, name);
            let outcome = write_lock(manager, key, &answer, output, writer);
            outcome.and(Ok(lock_effect(key, &answer)))
        }
        NameRequest::Try => {
            print_try(output, &manager.try_lock(key, name));
            Ok(Effect::Nothing)
        }
        NameRequest::Unlock => {
            print_unlocked(output, &manager.unlock(key, name));
            Ok(Effect::EndedWaits)
        }
    }
}

/// Returns what a lock came to beside its reply.
fn lock_effect(key: Key, answer: &Result<Lock, Refusal>) -> Effect
    ensures { result ≡ lock_effect key answer.now }
{
    match answer {
        Ok(Lock::Deadlock { holder }) => Effect::Deadlock {
            key,
            holder: *holder,
            place: 0,
        },
        Ok(Lock::Granted | Lock::Held | Lock::Waits { .. }) | Err(_) => Effect::Nothing,
    }
}

/// Makes a request of a transaction, and prints its reply. Returns what else it came to.
fn reply_of_key(
    manager: &mut LockManager,
    request: KeyRequest,
    key: Key,
    output: &mut Output,
) -> Effect
    requires { array_vec_len output.old + MAX_NAMED ≤ OUTPUT_LEN }
    ensures { (reply : List ℕ) × RepliesKey request key manager.old reply result manager.new × (output.new.items ≡ output.old.items ++ reply) }
{
    match request {
        KeyRequest::Commit => {
            let answer = manager.commit(key);
            print_committed(output, &answer);
            end_effect(key, &answer)
        }
        KeyRequest::Abort => {
            let answer = manager.abort(key);
            print_abort(output, &answer);
            end_effect(key, &answer)
        }
        KeyRequest::Cancel => {
            print_cancel(output, &manager.cancel(key));
            Effect::Nothing
        }
        KeyRequest::Status => {
            print_status(output, manager, &manager.status(key));
            Effect::Nothing
        }
    }
}

/// Returns what a commit or an abort came to beside its reply.
fn end_effect(key: Key, answer: &Result<(), Refusal>) -> Effect
    ensures { result ≡ end_effect key answer.now }
{
    match answer {
        Ok(()) => Effect::Ended(key),
        Err(_) => Effect::Nothing,
    }
}
