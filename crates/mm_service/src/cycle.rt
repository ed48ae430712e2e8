//! The reply to a lock, and the cycle of waits that a request would have closed, as it is told.
ghost use Rattle.std.specs.Prelude.{◌≡◌, ◌≤◌, ◌+◌, ◌++◌, ℕ, List, length, OnOk, IsOkUnless};
ghost use Rattle.arrayvec.specs.ArrayVec.{array_vec_len};
ghost use Rattle.mm_lines.specs.Output.{Prints, Writes};
ghost use Rattle.mm_service.specs.Cycle.{lock_text, pair_text, pairs_text};
ghost use Rattle.mm_service.specs.Reply.{answer_text, line_text};

use crate::line::MAX_REQUEST;
use crate::reply::{
    MAX_NAMED, MAX_REPLY, end_line, name_at, print_line, print_refusal, print_waits,
};
use mm_lines::{Fault, OUTPUT_LEN, Output, make_room, print_key, print_text};
use mm_manager::{Key, Lock, LockManager, Refusal};
use std::io::Write;

/// How many transactions of a cycle are told.
pub const MAX_PAIRS: u32 = 16;

/// A walk along the waits: it is at one transaction, and ends at one that waits for the requester, or after `left` more.
#[derive(Clone, Copy)]
pub struct Walk {
    pub requester: Key,
    pub at: Key,
    pub left: u32,
}

/// Writes the reply to a lock of this transaction.
pub fn write_lock<W: Write>(
    manager: &LockManager,
    key: Key,
    answer: &Result<Lock, Refusal>,
    output: &mut Output,
    writer: &mut W,
) -> Result<(), Fault>
    requires { array_vec_len output.old + MAX_REPLY ≤ OUTPUT_LEN }
    ensures written { (lost : List ℕ) × Writes (W.contents writer.old) (W.contents writer.new) (output.old.items ++ line_text (answer_text (lock_text manager.now key) answer.now)) lost
        × OnOk result (lost ≡ output.new.items) }
    ensures fault { IsOkUnless result Fault.Write }
{
    match answer {
        Ok(Lock::Granted) => {
            print_line(output, b"granted");
            Ok(())
        }
        Ok(Lock::Held) => {
            print_line(output, b"held");
            Ok(())
        }
        Ok(Lock::Waits { holder }) => {
            print_waits(output, *holder);
            Ok(())
        }
        Ok(Lock::Deadlock { holder }) => {
            print_text(output, b"deadlock");
            let walk = Walk {
                requester: key,
                at: *holder,
                left: MAX_PAIRS,
            };
            write_cycle(manager, walk, output, writer)
        }
        Err(refusal) => {
            print_refusal(output, *refusal);
            Ok(())
        }
    }
}

/// Writes the rest of a line: the transactions of a walk, each with the name that it waits for.
pub fn write_cycle<W: Write>(
    manager: &LockManager,
    walk: Walk,
    output: &mut Output,
    writer: &mut W,
) -> Result<(), Fault>
    ensures written { (lost : List ℕ) × Writes (W.contents writer.old) (W.contents writer.new) (output.old.items ++ line_text (pairs_text walk.left manager.now walk.requester walk.at)) lost
        × OnOk result (lost ≡ output.new.items) }
    ensures fault { IsOkUnless result Fault.Write }
{
    walk.write_pairs(manager, output, writer)?;
    make_room(output, 1, writer)?;
    end_line(output);
    Ok(())
}

impl Walk {
    /// Writes the transactions of the walk.
    fn write_pairs<W: Write>(
        self,
        manager: &LockManager,
        output: &mut Output,
        writer: &mut W,
    ) -> Result<(), Fault>
        ensures written { (lost : List ℕ) × Writes (W.contents writer.old) (W.contents writer.new) (output.old.items ++ pairs_text self.left manager.now self.requester self.at) lost
            × OnOk result (lost ≡ output.new.items) }
        ensures fault { IsOkUnless result Fault.Write }
    {
        make_room(output, MAX_NAMED, writer)?;
        if self.left == 0 {
            print_text(output, b" ..");
            return Ok(());
        }
        let Some(wait) = manager.wait_at(self.at.process) else {
            return Ok(());
        };
        print_pair(output, self.at, name_at(manager, wait.number));
        if wait.holder == self.requester {
            return Ok(());
        }
        let next = Walk {
            at: wait.holder,
            left: self.left - 1,
            ..self
        };
        next.write_pairs(manager, output, writer)
    }
}

/// Prints a transaction, and the name that it asks or waits for.
pub fn print_pair(output: &mut Output, key: Key, name: &[u8])
    requires room { array_vec_len output.old + MAX_NAMED ≤ OUTPUT_LEN }
    requires name { length name.now ≤ MAX_REQUEST }
    ensures { Prints output.old.items (pair_text key name.now) MAX_NAMED output.new.items }
{
    print_key(output, b" ", key);
    print_text(output, b" ");
    print_text(output, name);
}
