//! What a thread has of the ledgers of a shared table, and what it has seen of its board.
ghost use Rattle.std.specs.Prelude.{◌≡◌, ◌+◌, ◌<◌, ◌≤◌};
ghost use Rattle.mm_counts.specs.Shares.{empty_shares, joined, less_parts};

use crate::shared::SharedTable;
use mm_board::{Name, Reader};
use std::fmt;
use std::fmt::{Debug, Formatter};
use std::marker::Model;
use std::sync::ledger::{Book, Ledger, Share};

/// How many parts each ledger of a shared table has. The first pass has them all.
pub const ALL_PARTS: u64 = 1_048_576;

/// A thread's leave to call a shared table, which counts what its calls did.
///
/// A pass has parts of the table's three ledgers, and a share of each: the accepted events, the new verdicts and the accepted aborts of
/// the calls that were made with it. It also reads the table's board, and has seen a label of each process there. A contract sees these
/// four numbers and what was seen (`Shares`). Only the parts are there when the program runs.
///
/// The first pass comes from `Prepared::open`, and each other one is split off another. A pass that is dropped takes its parts along:
/// then no pass has all parts again, and the table cannot be closed.
pub struct Pass<N: Name, A: Ledger, V: Ledger, B: Ledger> {
    pub(crate) reader: Reader<N>,
    accepted: Share<A>,
    verdicts: Share<V>,
    aborts: Share<B>,
    parts: u64,
}

// By hand, so that a crate that drops a pass proves nothing of how its parts are dropped.
impl<N: Name, A: Ledger, V: Ledger, B: Ledger> Drop for Pass<N, A, V, B> {
    fn drop(self) {
        let Pass {
            reader: _,
            accepted: _,
            verdicts: _,
            aborts: _,
            parts: _,
        } = self;
    }
}

impl<N: Name, A: Ledger, V: Ledger, B: Ledger> Model for Pass<N, A, V, B> {
    ghost use Rattle.std.specs.Prelude.{◌≡◌, ◌<◌};
    ghost use Rattle.mm_counts.specs.Shares.{Shares};

    ghost Value = { Shares };

    ghost view = { λ p. record { parts = p.parts; accepted = p.accepted.amount; verdicts = p.verdicts.amount; aborts = p.aborts.amount; seen = p.reader } };

    ghost invariant = { λ p. (0 < p.parts) × (p.accepted.parts ≡ p.parts) × (p.verdicts.parts ≡ p.parts) × (p.aborts.parts ≡ p.parts) };
}

impl<N: Name, A: Ledger, V: Ledger, B: Ledger> Pass<N, A, V, B> {
    /// Returns a pass of this reader and these shares, each of which has this many parts.
    pub(crate) fn new(
        reader: Reader<N>,
        accepted: Share<A>,
        verdicts: Share<V>,
        aborts: Share<B>,
        parts: u64,
    ) -> Pass<N, A, V, B>
        requires some { 0 < parts }
        requires parts { (accepted.parts ≡ parts) × (verdicts.parts ≡ parts) × (aborts.parts ≡ parts) }
        ensures { result ≡ record { parts = parts; accepted = accepted.amount; verdicts = verdicts.amount; aborts = aborts.amount; seen = reader } }
    {
        Pass {
            reader,
            accepted,
            verdicts,
            aborts,
            parts,
        }
    }

    /// Returns how many parts of each ledger this pass has: 1 to `ALL_PARTS`. Constant time, and takes no lock.
    pub fn parts(&self) -> u64
        ensures { result ≡ self.now.parts }
    {
        self.parts
    }

    /// Gives some of its parts to a new pass, for another thread. The new pass has counted nothing, and has seen what this one has; what
    /// this one has counted stays with it, and so does at least one part.
    ///
    /// Constant time. It takes no lock and no memory.
    pub fn split(&mut self, table: &SharedTable<N, A, V, B>, parts: u64) -> Pass<N, A, V, B>
        requires { (1 ≤ parts) × (parts < self.old.parts) }
        ensures given { result ≡ empty_shares parts self.old.seen.labels }
        ensures kept { self.new ≡ less_parts self.old parts }
    {
        self.parts -= parts;
        let reader = self.reader.split(&table.board);
        let accepted = self.accepted.split_off(parts, 0);
        let verdicts = self.verdicts.split_off(parts, 0);
        let aborts = self.aborts.split_off(parts, 0);
        Pass::new(reader, accepted, verdicts, aborts, parts)
    }

    /// Takes in the parts and the shares of another pass. What that one has seen goes with it.
    ///
    /// Constant time. It takes no lock and no memory.
    pub fn join(&mut self, table: &SharedTable<N, A, V, B>, other: Pass<N, A, V, B>)
        ensures { self.new ≡ joined self.old other }
    {
        table.ledgers_have_all_parts();
        let Pass {
            reader: _,
            accepted,
            verdicts,
            aborts,
            parts,
        } = other;
        self.accepted.merge(accepted);
        self.verdicts.merge(verdicts);
        self.aborts.merge(aborts);
        self.parts += parts;
    }

    /// Counts one accepted event, in the book and in the pass.
    pub(crate) fn count_accepted(&mut self, book: &mut Book<A>)
        ensures book { book.new.total ≡ book.old.total + 1 }
        ensures share { self.new ≡ record self.old { accepted = self.old.accepted + 1 } }
    {
        book.add(&mut self.accepted, 1);
    }

    /// Counts new verdicts, in the book and in the pass.
    pub(crate) fn count_verdicts(&mut self, book: &mut Book<V>, verdicts: u64)
        ensures book { book.new.total ≡ book.old.total + verdicts }
        ensures share { self.new ≡ record self.old { verdicts = self.old.verdicts + verdicts } }
    {
        book.add(&mut self.verdicts, verdicts);
    }

    /// Counts one accepted abort, in the book and in the pass.
    pub(crate) fn count_abort(&mut self, book: &mut Book<B>)
        ensures book { book.new.total ≡ book.old.total + 1 }
        ensures share { self.new ≡ record self.old { aborts = self.old.aborts + 1 } }
    {
        book.add(&mut self.aborts, 1);
    }

    /// Changes nothing. A pass of all parts has counted what the books have.
    pub(crate) fn audit(
        &mut self,
        accepted: &mut Book<A>,
        verdicts: &mut Book<V>,
        aborts: &mut Book<B>,
    )
        requires { (self.old.parts ≡ A.parts) × (self.old.parts ≡ V.parts) × (self.old.parts ≡ B.parts) }
        ensures same { self.new ≡ self.old }
        ensures accepted { (accepted.new.total ≡ accepted.old.total) × (self.old.accepted ≡ accepted.old.total) }
        ensures verdicts { (verdicts.new.total ≡ verdicts.old.total) × (self.old.verdicts ≡ verdicts.old.total) }
        ensures aborts { (aborts.new.total ≡ aborts.old.total) × (self.old.aborts ≡ aborts.old.total) }
    {
        accepted.audit(&mut self.accepted);
        verdicts.audit(&mut self.verdicts);
        aborts.audit(&mut self.aborts);
    }
}

impl<N: Name, A: Ledger, V: Ledger, B: Ledger> Debug for Pass<N, A, V, B> {
    fn fmt<W: fmt::Write>(&self, f: &mut Formatter<W>) -> fmt::Result {
        f.debug_struct("Pass").field("parts", &self.parts).finish()
    }
}
