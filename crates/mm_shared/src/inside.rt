//! The value behind the lock of a shared table.
ghost use Rattle.std.specs.Prelude.{◌≡◌, ◌+◌, ◌≤◌, OnOk, IfOk, Ok, vec_capacity};
ghost use Rattle.mm_arena.specs.declared.key.Key.{Key};
ghost use Rattle.mm_board.specs.Views.{current_labels, label_at, new_seen, NoneFalls};
ghost use Rattle.mm_label.specs.Label.{Label};
ghost use Rattle.mm_rules.specs.Event.{Step, Begin, Acquire, Release, Finish, Transmit, Detect, Abort, GiveUp, Settle, state_of, owner_told, tenant_of};
ghost use Rattle.mm_rules.specs.Laws.{HasSoundVerdicts, Laws};
ghost use Rattle.mm_settle_lemmas.specs.Touched.{changed_processes};
ghost use Rattle.mm_shared.specs.Booked.{Booked};
ghost use Rattle.mm_shared.specs.Published.{AppendsOnly, IsPublished, holders_of};
ghost use Rattle.mm_counts.specs.Shares.{CountsEvent};

use crate::pass::Pass;
use crate::publish::{publish, publish_labels};
use mm_board::{Board, Name, Publisher};
use mm_counts::Report;
use mm_table::{Acquired, Detected, Key, Refusal, Released, Settled, State, Table, Transmitted};
use std::mem;
use std::sync::ledger::{Book, Ledger};

/// The value behind the lock: a table, the publisher of its board, and the books of three ledgers that count its accepted events, its
/// verdicts and its aborts.
///
/// In every value of this type the board shows each process's public label and holder, and the books equal the table's totals; and the
/// table keeps all laws of mm_rules by its own type. So all of this holds of each value that a thread finds behind the lock. Only
/// `Prepared::open` makes one.
#[derive(Drop)]
pub struct Inside<N: Name, A: Ledger, V: Ledger, B: Ledger> {
    table: Table,
    /// The one that stores on the board.
    publisher: Publisher<N>,
    /// The processes that the last release, finish, abort or settle changed, with room for all.
    changed: Vec<u32>,
    accepted: Book<A>,
    verdicts: Book<V>,
    aborts: Book<B>,
    ghost room: { table.config.processes ≤ vec_capacity changed },
    ghost published: { IsPublished publisher table },
    ghost booked: { Booked table.totals accepted.total verdicts.total aborts.total },
}

/// Each event is the one call of its name on the table; a shared call makes it under the lock. If it is accepted, the pass counts it,
/// with the verdicts that it gives and the abort that it is (`CountsEvent`); if it is refused, nothing changes.
///
/// Before an accepted event returns, it stores on the board what it changed of public labels and holders.
impl<N: Name, A: Ledger, V: Ledger, B: Ledger> Inside<N, A, V, B> {
    /// Returns the table, the publisher and the books that stand in a new shared table.
    pub(crate) fn new(
        table: Table,
        publisher: Publisher<N>,
        changed: Vec<u32>,
        accepted: Book<A>,
        verdicts: Book<V>,
        aborts: Book<B>,
    ) -> Inside<N, A, V, B>
        requires room { table.config.processes ≤ vec_capacity changed }
        requires published { IsPublished publisher table }
        requires booked { Booked table.totals accepted.total verdicts.total aborts.total }
        ensures { result.table ≡ table }
    {
        Inside {
            table,
            publisher,
            changed,
            accepted,
            verdicts,
            aborts,
        }
    }

    /// `Table::begin`: starts a transaction in the first free process, and returns its key.
    ///
    /// Refused as `CountsExhausted` or `Full`. Constant time.
    pub fn begin(&mut self, board: &Board<N>, pass: &mut Pass<N, A, V, B>) -> Result<Key, Refusal>
        ensures step { Step Begin self.old.table result self.new.table }
        ensures counts { CountsEvent Begin result pass.old pass.new }
        ensures appends { AppendsOnly self.old.publisher self.new.publisher self.new.table }
    {
        self.table.keeps_laws();
        let key = self.table.begin()?;
        pass.count_accepted(&mut self.accepted);
        Ok(key)
    }

    /// `Table::acquire`: grants a free resource; for an owned one the transaction waits, last in its queue, with a fresh label.
    /// If it waits, the board is then shown to the pass, which so has seen that label.
    ///
    /// Refused as `CountsExhausted`, `Stale`, `NoResource`, `Waiting`, `AlreadyOwns` or `LabelsExhausted`. Constant time.
    pub fn acquire(
        &mut self,
        board: &Board<N>,
        pass: &mut Pass<N, A, V, B>,
        key: Key,
        resource: u32,
    ) -> Result<Acquired, Refusal>
        ensures step { Step (Acquire key resource) self.old.table result self.new.table }
        ensures counts { CountsEvent (Acquire key resource) result pass.old pass.new }
        ensures seen { (holder : Key) (label : Label) → result ≡ Ok (Acquired.Waits holder label) → label_at pass.new.seen.labels key.process ≡ label }
        ensures shown { (holder : Key) (label : Label) → result ≡ Ok (Acquired.Waits holder label) → pass.new.seen ≡ new_seen (current_labels self.new.publisher) }
        ensures rises { NoneFalls pass.old.seen.labels pass.new.seen.labels }
        ensures appends { AppendsOnly self.old.publisher self.new.publisher self.new.table }
        ensures held { IfOk result (λ answer. self.new.publisher.holders_stored ≡ self.old.publisher.holders_stored + holders_of answer) }
    {
        self.table.keeps_laws();
        self.publisher.fits(board);
        let answer = self.table.acquire(key, resource)?;
        pass.count_accepted(&mut self.accepted);
        let Acquired::Waits { holder, label } = answer else {
            return Ok(answer);
        };
        let publisher = &mut self.publisher;
        publisher.store_label(board, key.process, label);
        publisher.store_holder(board, key.process, Some(holder.process));
        publisher.show(board, &mut pass.reader);
        Ok(answer)
    }

    /// `Table::release`: hands the resource over to its longest waiter, or frees it.
    ///
    /// Refused as `CountsExhausted`, `Stale`, `NoResource`, `Waiting`, `NotOwner` or `LabelsExhausted`. `O(waiters of the resource)`.
    pub fn release(
        &mut self,
        board: &Board<N>,
        pass: &mut Pass<N, A, V, B>,
        key: Key,
        resource: u32,
    ) -> Result<Released, Refusal>
        ensures step { Step (Release key resource) self.old.table result self.new.table }
        ensures counts { CountsEvent (Release key resource) result pass.old pass.new }
        ensures changed { self.new.changed.items ≡ changed_processes self.old.table self.new.table }
        ensures appends { AppendsOnly self.old.publisher self.new.publisher self.new.table }
    {
        self.table.keeps_laws();
        let answer = self.table.release_waking(key, resource, &mut self.changed)?;
        publish(&mut self.publisher, board, &self.table, &self.changed);
        pass.count_accepted(&mut self.accepted);
        Ok(answer)
    }

    /// `Table::finish`: ends the transaction, hands over all that it owns, and frees its process.
    ///
    /// Refused as `CountsExhausted`, `Stale`, `Waiting` or `LabelsExhausted`. `O(its resources + their waiters)`.
    pub fn finish(
        &mut self,
        board: &Board<N>,
        pass: &mut Pass<N, A, V, B>,
        key: Key,
    ) -> Result<(), Refusal>
        ensures step { Step (Finish key) self.old.table result self.new.table }
        ensures counts { CountsEvent (Finish key) result pass.old pass.new }
        ensures changed { self.new.changed.items ≡ changed_processes self.old.table self.new.table }
        ensures appends { AppendsOnly self.old.publisher self.new.publisher self.new.table }
    {
        self.table.keeps_laws();
        self.table.finish_waking(key, &mut self.changed)?;
        publish(&mut self.publisher, board, &self.table, &self.changed);
        pass.count_accepted(&mut self.accepted);
        Ok(())
    }

    /// `Table::transmit`: the waiting transaction takes over its holder's public label if that is greater.
    /// If it does, the board is then shown to the pass, which so has seen that label.
    ///
    /// Refused as `CountsExhausted`, `Stale` or `NotWaiting`. Constant time.
    pub fn transmit(
        &mut self,
        board: &Board<N>,
        pass: &mut Pass<N, A, V, B>,
        key: Key,
    ) -> Result<Transmitted, Refusal>
        ensures step { Step (Transmit key) self.old.table result self.new.table }
        ensures counts { CountsEvent (Transmit key) result pass.old pass.new }
        ensures seen { (label : Label) → result ≡ Ok (Transmitted.Raised label) → label_at pass.new.seen.labels key.process ≡ label }
        ensures shown { (label : Label) → result ≡ Ok (Transmitted.Raised label) → pass.new.seen ≡ new_seen (current_labels self.new.publisher) }
        ensures rises { NoneFalls pass.old.seen.labels pass.new.seen.labels }
        ensures appends { AppendsOnly self.old.publisher self.new.publisher self.new.table }
    {
        self.table.keeps_laws();
        self.publisher.fits(board);
        let answer = self.table.transmit(key)?;
        pass.count_accepted(&mut self.accepted);
        let Transmitted::Raised(label) = answer else {
            return Ok(answer);
        };
        self.publisher.store_label(board, key.process, label);
        self.publisher.show(board, &mut pass.reader);
        Ok(answer)
    }

    /// `Table::detect`: gives the waiting transaction a verdict if its two labels and its holder's public one are one label. The pass
    /// counts a new verdict, and not one that stands already.
    ///
    /// Refused as `CountsExhausted`, `Stale` or `NotWaiting`. Constant time.
    pub fn detect(
        &mut self,
        board: &Board<N>,
        pass: &mut Pass<N, A, V, B>,
        key: Key,
    ) -> Result<Detected, Refusal>
        ensures step { Step (Detect key) self.old.table result self.new.table }
        ensures counts { CountsEvent (Detect key) result pass.old pass.new }
        ensures appends { AppendsOnly self.old.publisher self.new.publisher self.new.table }
    {
        self.table.keeps_laws();
        let answer = self.table.detect(key)?;
        let new_verdicts = match answer {
            Detected::Deadlock(_) => 1,
            Detected::Standing => 0,
            Detected::Clear => 0,
        };
        pass.count_accepted(&mut self.accepted);
        pass.count_verdicts(&mut self.verdicts, new_verdicts);
        Ok(answer)
    }

    /// `Table::abort`: ends a transaction with a verdict, as `finish` ends an active one. The pass counts the abort.
    ///
    /// Refused as `CountsExhausted`, `Stale`, `NoVerdict` or `LabelsExhausted`. `O(its resources + their waiters)`.
    pub fn abort(
        &mut self,
        board: &Board<N>,
        pass: &mut Pass<N, A, V, B>,
        key: Key,
    ) -> Result<(), Refusal>
        ensures step { Step (Abort key) self.old.table result self.new.table }
        ensures counts { CountsEvent (Abort key) result pass.old pass.new }
        ensures changed { self.new.changed.items ≡ changed_processes self.old.table self.new.table }
        ensures appends { AppendsOnly self.old.publisher self.new.publisher self.new.table }
    {
        self.table.keeps_laws();
        self.table.abort_waking(key, &mut self.changed)?;
        publish(&mut self.publisher, board, &self.table, &self.changed);
        pass.count_accepted(&mut self.accepted);
        pass.count_abort(&mut self.aborts);
        Ok(())
    }

    /// `Table::give_up`: the transaction, which has no verdict and whose two labels are equal, waits no longer. It keeps its labels, and
    /// all others keep their places.
    ///
    /// Refused as `CountsExhausted`, `Stale`, `NotWaiting`, `UnderVerdict` or `Carried`. Constant time.
    pub fn give_up(
        &mut self,
        board: &Board<N>,
        pass: &mut Pass<N, A, V, B>,
        key: Key,
    ) -> Result<(), Refusal>
        ensures step { Step (GiveUp key) self.old.table result self.new.table }
        ensures counts { CountsEvent (GiveUp key) result pass.old pass.new }
        ensures appends { AppendsOnly self.old.publisher self.new.publisher self.new.table }
        ensures held { OnOk result (self.new.publisher.holders_stored ≡ self.old.publisher.holders_stored + 1) }
    {
        self.table.keeps_laws();
        self.publisher.fits(board);
        self.table.give_up(key)?;
        pass.count_accepted(&mut self.accepted);
        self.publisher.store_holder(board, key.process, None);
        Ok(())
    }

    /// `Table::settle`: transmits and detects for all that wait, until neither has anything left to do. The pass counts the new
    /// verdicts.
    ///
    /// Refused as `CountsExhausted`. It costs what `Table::settle` costs.
    pub fn settle(
        &mut self,
        board: &Board<N>,
        pass: &mut Pass<N, A, V, B>,
    ) -> Result<Settled, Refusal>
        ensures step { Step Settle self.old.table result self.new.table }
        ensures counts { CountsEvent Settle result pass.old pass.new }
        ensures changed { self.new.changed.items ≡ changed_processes self.old.table self.new.table }
        ensures appends { AppendsOnly self.old.publisher self.new.publisher self.new.table }
    {
        self.table.keeps_laws();
        let answer = self.table.settle_waking(&mut self.changed)?;
        publish_labels(&mut self.publisher, board, &self.table, &self.changed);
        pass.count_accepted(&mut self.accepted);
        pass.count_verdicts(&mut self.verdicts, answer.verdicts);
        Ok(answer)
    }

    /// `Table::state`: what the transaction does, and its two labels.
    ///
    /// Refused as `Stale`. Changes nothing and is not counted. Constant time.
    pub fn state(
        &mut self,
        board: &Board<N>,
        pass: &mut Pass<N, A, V, B>,
        key: Key,
    ) -> Result<State, Refusal>
        ensures answer { result ≡ state_of self.old.table key }
        ensures same { (self.new ≡ self.old) × (pass.new ≡ pass.old) }
    {
        self.table.state(key)
    }

    /// `Table::owner`: the key that owns the resource; `None` if it is free.
    ///
    /// Refused as `NoResource`. Changes nothing and is not counted. Constant time.
    pub fn owner(
        &mut self,
        board: &Board<N>,
        pass: &mut Pass<N, A, V, B>,
        resource: u32,
    ) -> Result<Option<Key>, Refusal>
        ensures answer { result ≡ owner_told self.old.table resource }
        ensures same { (self.new ≡ self.old) × (pass.new ≡ pass.old) }
    {
        self.table.owner(resource)
    }

    /// `Table::tenant`: the live key of the process; `None` if it has none, or is not one of the table's.
    ///
    /// Changes nothing and is not counted. Constant time.
    pub fn tenant(
        &mut self,
        board: &Board<N>,
        pass: &mut Pass<N, A, V, B>,
        process: u32,
    ) -> Option<Key>
        ensures answer { result ≡ tenant_of self.old.table process }
        ensures same { (self.new ≡ self.old) × (pass.new ≡ pass.old) }
    {
        self.table.tenant(process)
    }

    /// Changes the list of the processes that the last `release`, `finish`, `abort` or `settle` changed for another one, which has room for each
    /// process. Constant time.
    pub(crate) fn swap_changed(&mut self, board: &Board<N>, list: &mut Vec<u32>)
        requires room { board.now ≤ vec_capacity list.old }
        ensures list { list.new ≡ self.old.changed }
        ensures room { board.now ≤ vec_capacity list.new }
    {
        self.publisher.fits(board);
        mem::swap(&mut self.changed, list);
    }

    /// Returns what the table counted. For a pass of all parts, the table's totals, the books and the pass's shares are one and the same.
    ///
    /// Changes nothing. Constant time.
    pub fn report(&mut self, pass: &mut Pass<N, A, V, B>) -> Report
        requires all_parts { (pass.old.parts ≡ A.parts) × (pass.old.parts ≡ V.parts) × (pass.old.parts ≡ B.parts) }
        ensures table { (result.accepted ≡ self.old.table.totals.accepted) × (result.verdicts ≡ self.old.table.totals.verdicts) × (result.aborts ≡ self.old.table.totals.aborts) }
        ensures books { (result.accepted ≡ self.old.accepted.total) × (result.verdicts ≡ self.old.verdicts.total) × (result.aborts ≡ self.old.aborts.total) }
        ensures shares { (result.accepted ≡ pass.old.accepted) × (result.verdicts ≡ pass.old.verdicts) × (result.aborts ≡ pass.old.aborts) }
        ensures same { (self.new.table ≡ self.old.table) × (pass.new ≡ pass.old) }
    {
        pass.audit(&mut self.accepted, &mut self.verdicts, &mut self.aborts);
        let totals = self.table.totals();
        Report {
            accepted: totals.accepted,
            verdicts: totals.verdicts,
            aborts: totals.aborts,
        }
    }

    /// Does nothing. Its contract is what holds of any value behind the lock, after any calls of any threads: the table keeps all laws,
    /// so no owner or wait names a freed key, private labels are distinct, each standing verdict names a transaction on a cycle of waits
    /// whose private label is that cycle's greatest, and no cycle has two; the books equal the table's totals, and the board shows each
    /// public label and holder.
    pub fn keeps_laws(&self)
        ensures laws { Laws self.now.table }
        ensures sound { HasSoundVerdicts self.now.table }
        ensures booked { Booked self.now.table.totals self.now.accepted.total self.now.verdicts.total self.now.aborts.total }
        ensures published { IsPublished self.now.publisher self.now.table }
    {
        self.table.keeps_laws();
        self.table.verdicts_are_sound();
    }
}
