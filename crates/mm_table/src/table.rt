ghost use Rattle.std.specs.Prelude.{◌≡◌, ◌≢◌, ◌≤◌, ◌<◌, ◌^◌, ◌↔◌, ◌||◌, ℕ, Ok, Some, false, IsTrue, length, replicate, IfOk, IfErr, IfSome, IfNone, MatchOption, None, OnOk, vec_capacity};
ghost use Rattle.mm_lists.specs.Members.{Among, NoRepeat};
ghost use Rattle.mm_bit_set.specs.BitSet.{has, members};
ghost use Rattle.mm_rules.specs.Adopt.{Adopts};
ghost use Rattle.mm_rules.specs.TableState.{IsWide, is_live, owned_count, has_verdict, opening, owner_of, public_of, holder_of, wait_of};
ghost use Rattle.mm_rules.specs.Change.{take_back};
ghost use Rattle.mm_rules.specs.Event.{Opens, OpensWide, Step, Begin, Acquire, Release, Finish, Transmit, Detect, Abort, GiveUp, Settle, allowed, resource_tests, state_of, owner_told, tenant_of};
ghost use Rattle.mm_rules.specs.declared.reply.Acquired.TheVariants as Acquired;
ghost use Rattle.mm_rules.specs.Laws.{Laws, AtRest, HasSoundVerdicts};
ghost use Rattle.mm_rules.specs.Withdraw.{Withdraws};
ghost use Rattle.mm_settle_lemmas.specs.Touched.{changed_processes};

use crate::records::Records;
use crate::sets::Sets;
use crate::{
    Acquired, Config, Detected, Key, Label, Refusal, Released, Settled, State, Totals, Transmitted,
};
use std::alloc::Global;
use std::marker::Model;

/// What a settle answers that raises no label and gives no verdict. It touches nobody.
const NOTHING: Settled = Settled {
    raises: 0,
    verdicts: 0,
};

/// A table of exclusive locks for transactions.
///
/// A contract sees it as a `TableState` (`specs/TableState.antt` of mm_rules). Each call is one event, or a read, by the definitions of
/// `specs/Event.antt` of mm_rules: these give the reply, the refusal and the new state. A refused call changes nothing, and the refusals
/// that a call can give stand in the order in which they are tested. No call but `open` takes memory.
pub struct Table {
    records: Records,
    sets: Sets,
}

// By hand, so that a crate that drops a table proves nothing of how its parts are dropped.
impl Drop for Table {
    fn drop(self) {
        let Table {
            records: _,
            sets: _,
        } = self;
    }
}

impl Model for Table {
    ghost use Rattle.mm_rules.specs.TableState.{TableState};
    ghost use Rattle.mm_table.specs.private.Table.{IsLawfulTable};

    ghost Value = { TableState };

    ghost view = { λ t. t.records };

    ghost invariant = { IsLawfulTable };
}

impl Table {
    /// Returns a table of this configuration, which has no transaction, and in which no resource has an owner.
    ///
    /// Refused as `BadConfig` exactly if a number is out of its range, and as `Memory` only if a request for memory was
    /// refused. This is the one call that takes memory: for the transactions, for the labels, for what is kept of each resource,
    /// for the first resource of each process, for the waits, and for four sets of processes in bits.
    pub fn open(alloc: Global, config: Config) -> Result<Table, Refusal>
        ensures { Opens config result }
    {
        if !config.is_in_range() {
            return Err(Refusal::BadConfig);
        }
        Table::open_in_range(alloc, config)
    }

    /// `open`, of a table with up to 16,777,216 resources.
    pub fn open_wide(alloc: Global, config: Config) -> Result<Table, Refusal>
        ensures { OpensWide config result }
    {
        if !config.is_wide() {
            return Err(Refusal::BadConfig);
        }
        Table::open_in_range(alloc, config)
    }

    /// `open_wide`, if each number is in its range: only a request for memory can be refused.
    fn open_in_range(alloc: Global, config: Config) -> Result<Table, Refusal>
        requires { IsWide config }
        ensures opened { IfOk result (λ table. table ≡ opening config) }
        ensures memory { IfErr result (λ refusal. refusal ≡ Refusal.Memory) }
    {
        let records = Records::open(alloc, config)?;
        let Ok(sets) = Sets::open(alloc, config.processes) else {
            return Err(Refusal::Memory);
        };
        Ok(Table { records, sets })
    }

    /// Starts a transaction in the first free process, and returns its key. The labels of the process stay as they are.
    ///
    /// Refused as `CountsExhausted` or `Full`. Constant time.
    #[inline(always)]
    pub fn begin(&mut self) -> Result<Key, Refusal>
        ensures { Step Begin self.old result self.new }
    {
        self.records.begin()
    }

    /// Grants a free resource; for an owned one the transaction waits, last in its queue, with a fresh label against the owner.
    ///
    /// Refused as `CountsExhausted`, `Stale`, `NoResource`, `Waiting`, `AlreadyOwns` or `LabelsExhausted`. Constant time.
    /// That a block makes a label greater than both is Mitchell and Merritt's rule; the formula is this project's.
    #[inline]
    pub fn acquire(&mut self, key: Key, resource: u32) -> Result<Acquired, Refusal>
        ensures { Step (Acquire key resource) self.old result self.new }
    {
        self.records.acquire(key, resource, &mut self.sets.changed)
    }

    /// `acquire` of a resource that nobody owns, by a key that may use it: so nothing is tested. Constant time.
    #[inline(always)]
    pub fn grant_free(&mut self, key: Key, resource: u32)
        requires passed { allowed (resource_tests self.old key resource) ≡ Ok tt }
        requires process { key.process < self.old.config.processes }
        requires resource { resource < self.old.config.resources }
        requires count { self.old.totals.accepted < 2 ^ 62 }
        requires free { owner_of self.old resource ≡ None }
        ensures { Step (Acquire key resource) self.old (Ok Acquired.Granted) self.new }
    {
        self.keeps_laws();
        self.records.grant_free(key, resource);
    }

    /// Makes a live transaction, also one that waits, the owner of a resource that nobody owns. It is no event, so nothing is counted: nobody
    /// waits for the resource, so no wait, no label and no verdict changes. Constant time.
    pub fn adopt(&mut self, key: Key, resource: u32)
        requires live { IsTrue (is_live self.old key) }
        requires resource { resource < self.old.config.resources }
        requires free { owner_of self.old resource ≡ None }
        ensures { Adopts key resource self.old self.new }
    {
        self.keeps_laws();
        self.records.grant(key, resource);
    }

    /// Hands the resource over: the longest waiter owns it from now on, and each other waiter keeps its place and gets a fresh
    /// label against the new owner; with no waiter it is free.
    ///
    /// Refused as `CountsExhausted`, `Stale`, `NoResource`, `Waiting`, `NotOwner` or `LabelsExhausted`. `O(waiters of the resource)`.
    /// The rule is this project's.
    pub fn release(&mut self, key: Key, resource: u32) -> Result<Released, Refusal>
        ensures { Step (Release key resource) self.old result self.new }
    {
        self.records.release(key, resource, &mut self.sets.changed)
    }

    /// `release`, which also lists the processes to wake: `wake` then has, in place of what it had, all processes whose labels, wait, holder or
    /// verdict the call changed, each once, in ascending order. These are the new owner and the waiters after it, with their new labels;
    /// none if the call is refused. `wake` has room for each process, and no memory is taken.
    ///
    /// A caller goes on from each of them by its key (`tenant`) and what it does now (`state`): one that is active was given the resource.
    ///
    /// Refused as `release` is. `O(waiters of the resource)`.
    pub fn release_waking(
        &mut self,
        key: Key,
        resource: u32,
        wake: &mut Vec<u32>,
    ) -> Result<Released, Refusal>
        requires room { self.old.config.processes ≤ vec_capacity wake.old }
        ensures step { Step (Release key resource) self.old result self.new }
        ensures woken { wake.new.items ≡ changed_processes self.old self.new }
        ensures room { vec_capacity wake.new ≡ vec_capacity wake.old }
    {
        let answer = self.records.release(key, resource, &mut self.sets.touched);
        self.sets.touched.move_all(&mut self.sets.changed, wake);
        answer
    }

    /// Ends the transaction: hands over all that it owns, each resource as `release` does, and frees its process. The process is the next
    /// to be given again, under the next generation; at the last generation it is retired, and never given again.
    ///
    /// Refused as `CountsExhausted`, `Stale`, `Waiting` or `LabelsExhausted`; the last is tested for all of its resources before
    /// anything changes. `O(its resources + their waiters)`. The rule is this project's.
    pub fn finish(&mut self, key: Key) -> Result<(), Refusal>
        ensures { Step (Finish key) self.old result self.new }
    {
        self.records.finish(key, &mut self.sets.changed)
    }

    /// `finish`, which also lists the processes to wake, as `release_waking` does: those that waited for what the transaction owned.
    ///
    /// Refused as `finish` is. `O(its resources + their waiters)`.
    #[inline(always)]
    pub fn finish_waking(&mut self, key: Key, wake: &mut Vec<u32>) -> Result<(), Refusal>
        requires room { self.old.config.processes ≤ vec_capacity wake.old }
        ensures step { Step (Finish key) self.old result self.new }
        ensures woken { wake.new.items ≡ changed_processes self.old self.new }
        ensures room { vec_capacity wake.new ≡ vec_capacity wake.old }
    {
        let answer = self.records.finish(key, &mut self.sets.touched);
        self.sets.touched.move_all(&mut self.sets.changed, wake);
        answer
    }

    /// `finish_waking`, which also lists what the transaction owned, as `owned_by` does. If the call is refused, what `resources` has means
    /// nothing.
    ///
    /// Refused as `finish` is. `O(its resources + their waiters)`.
    #[inline(always)]
    pub fn finish_listing(
        &mut self,
        key: Key,
        resources: &mut Vec<u32>,
        wake: &mut Vec<u32>,
    ) -> Result<(), Refusal>
        requires room { self.old.config.processes ≤ vec_capacity wake.old }
        requires room_to_list { self.old.config.resources ≤ vec_capacity resources.old }
        ensures step { Step (Finish key) self.old result self.new }
        ensures woken { wake.new.items ≡ changed_processes self.old self.new }
        ensures room { vec_capacity wake.new ≡ vec_capacity wake.old }
        ensures listed { OnOk result ((r : ℕ) → Among r resources.new.items ↔ (owner_of self.old r ≡ Some key)) }
        ensures once { OnOk result (NoRepeat resources.new.items) }
        ensures room_to_list { vec_capacity resources.new ≡ vec_capacity resources.old }
    {
        let answer = self
            .records
            .finish_listing(key, resources, &mut self.sets.touched);
        self.sets.touched.move_all(&mut self.sets.changed, wake);
        answer
    }

    /// The waiting transaction takes over its holder's public label if that is greater; its private label stays.
    ///
    /// Refused as `CountsExhausted`, `Stale` or `NotWaiting`. Constant time. The rule is Mitchell and Merritt's.
    pub fn transmit(&mut self, key: Key) -> Result<Transmitted, Refusal>
        ensures { Step (Transmit key) self.old result self.new }
    {
        self.records.transmit(key, &mut self.sets.changed)
    }

    /// Gives the waiting transaction a verdict if its private label, its public one and its holder's public one are one label.
    /// It is then on a cycle of waits, and its private label is the greatest there.
    ///
    /// Refused as `CountsExhausted`, `Stale` or `NotWaiting`. Constant time: no wait is followed. The rule is Mitchell and Merritt's.
    pub fn detect(&mut self, key: Key) -> Result<Detected, Refusal>
        ensures { Step (Detect key) self.old result self.new }
    {
        self.records.detect(key)
    }

    /// Ends a transaction with a verdict: takes back its wait, and then hands over all that it owns and frees its process as `finish` does.
    ///
    /// Refused as `CountsExhausted`, `Stale`, `NoVerdict` or `LabelsExhausted`; a refused call keeps the wait and the verdict.
    /// `O(its resources + their waiters)`.
    /// That a victim ends is Mitchell and Merritt's rule; how it hands over is this project's.
    pub fn abort(&mut self, key: Key) -> Result<(), Refusal>
        ensures { Step (Abort key) self.old result self.new }
    {
        self.records.abort(key, &mut self.sets.changed)
    }

    /// `abort`, which also lists the processes to wake, as `release_waking` does: those that waited for what the transaction owned, and the
    /// process of the transaction itself, whose wait and verdict are gone.
    ///
    /// Refused as `abort` is. `O(its resources + their waiters)`.
    #[inline(never)]
    pub fn abort_waking(&mut self, key: Key, wake: &mut Vec<u32>) -> Result<(), Refusal>
        requires room { self.old.config.processes ≤ vec_capacity wake.old }
        ensures step { Step (Abort key) self.old result self.new }
        ensures woken { wake.new.items ≡ changed_processes self.old self.new }
        ensures room { vec_capacity wake.new ≡ vec_capacity wake.old }
    {
        let answer = self.records.abort(key, &mut self.sets.touched);
        self.sets.touched.move_all(&mut self.sets.changed, wake);
        answer
    }

    /// Takes back the wait and the verdict of a transaction that has a verdict: it is active from then on, and keeps what it owns and both its
    /// labels. It is counted as an abort is, but not as an event, since it is none. Constant time. This rule is not of the algorithm, in which a victim ends.
    pub fn take_back(&mut self, key: Key)
        requires live { IsTrue (is_live self.old key) }
        requires verdict { IsTrue (has_verdict self.old key.process) }
        requires count { self.old.totals.verdicts ≤ 2 ^ 62 }
        ensures { self.new ≡ take_back self.old key.process }
    {
        self.keeps_laws();
        self.records.let_go_on(key, &mut self.sets.changed);
    }

    /// Takes back the wait of a transaction that has no verdict and whose private and public label are equal: it is active from now on,
    /// and keeps what it owns and both labels. Those that wait for the same resource keep their places and their labels. The caller
    /// decides when; a transaction that has waited long enough may try, and go on with other work if it succeeds.
    ///
    /// Refused as `CountsExhausted`, `Stale`, `NotWaiting`, `UnderVerdict` or `Carried`. Under a verdict only `abort` ends the wait.
    /// `Carried` means that the two labels differ: a greater label was transmitted to the transaction and may have gone on to those
    /// that wait for it, so its wait may not end by its own choice. Constant time. The rule is this project's.
    pub fn give_up(&mut self, key: Key) -> Result<(), Refusal>
        ensures { Step (GiveUp key) self.old result self.new }
    {
        self.records.give_up(key, &mut self.sets.changed)
    }

    /// Takes back the wait of a transaction that has no verdict, whatever label it shows: it is active from then on, and keeps what it owns
    /// and both its labels. If it shows the label with which another transaction waits, that one gets a new label, as if it began to wait
    /// then; it keeps its place in the queue. The table has to be at rest. It also lists the processes to wake, as `release_waking` does: the process
    /// whose wait ended, and the one that got a new label.
    ///
    /// Refused as `CountsExhausted`, `Stale`, `NotWaiting`, `UnderVerdict`, `Carried` or `LabelsExhausted`, which are tested in this order.
    /// `Carried` means that the transaction waits, over one or more others, for one that has a verdict. Constant time. This rule is not
    /// of the algorithm: `give_up` refuses each transaction that shows another label than its own.
    pub fn withdraw_waking(&mut self, key: Key, wake: &mut Vec<u32>) -> Result<(), Refusal>
        requires rest { AtRest self.old }
        requires room { self.old.config.processes ≤ vec_capacity wake.old }
        ensures step { Withdraws key self.old result self.new }
        ensures woken { wake.new.items ≡ changed_processes self.old self.new }
        ensures room { vec_capacity wake.new ≡ vec_capacity wake.old }
    {
        let answer = self.records.withdraw(key, &mut self.sets.touched);
        self.sets.touched.move_all(&mut self.sets.changed, wake);
        answer
    }

    /// Each waiting transaction in turn, in ascending order of the processes, transmits if it can; this is done again until a whole sweep
    /// raises nothing. Then each of them detects if it can. One accepted event; the reply counts the raises and the verdicts.
    /// The table is then at rest: one verdict stands on each cycle of waits, and nothing is left to transmit or to detect.
    ///
    /// Refused as `CountsExhausted`. It looks at those alone whose labels or waits changed since the last settle and at those that
    /// wait for them, and again at those that wait for each that it raises: `O(changed + raised, each with its resources and their
    /// waiters)`. If nothing changed it reads at most one word for each 4,096 processes and does no more. A settle raises no more
    /// than waiting transactions times processes. The worst case known is the first settle of a chain of waits, each made before the
    /// one that it waits for: n waits take n (n - 1) / 2 raises, which took 0.2 s with 4,096 processes and 36 s with 65,536. A caller
    /// that settles after each `acquire` that waits never has such a chain. The two rules are Mitchell and Merritt's; to call them in sweeps is this project's way.
    pub fn settle(&mut self) -> Result<Settled, Refusal>
        ensures { Step Settle self.old result self.new }
    {
        let answer = self.records.settle(&mut self.sets);
        if answer != Ok(NOTHING) {
            self.sets.touched.clear();
        }
        answer
    }

    /// `settle`, which also lists the processes to wake, as `release_waking` does: those whose public labels it raised, and those that it gave
    /// a verdict; these are the ones that `state` shows as convicted.
    ///
    /// Refused as `settle` is. It costs what `settle` costs.
    pub fn settle_waking(&mut self, wake: &mut Vec<u32>) -> Result<Settled, Refusal>
        requires room { self.old.config.processes ≤ vec_capacity wake.old }
        ensures step { Step Settle self.old result self.new }
        ensures woken { wake.new.items ≡ changed_processes self.old self.new }
        ensures room { vec_capacity wake.new ≡ vec_capacity wake.old }
    {
        let answer = self.records.settle(&mut self.sets);
        self.sets.touched.take_all(wake);
        answer
    }

    /// Returns what the transaction does, and its two labels.
    ///
    /// Refused as `Stale`. Changes nothing and is not counted. Constant time.
    pub fn state(&self, key: Key) -> Result<State, Refusal>
        ensures { result ≡ state_of self.now key }
    {
        self.records.state(key)
    }

    /// Returns the key that owns the resource; `None` if it is free.
    ///
    /// Refused as `NoResource`. Changes nothing and is not counted. Constant time.
    pub fn owner(&self, resource: u32) -> Result<Option<Key>, Refusal>
        ensures { result ≡ owner_told self.now resource }
    {
        self.records.owner(resource)
    }

    /// Lists the resources that the key owns, in place of what `resources` held, each once, in no order that is promised; none if
    /// the key is not live. `resources` has room for each resource, and no memory is taken.
    ///
    /// Changes nothing and is not counted. `O(its resources)`.
    pub fn owned_by(&self, key: Key, resources: &mut Vec<u32>)
        requires { self.now.config.resources ≤ vec_capacity resources.old }
        ensures listed { (r : ℕ) → Among r resources.new.items ↔ (owner_of self.now r ≡ Some key) }
        ensures once { NoRepeat resources.new.items }
        ensures room { vec_capacity resources.new ≡ vec_capacity resources.old }
    {
        self.records.owned_by(key, resources);
    }

    /// Returns how many resources the key owns: none if it is not live.
    ///
    /// Changes nothing and is not counted. Constant time.
    #[inline]
    pub fn owned_len(&self, key: Key) -> u32
        ensures { result ≡ owned_count self.now key }
    {
        self.records.owned_len(key)
    }

    /// Returns one of the resources that the key owns, whichever it is; `None` if it owns none, or is not live.
    ///
    /// Changes nothing and is not counted. Constant time.
    #[inline]
    pub fn any_owned(&self, key: Key) -> Option<u32>
        ensures { MatchOption result ((r : ℕ) → ¬ (owner_of self.now r ≡ Some key)) (λ r. owner_of self.now r ≡ Some key) }
    {
        self.records.any_owned(key)
    }

    /// Returns the live key of the process; `None` if it has none, or is not one of the table's.
    ///
    /// Changes nothing and is not counted. Constant time.
    pub fn tenant(&self, process: u32) -> Option<Key>
        ensures { result ≡ tenant_of self.now process }
    {
        self.records.tenant(process)
    }

    /// Returns the public label of the process, which has it also while it has no transaction.
    ///
    /// Changes nothing and is not counted. Constant time.
    pub fn public_label(&self, process: u32) -> Label
        requires { process < self.now.config.processes }
        ensures { result ≡ public_of self.now process }
    {
        self.records.public(process)
    }

    /// Returns the process of the transaction for which that of this process waits: another one. `None` if it does not wait, or is not one
    /// of the table's.
    ///
    /// Changes nothing and is not counted. Constant time.
    pub fn holder(&self, process: u32) -> Option<u32>
        ensures holder { result ≡ holder_of self.now process }
        ensures another { IfSome result (λ holder. (holder < self.now.config.processes) × (holder ≢ process)) }
        ensures idle { IfNone result (wait_of self.now process ≡ None) }
    {
        self.records.holder_at(process)
    }

    /// Returns the numbers that the table was opened with. Constant time.
    pub fn config(&self) -> Config
        ensures { result ≡ self.now.config }
    {
        self.records.config()
    }

    /// Returns what was counted since the opening. Changes nothing and is not counted. Constant time.
    pub fn totals(&self) -> Totals
        ensures { result ≡ self.now.totals }
    {
        self.records.totals()
    }

    /// Does nothing. Its contract is what holds of any table that a caller can hold, whatever was called: no owner or wait names a freed
    /// key, private labels are distinct, and each standing verdict names a transaction on a cycle of waits whose private label is
    /// that cycle's greatest, and no cycle has two.
    pub fn verdicts_are_sound(&self)
        ensures { HasSoundVerdicts self.now }
    {
        let _ = &self.records;
    }

    /// Does nothing. Its contract is that all laws hold of any table that a caller can hold, whatever was called; so each fact of `laws`
    /// about lawful tables is one about it.
    pub fn keeps_laws(&self)
        ensures { Laws self.now }
    {
        let _ = &self.records;
    }
}
