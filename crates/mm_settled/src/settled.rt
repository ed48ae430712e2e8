ghost use Rattle.std.specs.Prelude.{◌≡◌, ◌↔◌, ◌<◌, ◌^◌, ℕ, List, [], Some, None, Ok, Err, IsTrue, OnOk};
ghost use Rattle.mm_rules.specs.Event.{Step, Begin, Release, Finish, allowed, resource_tests};
ghost use Rattle.mm_settled.specs.declared.reply.Locked.TheVariants as Locked;
ghost use Rattle.mm_lists.specs.Members.{Among, NoRepeat};
ghost use Rattle.mm_rules.specs.Adopt.{Adopts};
ghost use Rattle.mm_rules.specs.TableState.{is_live, owner_of};
ghost use Rattle.mm_rules.specs.Laws.{Laws, AtRest};
ghost use Rattle.mm_rules.specs.TakeBack.{HasNoVictim, NobodyWaitsForItself, WouldClose};
ghost use Rattle.mm_settled.specs.Calls.{OpensSettled, Locks, IsDeadlock, Makes, MakesWithdrawal};
ghost use Rattle.mm_settled.specs.Grants.{Tells, EndsWaits};

use crate::acquire::acquire;
use crate::lists::{Lists, is_told};
use crate::parts::Parts;
use crate::{Config, Grant, Key, Locked, Refusal, Released, Table};
use std::alloc::Global;
use std::marker::Model;

/// A table of exclusive locks that is at rest between its calls, and in which nobody waits for itself, directly or over others: nothing is left
/// to transmit or to detect, and no verdict stands.
///
/// A contract sees it as a `SettledState`: the table, and the grants of the last call. After a call that is refused that list is
/// empty, and the table is as it was. No call but `open` takes memory.
pub struct SettledTable {
    parts: Parts,
    /// How many events the table had accepted right after the last call that listed grants. Once it accepts one more, what the list has
    /// means nothing: so an accepted call that grants nothing need not touch it.
    told_at: u64,
}

// By hand, so that a crate that drops a settled table proves nothing of how its parts are dropped.
impl Drop for SettledTable {
    fn drop(self) {
        let SettledTable {
            parts: _,
            told_at: _,
        } = self;
    }
}

impl Model for SettledTable {
    ghost use Rattle.mm_settled.specs.SettledState.{SettledState};
    ghost use Rattle.mm_settled.specs.private.Settled.{state_of, IsSettledTable};

    ghost Value = { SettledState };

    ghost view = { state_of };

    ghost invariant = { IsSettledTable };
}

impl SettledTable {
    /// Returns a table of this configuration, which has no transaction, and in which no resource has an owner.
    ///
    /// Refused as `BadConfig` exactly if a number is out of its range, and as `Memory` only if a request for memory was
    /// refused. This is the one call that takes memory: what `Table::open_wide` takes, for each process 16 bytes, and for each
    /// resource 4 bytes and a bit more.
    pub fn open(alloc: Global, config: Config) -> Result<SettledTable, Refusal>
        ensures { OpensSettled config result }
    {
        let table = Table::open_wide(alloc, config)?;
        let lists = Lists::open(alloc, config)?;
        Ok(SettledTable {
            parts: Parts { table, lists },
            told_at: 0,
        })
    }

    /// Starts a transaction in the first free process, and returns its key. It changes nobody else, and grants nobody anything.
    ///
    /// Refused as `CountsExhausted` or `Full`. Constant time.
    #[inline]
    pub fn begin(&mut self) -> Result<Key, Refusal>
        ensures step { Step Begin self.old.table result self.new.table }
        ensures told { self.new.granted ≡ [] }
    {
        self.parts.table.keeps_laws();
        match self.parts.table.begin() {
            Ok(key) => Ok(key),
            Err(refusal) => {
                self.parts.lists.granted.clear();
                Err(refusal)
            }
        }
    }

    /// Makes a live transaction, also one that waits, the owner of a resource that nobody owns, as `Table::adopt` does. The table stays at
    /// rest, and what was listed stays listed.
    pub fn adopt(&mut self, key: Key, resource: u32)
        requires live { IsTrue (is_live self.old.table key) }
        requires resource { resource < self.old.table.config.resources }
        requires free { owner_of self.old.table resource ≡ None }
        ensures adopts { Adopts key resource self.old.table self.new.table }
        ensures granted { self.new.granted ≡ self.old.granted }
    {
        self.parts.table.keeps_laws();
        self.parts.table.adopt(key, resource);
    }

    /// Asks for a resource, and is told at once what comes of it.
    ///
    /// - `Granted`: nobody owned it, and the transaction does now.
    /// - `Waits`: the transaction waits for the holder, last in the queue of the resource, and closes no cycle of waits by that. It owns
    ///   the resource once a call lists it in `granted`.
    /// - `Deadlock`: the holder waits, directly or over others, for the transaction, so its wait would close a cycle of waits. It does not
    ///   wait: but for labels and counts all is as it was.
    ///
    /// Refused as `CountsExhausted` if somebody owns the resource and an event and a settle can no longer be counted, and else as
    /// `Table::acquire` is: `CountsExhausted`, `Stale`, `NoResource`, `Waiting`, `AlreadyOwns` or `LabelsExhausted`. Constant time if it is
    /// granted; a wait and a deadlock cost the settle that follows, as `Table::settle` says: those that wait for the transaction, and those whose
    /// labels it raises.
    // In place: a granted lock does less than a call from here would cost.
    #[inline(always)]
    pub fn acquire(&mut self, key: Key, resource: u32) -> Result<Locked, Refusal>
        ensures locks { Locks self.old.table key resource result self.new.table }
        ensures deadlock { OnOk result (IsTrue (IsDeadlock result) ↔ WouldClose self.old.table key resource) }
        ensures told { self.new.granted ≡ [] }
    {
        self.parts.table.keeps_laws();
        acquire(
            &mut self.parts.table,
            &mut self.parts.lists.granted,
            key,
            resource,
        )
    }

    /// `acquire` of a resource that nobody owns, by a key that may use it: so nothing is tested, and it is granted. Constant time.
    #[inline(always)]
    pub fn grant_free(&mut self, key: Key, resource: u32)
        requires passed { allowed (resource_tests self.old.table key resource) ≡ Ok tt }
        requires process { key.process < self.old.table.config.processes }
        requires resource { resource < self.old.table.config.resources }
        requires count { self.old.table.totals.accepted < 2 ^ 62 }
        requires free { owner_of self.old.table resource ≡ None }
        ensures locks { Locks self.old.table key resource (Ok Locked.Granted) self.new.table }
        ensures told { self.new.granted ≡ [] }
    {
        self.parts.table.keeps_laws();
        self.parts.table.grant_free(key, resource);
    }

    /// Hands the resource over: the longest waiter owns it from now on and is listed in `granted`, and each other waiter keeps its
    /// place; with no waiter it is free. If others wait on, the table is settled.
    ///
    /// Refused as `CountsExhausted` if an event and a settle can no longer be counted, and else as `Table::release` is: `Stale`,
    /// `NoResource`, `Waiting`, `NotOwner` or `LabelsExhausted`. `O(waiters of the resource)`, and the settle if one is made.
    pub fn release(&mut self, key: Key, resource: u32) -> Result<Released, Refusal>
        ensures makes { Makes (Release key resource) self.old.table result self.new.table }
        ensures told { Tells self.old.table self.new }
        ensures ended { EndsWaits self.old.table self.new.table key.process self.new.granted }
    {
        let answer = self.parts.release(key, resource);
        self.told_at = self.parts.table.totals().accepted;
        answer
    }

    /// Ends an active transaction: hands over all that it owns, in ascending order, each resource as `release` does, and frees its process.
    ///
    /// Refused as `CountsExhausted` if an event and a settle can no longer be counted, and else as `Table::finish` is: `Stale`,
    /// `Waiting` or `LabelsExhausted`. `O(its resources + their waiters)`, and the settle if one is made.
    #[inline(always)]
    pub fn finish(&mut self, key: Key) -> Result<(), Refusal>
        ensures makes { Makes (Finish key) self.old.table result self.new.table }
        ensures told { Tells self.old.table self.new }
        ensures ended { EndsWaits self.old.table self.new.table key.process self.new.granted }
        ensures owned { OnOk result ((r : ℕ) → Among r self.new.ended ↔ (owner_of self.old.table r ≡ Some key)) }
        ensures once { OnOk result (NoRepeat self.new.ended) }
    {
        let answer = self.parts.finish(key);
        self.told_at = self.parts.table.totals().accepted;
        answer
    }

    /// Takes back the wait of a transaction, whatever label it shows: it is active from now on, and keeps what it owns. Nobody is granted
    /// anything. If it shows the label with which another transaction waits, that one gets a new label, keeps its place in the queue, and the
    /// table is settled.
    ///
    /// Refused as `CountsExhausted` if an event and a settle can no longer be counted, and else as `Table::withdraw_waking` is: `Stale`,
    /// `NotWaiting` or `LabelsExhausted`. Constant time, and one settle if another transaction got a new label, which raises those that wait
    /// for that one.
    pub fn withdraw(&mut self, key: Key) -> Result<(), Refusal>
        ensures makes { MakesWithdrawal key self.old.table result self.new.table }
        ensures carried { (result ≡ Err Refusal.Carried) → ⊥ }
        ensures told { self.new.granted ≡ [] }
    {
        let answer = self.parts.withdraw(key);
        self.told_at = self.parts.table.totals().accepted;
        answer
    }

    /// Returns the grants of the last call, in the order of the hand-overs. Constant time.
    pub fn granted(&self) -> &[Grant]
        ensures { result.now ≡ self.now.granted }
    {
        if !is_told(self.told_at, &self.parts.table) {
            return &[];
        }
        &self.parts.lists.granted
    }

    /// Returns what the transaction owned that ended last, each resource once, in no order that is promised. After a refused end it means
    /// nothing. Constant time.
    #[inline]
    pub fn ended(&self) -> &[u32]
        ensures { result.now ≡ self.now.ended }
    {
        &self.parts.lists.owned
    }

    /// Returns the table, to read it: what a transaction does (`state`), who owns a resource (`owner`) and what a key owns (`owned_by`), for
    /// what a process waits for (`holder`), the live keys (`tenant`), the configuration and the counts. Constant time.
    #[inline]
    pub fn table(&self) -> &Table
        ensures { result.now ≡ self.now.table }
    {
        &self.parts.table
    }

    /// Does nothing. Its contract is that the table is at rest, whatever was called: nothing is left to transmit or to detect, no verdict
    /// stands, and nobody waits for itself, directly or over others. All laws of `Table` hold too; so each fact of `mm_table::laws` is one about it.
    pub fn is_at_rest(&self)
        ensures laws { Laws self.now.table }
        ensures rest { AtRest self.now.table }
        ensures none { HasNoVictim self.now.table }
        ensures apart { NobodyWaitsForItself self.now.table }
    {
        self.parts.table.keeps_laws();
    }
}
