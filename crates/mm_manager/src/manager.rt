//! The lock manager.
ghost use Rattle.std.specs.Prelude.{◌≡◌, ◌≢◌, ◌↔◌, ◌≤◌, ℕ, List, [], true, false, Some, Ok, Err, IfOk, IfErr, OnOk, option_copied, vec_capacity, length};
ghost use Rattle.std.specs.Bool.{OnTrue};
ghost use Rattle.mm_arena.specs.declared.key.Key.{Key as KeyValue};
ghost use Rattle.mm_lists.specs.Members.{Among, NoRepeat};
ghost use Rattle.mm_names.specs.Names.{name_of};
ghost use Rattle.mm_rules.specs.TableState.{owned_count, owner_of};
ghost use Rattle.mm_rules.specs.Event.{tenant_of};
ghost use Rattle.mm_manager.specs.LockState.{HasOwnSlot, Owns, IsLawful, has_all};
ghost use Rattle.mm_manager.specs.Permit.{counts_left, labels_left, may_adopt, may_ask, may_request};
ghost use Rattle.mm_manager.specs.Opening.{opening_state, IsTransactionsOut, IsNamesOut, IsNameBytesOut};
ghost use Rattle.mm_manager.specs.Calls.{AdoptsName, AdoptsNumber, Begins, LocksName, TriesName, Requests, Tries, UnlocksAny, UnlocksName, Commits, Aborts, Cancels};
ghost use Rattle.mm_manager.specs.Made.{Locked, Tried};
ghost use Rattle.mm_manager.specs.private.Requests.{Holds};
ghost use Rattle.mm_manager.specs.Refused.{TryRefused};
ghost use Rattle.mm_manager.specs.Reads.{HasStatus, config_of, live_of, wait_at, waits_of};
ghost use Rattle.mm_manager.specs.Totals.{after_begin, after_lock, after_commit, after_abort, after_cancel};

use crate::named::NamedTable;
use crate::numbers::owner_of;
use crate::open::{open_names, open_table};
use crate::{
    Grant, Graph, Key, Lock, ManagerConfig, OpenError, Refusal, Status, Totals, Transactions,
    TryLock, Wait, permit, reads,
};
use std::alloc::Global;
use std::marker::Model;

/// Exclusive locks on names, for transactions. A request is answered at once and finally.
///
/// Between calls nobody waits for itself, directly or over others: a request that would close a cycle of waits is answered `Deadlock`, and its
/// transaction does not wait.
///
/// A contract sees it as a `LockState` (`specs/LockState.antt`). A name has a number exactly while somebody owns it. Each call tells in `granted`
/// whose waits it ended by a hand-over; a refused call changes nothing, tells of nobody and counts nothing. No call but `open` takes memory.
pub struct LockManager {
    named: NamedTable,
    totals: Totals,
    /// Whether the list of the table tells of the last call. It does if that handed something over.
    tells: bool,
    /// How many names a transaction may own; 0: as many as there are.
    names_each: u32,
}

// By hand, so that a crate that drops a manager proves nothing of how its parts are dropped.
impl Drop for LockManager {
    fn drop(self) {
        let LockManager {
            named: _,
            totals: _,
            tells: _,
            names_each: _,
        } = self;
    }
}

impl Model for LockManager {
    ghost use Rattle.mm_manager.specs.LockState.{LockState};
    ghost use Rattle.mm_manager.specs.private.Manager.{state_of, IsManager};

    ghost Value = { LockState };

    ghost view = { state_of };

    ghost invariant = { IsManager };
}

impl LockManager {
    /// Returns a manager of this configuration: no transaction is live, and nobody owns a name.
    ///
    /// Refused as `Transactions`, `Names` or `NameBytes` exactly if that number is out of its range and those before it are not, and
    /// as `Memory` only if a request for memory was refused. This is the one call that takes memory: what `SettledTable::open` and
    /// `Names::open` take.
    pub fn open(alloc: Global, config: ManagerConfig) -> Result<LockManager, OpenError>
        ensures opened { IfOk result (λ manager. manager ≡ opening_state config) }
        ensures transactions { (result ≡ Err OpenError.Transactions) ↔ IsTransactionsOut config }
        ensures names { (result ≡ Err OpenError.Names) ↔ (¬ IsTransactionsOut config × IsNamesOut config) }
        ensures name_bytes { (result ≡ Err OpenError.NameBytes) ↔ (¬ IsTransactionsOut config × ¬ IsNamesOut config × IsNameBytesOut config) }
    {
        config.check()?;
        LockManager::open_in_range(alloc, config)
    }

    /// `open`, if each number is in its range: only a request for memory can be refused.
    fn open_in_range(alloc: Global, config: ManagerConfig) -> Result<LockManager, OpenError>
        requires transactions { ¬ IsTransactionsOut config }
        requires names { ¬ IsNamesOut config }
        requires name_bytes { ¬ IsNameBytesOut config }
        ensures opened { IfOk result (λ manager. manager ≡ opening_state config) }
        ensures memory { IfErr result (λ error. error ≡ OpenError.Memory) }
    {
        let names = open_names(alloc, config)?;
        let table = open_table(alloc, config)?;
        Ok(LockManager {
            named: NamedTable { table, names },
            totals: Totals::NONE,
            tells: false,
            names_each: config.names_each,
        })
    }

    /// Starts a transaction, and returns its key. Nothing else changes. The `process` of the key is a slot: it is below the `transactions` of
    /// the configuration, and no other live transaction has it.
    ///
    /// Refused as `CountsFull` if 4,611,686,018,360,279,040 events were counted or more, and as `TransactionsFull` if there are as
    /// many transactions as there can be, which is tested second. Constant time.
    #[inline(always)]
    pub fn begin(&mut self) -> Result<Key, Refusal>
        ensures begins { Begins self.old result self.new }
        ensures slot { IfOk result (λ key. HasOwnSlot self.new key) }
        ensures totals { self.new.totals ≡ after_begin self.old.totals result }
    {
        self.named.table.is_at_rest();
        let answer = self.named.begin();
        self.named.table.is_at_rest();
        self.tells = false;
        self.totals.count_begin(&answer);
        answer
    }

    /// Asks for a name, and is told at once what comes of it.
    ///
    /// - `Granted`: nobody owned it, and the transaction does now.
    /// - `Held`: the transaction owns it already, and nothing changes.
    /// - `Waits`: the holder owns it, and the transaction waits for it, on no cycle of waits. It owns the name once a call lists it in `granted`.
    /// - `Deadlock`: the holder owns it, and waits, directly or over others, for the transaction. So the transaction does not wait: it is active,
    ///   keeps what it owns, and decides what to give back. But for labels and counts all is as it was. Whoever asks again before one of those on
    ///   that way has given something back is told so again.
    ///
    /// Nobody else's owners or waits change. Refused as `NoTransaction`, `Waiting`, `CountsFull`, `NameEmpty`, `NameTooLong`, `TooManyNames`,
    /// `NamesFull` or `LabelsFull`, which are tested in this order:
    /// - as `CountsFull` if `begin` is;
    /// - as `TooManyNames` if the transaction owns as many names as it may, and not this one;
    /// - as `NamesFull` if nobody owns the name and all numbers are taken;
    /// - as `LabelsFull` if another transaction owns it, and half as many requests were answered `Waits` or `Deadlock` as labels can be high,
    ///   8,796,093,022,207.
    ///
    /// `O(length)` if nobody else owns it; a wait and a deadlock cost the settle that follows.
    // In place: it is one call itself, of `NamedTable::lock`.
    #[inline(always)]
    pub fn lock(&mut self, key: Key, name: &[u8]) -> Result<Lock, Refusal>
        ensures locks { LocksName self.old key name.now result self.new }
        ensures may { OnOk result (may_request self.old.table self.old.names.name_bytes key name.now ≡ Ok tt) }
        ensures room { IfOk result (λ answer. answer ≢ Lock.Held → has_all self.old key ≡ false) }
        ensures step { IfOk result (λ answer. Requests self.old.table self.old.names self.old.totals key name.now answer self.new.table self.new.names) }
        ensures granted { self.new.granted ≡ [] }
        ensures totals { self.new.totals ≡ after_lock self.old.totals result }
    {
        self.ask_for(key, name, false)
    }

    /// `lock` by a transaction that is known to be active, such as one that was just granted a name. Its key is not tested.
    #[inline(always)]
    pub fn lock_active(&mut self, key: Key, name: &[u8]) -> Result<Lock, Refusal>
        requires { may_ask self.old.table key ≡ Ok tt }
        ensures locks { LocksName self.old key name.now result self.new }
        ensures may { OnOk result (may_request self.old.table self.old.names.name_bytes key name.now ≡ Ok tt) }
        ensures room { IfOk result (λ answer. answer ≢ Lock.Held → has_all self.old key ≡ false) }
        ensures step { IfOk result (λ answer. Requests self.old.table self.old.names self.old.totals key name.now answer self.new.table self.new.names) }
        ensures granted { self.new.granted ≡ [] }
        ensures totals { self.new.totals ≡ after_lock self.old.totals result }
    {
        self.ask_for(key, name, true)
    }

    /// `lock`. If `is_active`, the transaction is known to be active, and its key is not tested.
    #[inline(always)]
    fn ask_for(&mut self, key: Key, name: &[u8], is_active: bool) -> Result<Lock, Refusal>
        requires { OnTrue is_active (may_ask self.old.table key ≡ Ok tt) }
        ensures { Locked self.old key name.now result self.new }
    {
        if self.has_all(key) {
            self.hold(key, name)?;
            return Ok(Lock::Held);
        }
        self.ask_table(key, name, is_active)
    }

    /// `ask_for` by a transaction that may own one name more.
    #[inline(always)]
    fn ask_table(&mut self, key: Key, name: &[u8], is_active: bool) -> Result<Lock, Refusal>
        requires active { OnTrue is_active (may_ask self.old.table key ≡ Ok tt) }
        requires room { has_all self.old key ≡ false }
        ensures { Locked self.old key name.now result self.new }
    {
        self.named.table.is_at_rest();
        let answer = self.named.lock(&self.totals, key, name, is_active);
        self.tells = false;
        self.totals.count_lock(&answer);
        answer
    }

    /// Returns whether a transaction owns as many names as it may.
    #[inline(always)]
    fn has_all(&self, key: Key) -> bool
        ensures { result ≡ has_all self.now key }
    {
        self.names_each != 0 && self.named.table.table().owned_len(key) >= self.names_each
    }

    /// Answers a request of a transaction that owns as many names as it may: it is refused, unless the transaction owns the name.
    #[inline(never)]
    fn hold(&mut self, key: Key, name: &[u8]) -> Result<(), Refusal>
        requires { has_all self.old key ≡ true }
        ensures { Holds self.old key name.now result self.new }
    {
        self.tells = false;
        self.may_hold(key, name)
    }

    /// Tests such a request.
    fn may_hold(&self, key: Key, name: &[u8]) -> Result<(), Refusal>
        requires { has_all self.now key ≡ true }
        ensures may { OnOk result (may_request self.now.table self.now.names.name_bytes key name.now ≡ Ok tt) }
        ensures owns { OnOk result (Owns self.now key name.now) }
        ensures refused { IfErr result (λ refusal. TryRefused self.now key name.now refusal) }
    {
        let table = self.named.table.table();
        permit::may_request(table, &self.named.names, key, name)?;
        if self.owns(key, name) {
            Ok(())
        } else {
            Err(Refusal::TooManyNames)
        }
    }

    /// Returns whether a transaction owns a name.
    fn owns(&self, key: Key, name: &[u8]) -> bool
        ensures { (result ≡ true) ↔ Owns self.now key name.now }
    {
        match self.owner(name) {
            None => false,
            Some(owner) => owner == key,
        }
    }

    /// Asks for a name, and gets it if nobody owns it. It never waits.
    ///
    /// - `Granted`: nobody owned it, and the transaction does now.
    /// - `Held`: the transaction owns it already, and nothing changes.
    /// - `Busy`: the holder owns it, and nothing changes.
    ///
    /// Refused as `NoTransaction`, `Waiting`, `CountsFull`, `NameEmpty`, `NameTooLong`, `TooManyNames` or `NamesFull`, which are tested in this
    /// order, and mean what they do of `lock`. `O(length)`.
    pub fn try_lock(&mut self, key: Key, name: &[u8]) -> Result<TryLock, Refusal>
        ensures tries { TriesName self.old key name.now result self.new }
        ensures may { OnOk result (may_request self.old.table self.old.names.name_bytes key name.now ≡ Ok tt) }
        ensures room { IfOk result (λ answer. answer ≢ TryLock.Held → has_all self.old key ≡ false) }
        ensures step { IfOk result (λ answer. Tries self.old.table self.old.names key name.now answer self.new.table self.new.names) }
        ensures granted { self.new.granted ≡ [] }
        ensures totals { self.new.totals ≡ self.old.totals }
    {
        if self.has_all(key) {
            self.hold(key, name)?;
            return Ok(TryLock::Held);
        }
        self.try_table(key, name)
    }

    /// `try_lock` by a transaction that may own one name more.
    fn try_table(&mut self, key: Key, name: &[u8]) -> Result<TryLock, Refusal>
        requires { has_all self.old key ≡ false }
        ensures { Tried self.old key name.now result self.new }
    {
        self.named.table.is_at_rest();
        self.tells = false;
        self.named.try_lock(key, name)
    }

    /// Makes a transaction, also one that waits, the owner of a name, if nobody owns it: so a caller that keeps owners of its own can tell the
    /// manager of one when somebody else asks for the name.
    ///
    /// - `Granted`: nobody owned it, and the transaction does now. Nobody waited for it, so no wait changes.
    /// - `Held`: the transaction owns it already, and nothing changes.
    /// - `Busy`: the holder owns it, and nothing changes.
    ///
    /// It is no event: neither `events` nor `totals` counts it. `granted` is empty after it. `names_each` does not bound it, since the transaction
    /// owned the name before by the caller's word.
    ///
    /// Refused as `NoTransaction`, `CountsFull`, `NameEmpty`, `NameTooLong` or `NamesFull`, which are tested in this order, and mean what they do
    /// of `lock`. `O(length)`.
    pub fn adopt(&mut self, key: Key, name: &[u8]) -> Result<TryLock, Refusal>
        ensures adopts { AdoptsName self.old key name.now result self.new }
        ensures may { OnOk result (may_adopt self.old.table self.old.names.name_bytes key name.now ≡ Ok tt) }
        ensures step { IfOk result (λ answer. AdoptsNumber self.old.table self.old.names key name.now answer self.new.table self.new.names) }
        ensures granted { self.new.granted ≡ [] }
        ensures totals { self.new.totals ≡ self.old.totals }
    {
        self.named.table.is_at_rest();
        self.tells = false;
        self.named.adopt(key, name)
    }

    /// Hands the name over: its longest waiter owns it from now on and is listed in `granted`; with no waiter it is free.
    ///
    /// Refused as `NoTransaction`, `Waiting`, `NameEmpty`, `NameTooLong` or `NotOwner`, which are tested in this order.
    /// `O(length + waiters of the name)`, and the settle that follows if others wait on.
    pub fn unlock(&mut self, key: Key, name: &[u8]) -> Result<(), Refusal>
        ensures unlocks { UnlocksName self.old key name.now result self.new }
        ensures totals { self.new.totals ≡ self.old.totals }
    {
        self.named.table.is_at_rest();
        let answer = self.named.unlock(key, name);
        self.tells = answer.is_ok();
        answer
    }

    /// Hands over one of the names of a transaction, as `unlock` does, whichever it is. So a caller can end a transaction of many names by parts,
    /// and answer others between them.
    ///
    /// Refused as `NoTransaction`, `Waiting` or, if it owns nothing, `NotOwner`, which are tested in this order. It costs what `unlock` costs.
    pub fn unlock_any(&mut self, key: Key) -> Result<(), Refusal>
        ensures unlocks { UnlocksAny self.old key result self.new }
        ensures totals { self.new.totals ≡ self.old.totals }
    {
        self.named.table.is_at_rest();
        let answer = self.named.unlock_any(key);
        self.tells = answer.is_ok();
        answer
    }

    /// Ends a transaction that does not wait: hands over all names that it owns, each as `unlock` does.
    ///
    /// Refused as `NoTransaction` or `Waiting`. `O(its names + their waiters)`, and the settle that follows if others wait on.
    pub fn commit(&mut self, key: Key) -> Result<(), Refusal>
        ensures commits { Commits self.old key result self.new }
        ensures totals { self.new.totals ≡ after_commit self.old.totals result }
    {
        self.named.table.is_at_rest();
        let answer = self.named.commit(key);
        self.tells = answer.is_ok();
        self.totals.count_commit(&answer);
        answer
    }

    /// Ends any live transaction: what it waited for is withdrawn, and all that it owns is handed over, as by `commit`.
    ///
    /// Refused only as `NoTransaction`, if the transaction is not live. It costs what `commit` costs, and what `cancel` costs if it waits.
    pub fn abort(&mut self, key: Key) -> Result<(), Refusal>
        ensures aborts { Aborts self.old key result self.new }
        ensures totals { self.new.totals ≡ after_abort self.old.totals result }
    {
        self.named.table.is_at_rest();
        let answer = self.named.abort(key);
        self.tells = answer.is_ok();
        self.totals.count_abort(&answer);
        answer
    }

    /// Takes back the wait of a transaction: it is active from now on, and keeps what it owns. Nobody is granted anything, and all else stays.
    ///
    /// Refused only as `NoTransaction` or `NotWaiting`. Constant time, and one settle if another transaction got a new label by it, which raises
    /// those that wait for that one.
    pub fn cancel(&mut self, key: Key) -> Result<(), Refusal>
        ensures cancels { Cancels self.old key result self.new }
        ensures totals { self.new.totals ≡ after_cancel self.old.totals result }
    {
        let answer = self.named.cancel(key);
        self.tells = false;
        self.totals.count_cancel(&answer);
        answer
    }

    /// Returns the grants of the last call, in order. `Grant::resource` is the number of the name. Constant time.
    pub fn granted(&self) -> &[Grant]
        ensures { result.now ≡ self.now.granted }
    {
        if self.tells {
            self.named.table.granted()
        } else {
            &[]
        }
    }

    /// Returns the owner of a name; `None` if nobody owns it. `O(length)`.
    pub fn owner(&self, name: &[u8]) -> Option<Key>
        ensures { (k : KeyValue) → (result ≡ Some k) ↔ Owns self.now k name.now }
    {
        self.named.names.keeps_laws();
        let number = self.named.names.find(name)?;
        owner_of(self.named.table.table(), number)
    }

    /// Returns what a transaction does: whether it waits, and for which name and whose.
    ///
    /// Refused as `NoTransaction`. Constant time.
    pub fn status(&self, key: Key) -> Result<Status, Refusal>
        ensures { HasStatus self.now key result }
    {
        reads::status(self.named.table.table(), key)
    }

    /// Returns how many names the transaction owns; 0 if the key is not live. Constant time.
    pub fn owned_len(&self, key: Key) -> u32
        ensures { result ≡ owned_count self.now.table key }
    {
        self.named.table.table().owned_len(key)
    }

    /// Lists the numbers of the names that the transaction owns, in place of what `numbers` held, each once, in no order that is promised;
    /// none if the key is not live. `numbers` has room for each number, and no memory is taken. `O(its names)`.
    pub fn holds(&self, key: Key, numbers: &mut Vec<u32>)
        requires { self.now.table.config.resources ≤ vec_capacity numbers.old }
        ensures holds { (name : List ℕ) → Owns self.now key name ↔ ((n : ℕ) × Among n numbers.new.items × (name_of self.now.names n ≡ Some name)) }
        ensures owned { (n : ℕ) → Among n numbers.new.items ↔ (owner_of self.now.table n ≡ Some key) }
        ensures once { NoRepeat numbers.new.items }
        ensures room { vec_capacity numbers.new ≡ vec_capacity numbers.old }
    {
        self.named.table.table().owned_by(key, numbers);
    }

    /// Returns the live transaction of a slot; `None` if it has none, or is not one of the slots. The slot of a transaction is the `process` of its
    /// key. Constant time.
    pub fn transaction_at(&self, slot: u32) -> Option<Key>
        ensures { result ≡ tenant_of self.now.table slot }
    {
        self.named.table.table().tenant(slot)
    }

    /// Returns the live transactions, by rising slot. Constant time; going through all of them takes `O(transactions)`.
    pub fn transactions(&self) -> Transactions<'_>
        ensures { result ≡ live_of self.now.table }
    {
        Transactions {
            table: self.named.table.table(),
            next: 0,
        }
    }

    /// For which number the transaction of a slot waits, and who owns that; `None` if it does not wait, or the slot has none. Constant time.
    pub fn wait_at(&self, slot: u32) -> Option<Wait>
        ensures { result ≡ wait_at self.now.table slot }
    {
        reads::wait_at(self.named.table.table(), slot)
    }

    /// Returns the numbers with which the manager was opened. The seed is not told: 0 stands for it. Constant time.
    pub fn config(&self) -> ManagerConfig
        ensures { result ≡ config_of self.now }
    {
        let table = self.named.table.table().config();
        ManagerConfig {
            transactions: table.processes,
            names: table.resources,
            name_bytes: self.named.names.name_bytes(),
            names_each: self.names_each,
            seed: 0,
        }
    }

    /// Returns the wait-for graph: each transaction that waits, the number that it waits for, and the owner of that, in rising order of the waiter's
    /// process. `name` gives the name of a number. Constant time; going through all of it takes `O(transactions)`.
    pub fn graph(&self) -> Graph<'_>
        ensures { result ≡ waits_of self.now.table }
    {
        Graph {
            table: self.named.table.table(),
            next: 0,
        }
    }

    /// Returns the name of a number; `None` if it has none. Constant time.
    pub fn name(&self, number: u32) -> Option<&[u8]>
        ensures { option_copied result ≡ name_of self.now.names number }
    {
        self.named.names.name(number)
    }

    /// Returns what was counted since the opening. Constant time.
    pub fn totals(&self) -> Totals
        ensures { result ≡ self.now.totals }
    {
        self.totals
    }

    /// Returns how many events of the table were counted since the opening: each begin, request, hand-over, end and wait that is taken back, and
    /// each settle. By this number `begin`, `lock`, `try_lock` and `adopt` are refused as `CountsFull`. `adopt` counts nothing. What is
    /// read while a transaction owns a name is still greater than what was read while an earlier one owned it: the hand-over or end between the two
    /// was counted. Constant time.
    pub fn events(&self) -> u64
        ensures { result ≡ self.now.table.totals.accepted }
    {
        self.named.table.table().totals().accepted
    }

    /// Returns how many events can be counted before `begin`, `lock`, `try_lock` and `adopt` are refused as `CountsFull`. Constant time.
    pub fn counts_left(&self) -> u64
        ensures { result ≡ counts_left self.now.table }
    {
        permit::counts_left(self.named.table.table())
    }

    /// Returns how many requests can be answered `Waits` or `Deadlock` before a `lock` of what another transaction owns is refused as
    /// `LabelsFull`. Constant time.
    pub fn labels_left(&self) -> u64
        ensures { result ≡ labels_left self.now.table self.now.totals }
    {
        permit::labels_left(self.named.table.table(), &self.totals)
    }

    /// Does nothing. Its contract is what holds of any manager that a caller can hold, whatever was called.
    pub fn keeps_laws(&self)
        ensures { IsLawful self.now }
    {
        self.named.table.is_at_rest();
        self.named.names.keeps_laws();
    }
}
