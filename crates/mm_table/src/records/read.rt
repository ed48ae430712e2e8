//! Reads, which change nothing: those that a caller makes, and those that events are made of.
ghost use Rattle.std.specs.Prelude.{◌≡◌, ◌≤◌, ◌<◌, ◌↔◌, ℕ, IsTrue, IfSome, IfNone, MatchOption, None, Some, option_map, length, vec_capacity};
ghost use Rattle.mm_lists.specs.Members.{Among, NoRepeat};
ghost use Rattle.mm_rules.specs.TableState.{wait_of, holder_of, is_live, has_verdict, public_of, owner_of, owns, owned_count, resources_of};
ghost use Rattle.mm_rules.specs.Laws.{Laws};
ghost use Rattle.mm_rules.specs.Event.{state_of, owner_told, tenant_of};

use super::Records;
use crate::{Config, Key, Mode, Refusal, State, Totals};
use mm_label::Label;

impl Records {
    /// Returns what the transaction does, and its labels. Constant time.
    pub fn state(&self, key: Key) -> Result<State, Refusal>
        ensures { result ≡ state_of self.now key }
    {
        let Some(transaction) = self.transactions.get(key) else {
            return Err(Refusal::Stale);
        };
        let mode = match transaction.waits_for {
            None => Mode::Active,
            Some(resource) if transaction.has_verdict => Mode::Convicted(resource),
            Some(resource) => Mode::Waiting(resource),
        };
        let labels = self.labels.of(key.process);
        Ok(State {
            mode,
            private: labels.private,
            public: labels.public,
        })
    }

    /// Returns who owns the resource. Constant time.
    pub fn owner(&self, resource: u32) -> Result<Option<Key>, Refusal>
        ensures { result ≡ owner_told self.now resource }
    {
        if resource >= self.config.resources {
            return Err(Refusal::NoResource);
        }
        Ok(self.owner_of(resource))
    }

    /// Returns the owner of a resource that there is.
    #[inline]
    pub(super) fn owner_of(&self, resource: u32) -> Option<Key>
        requires { resource < self.now.config.resources }
        ensures owner { result ≡ owner_of self.now resource }
        ensures in_range { IfSome result (λ owner. owner.process < self.now.config.processes) }
    {
        let spot = self.owned.spot(resource)?;
        Some(Key {
            process: spot.list,
            generation: spot.tag,
        })
    }

    /// Returns the live key of the process; a process that has none waits for nothing. Constant time.
    pub fn tenant(&self, process: u32) -> Option<Key>
        ensures tenant { result ≡ tenant_of self.now process }
        ensures key { IfSome result (λ key. IsTrue (is_live self.now key) × (key.process ≡ process) × (process < self.now.config.processes)) }
        ensures idle { IfNone result (wait_of self.now process ≡ None) }
    {
        self.transactions.tenant(process)
    }

    /// Lists what the key owns, in place of what `resources` held: nothing if the key is not live. `O(its resources)`.
    pub fn owned_by(&self, key: Key, resources: &mut Vec<u32>)
        requires laws { Laws self.now }
        requires room { self.now.config.resources ≤ vec_capacity resources.old }
        ensures listed { (r : ℕ) → Among r resources.new.items ↔ (owner_of self.now r ≡ Some key) }
        ensures once { NoRepeat resources.new.items }
        ensures room { vec_capacity resources.new ≡ vec_capacity resources.old }
    {
        if !self.is_live(key) {
            resources.clear();
            return;
        }
        self.owned_by_live(key, resources);
    }

    /// `owned_by` of a live key.
    #[inline(always)]
    pub(super) fn owned_by_live(&self, key: Key, resources: &mut Vec<u32>)
        requires laws { Laws self.now }
        requires live { IsTrue (is_live self.now key) }
        requires room { self.now.config.resources ≤ vec_capacity resources.old }
        ensures listed { (r : ℕ) → Among r resources.new.items ↔ (owner_of self.now r ≡ Some key) }
        ensures once { NoRepeat resources.new.items }
        ensures room { vec_capacity resources.new ≡ vec_capacity resources.old }
    {
        self.owned.list(key.process, resources);
    }

    /// Returns how many resources the key owns: none if it is not live. Constant time.
    #[inline]
    pub fn owned_len(&self, key: Key) -> u32
        ensures { result ≡ owned_count self.now key }
    {
        if !self.is_live(key) {
            return 0;
        }
        self.owned_len_live(key)
    }

    /// `owned_len` of a live key.
    #[inline]
    fn owned_len_live(&self, key: Key) -> u32
        requires { IsTrue (is_live self.now key) }
        ensures { result ≡ length (resources_of self.now key.process) }
    {
        self.owned.first(key.process);
        self.owned.len(key.process)
    }

    /// Returns one of the resources that the key owns; `None` if it owns none, or is not live. Constant time.
    #[inline]
    pub fn any_owned(&self, key: Key) -> Option<u32>
        requires { Laws self.now }
        ensures { MatchOption result ((r : ℕ) → ¬ (owner_of self.now r ≡ Some key)) (λ r. owner_of self.now r ≡ Some key) }
    {
        if !self.is_live(key) {
            return None;
        }
        self.any_owned_live(key)
    }

    /// `any_owned` of a live key.
    #[inline]
    fn any_owned_live(&self, key: Key) -> Option<u32>
        requires laws { Laws self.now }
        requires live { IsTrue (is_live self.now key) }
        ensures { MatchOption result ((r : ℕ) → ¬ (owner_of self.now r ≡ Some key)) (λ r. owner_of self.now r ≡ Some key) }
    {
        self.owned.first(key.process)
    }

    /// Returns the numbers that the table was opened with. Constant time.
    pub fn config(&self) -> Config
        ensures { result ≡ self.now.config }
    {
        self.config
    }

    /// Returns what was counted. Constant time.
    pub fn totals(&self) -> Totals
        ensures { result ≡ self.now.totals }
    {
        self.totals
    }

    pub(super) fn is_live(&self, key: Key) -> bool
        ensures live { result ≡ is_live self.now key }
        ensures in_range { IsTrue result → key.process < self.now.config.processes }
    {
        self.transactions.contains(key)
    }

    pub(super) fn has_verdict(&self, key: Key) -> bool
        requires { IsTrue (is_live self.now key) }
        ensures { result ≡ has_verdict self.now key.process }
    {
        self.transactions.get(key).unwrap().has_verdict
    }

    /// Returns whether `process` owns a resource.
    pub(super) fn owns(&self, process: u32, resource: u32) -> bool
        requires { resource < self.now.config.resources }
        ensures { result ≡ owns self.now process resource }
    {
        let owner = self.owner_of(resource);
        owner.is_some_and(|owner| owner.process == process)
    }

    /// Returns the holder of a live transaction; `None` if it does not wait.
    pub(super) fn holder(&self, key: Key) -> Option<u32>
        requires { IsTrue (is_live self.now key) }
        ensures holder { result ≡ holder_of self.now key.process }
        ensures in_range { IfSome result (λ holder. holder < self.now.config.processes) }
    {
        let resource = self.transactions.get(key)?.waits_for?;
        let holder = self.owner_of(resource)?;
        Some(holder.process)
    }

    /// Returns the holder of a process; `None` if it does not wait, or is not one of the table's.
    pub fn holder_at(&self, process: u32) -> Option<u32>
        ensures holder { result ≡ holder_of self.now process }
        ensures in_range { IfSome result (λ holder. (holder < self.now.config.processes) × (process < self.now.config.processes)) }
    {
        let key = self.tenant(process)?;
        self.holder(key)
    }

    /// Returns the public label of the holder of a live transaction; `None` if it does not wait.
    pub(super) fn holder_label(&self, key: Key) -> Option<Label>
        requires { IsTrue (is_live self.now key) }
        ensures { result ≡ option_map (public_of self.now) (holder_of self.now key.process) }
    {
        let holder = self.holder(key)?;
        Some(self.labels.public(holder))
    }
}
