//! The arena.
ghost use Rattle.std.specs.Prelude.{◌≡◌, ◌+◌, ◌<◌, ◌≤◌, ◌↔◌, length, IsTrue, IsSome, IfOk, IfNone, OnErr, OnSome, Some, None, option_copied};
ghost use Rattle.std.specs.Option.{ok_or, option_copied_mut};
ghost use Rattle.std.specs.Borrow.{sem};
ghost use Rattle.mm_arena.specs.Slots.{opening_slots, lookup, IsLive, live_key, next_key, live_count, inserted, removed, vacated, AddsKey, DropsKey};

use crate::slot::Slot;
use crate::{Key, Memory};
use std::alloc::Global;
use std::marker::Model;

/// The largest capacity of an arena.
pub const MAX_CAPACITY: u32 = 1_048_576;

/// Values of one type, each under a key that the arena picks. All of its memory is taken when it is made.
///
/// A process number that was freed last is given first, and those that were never used come after all freed ones, in rising number.
/// A number whose generation reached the limit is retired when it is freed: it is never given again.
#[derive(Drop)]
pub struct Arena<T> {
    slots: Vec<Slot<T>>,
    // The slot that was freed last, which leads to the one freed before it.
    newest: Option<u32>,
    // The slots from this number on were never used.
    unused: u32,
    live: u32,
    generation_limit: u32,
}

impl<T> Model for Arena<T> {
    ghost use Rattle.mm_arena.specs.Slots.{Slots};

    ghost Value = { Slots T };

    ghost use Rattle.mm_arena.specs.private.Layout.{fields_of, seen, IsLaidOut};

    ghost view = { λ a. seen (fields_of a) };

    ghost invariant = { λ a. IsLaidOut (fields_of a) };
}

impl<T> Arena<T> {
    ghost use Rattle.mm_arena.specs.Lending.{lends_get, lends_value};

    /// Returns an arena of `capacity` slots that were never used, in time proportional to `capacity`. It takes the memory for all of them, and no
    /// later call takes any.
    ///
    /// `Err` only if that memory is refused.
    pub fn new(alloc: Global, capacity: u32, generation_limit: u32) -> Result<Self, Memory>
        requires some_capacity { 1 ≤ capacity }
        requires capacity_in_range { capacity ≤ MAX_CAPACITY }
        requires some_generation { 1 ≤ generation_limit }
        ensures { IfOk result (λ arena. arena ≡ opening_slots capacity generation_limit) }
    {
        let mut slots = Vec::with_capacity(alloc, capacity as usize).map_err(|_| Memory)?;
        for _ in 0..capacity {
            slots.push_reserved(Slot::new());
        }
        Ok(Arena {
            slots,
            newest: None,
            unused: 0,
            live: 0,
            generation_limit,
        })
    }

    /// Stores a value under the next key, in constant time. `Err` gives the value back exactly if no slot is free, and then nothing
    /// changes.
    pub fn insert(&mut self, value: T) -> Result<Key, T>
        ensures key { result ≡ ok_or (next_key self.old) value }
        ensures slots { self.new ≡ inserted self.old value }
        ensures added { IfOk result (λ key. AddsKey self.old self.new key value) }
        ensures full { OnErr result (self.new ≡ self.old) }
    {
        if let Some(process) = self.newest {
            let slot = &mut self.slots[process as usize];
            self.newest = slot.fill(value);
            self.live += 1;
            return Ok(Key {
                process,
                generation: slot.generation,
            });
        }
        let process = self.unused;
        if process as usize == self.slots.len() {
            return Err(value);
        }
        let slot = &mut self.slots[process as usize];
        slot.fill(value);
        self.unused += 1;
        self.live += 1;
        Ok(Key {
            process,
            generation: slot.generation,
        })
    }

    /// Returns the value under a live key, in constant time. `None` exactly if the key is not live.
    pub fn get(&self, key: Key) -> Option<&T>
        ensures { option_copied result ≡ lookup self.now key }
    {
        self.slots.get(key.process as usize)?.value(key.generation)
    }

    /// Returns the value under a live key for writing, in constant time. `None` exactly if the key is not live.
    pub fn get_mut(&mut self, key: Key) -> Option<&mut T>
        ensures* writes_back { sem 𝓛 (lends_get T.row self.entry key result) }
        ensures value { option_copied_mut result ≡ lookup self.old key }
    {
        if self.contains(key) {
            Some(self.value_mut(key))
        } else {
            None
        }
    }

    /// Returns the value under a key that is live for writing, in constant time, without a test of the key.
    #[inline]
    pub fn value_mut(&mut self, key: Key) -> &mut T
        requires { IsLive self.old key }
        ensures* writes_back { sem 𝓛 (lends_value T.row self.entry key result) }
        ensures value { lookup self.old key ≡ Some result.now }
    {
        self.slots[key.process as usize].value_mut()
    }

    /// Removes a live key and gives its value, in constant time. `None` exactly if the key is not live, and then nothing changes.
    pub fn remove(&mut self, key: Key) -> Option<T>
        ensures value { result ≡ lookup self.old key }
        ensures slots { self.new ≡ removed self.old key }
        ensures dropped { OnSome result (DropsKey self.old self.new key) }
        ensures absent { IfNone result (self.new ≡ self.old) }
    {
        if self.contains(key) {
            Some(self.remove_live(key))
        } else {
            None
        }
    }

    /// Removes a key that is live and gives its value, in constant time, without a test of the key.
    #[inline]
    pub fn remove_live(&mut self, key: Key) -> T
        requires { IsLive self.old key }
        ensures value { lookup self.old key ≡ Some result }
        ensures slots { self.new ≡ vacated self.old key }
        ensures dropped { DropsKey self.old self.new key }
    {
        self.live -= 1;
        let slot = &mut self.slots[key.process as usize];
        if slot.generation >= self.generation_limit {
            return slot.retire();
        }
        let before = self.newest.replace(key.process);
        slot.free(before)
    }

    /// Returns whether a key is live, in constant time.
    pub fn contains(&self, key: Key) -> bool
        ensures { IsTrue result ↔ IsLive self.now key }
    {
        self.get(key).is_some()
    }

    /// Returns the live key of a process, in constant time. `None` exactly if it has none: the process is free, retired or not below the
    /// capacity.
    pub fn key_at(&self, process: u32) -> Option<Key>
        ensures { result ≡ live_key self.now process }
    {
        let slot = self.slots.get(process as usize)?;
        slot.is_live().then_some(Key {
            process,
            generation: slot.generation,
        })
    }

    /// Returns how many keys are live, in constant time.
    ///
    /// Kept for the published interface: no crate above calls it.
    pub fn live(&self) -> u32
        ensures count { result ≡ live_count self.now }
        ensures within { result ≤ length self.now.places }
    {
        self.live
    }
}
