//! The shelf.
ghost use Rattle.std.specs.Prelude.{◌≡◌, ◌<◌, ◌≤◌, length, replicate, slice_set, IsSome, IfOk, None, Some, option_copied, option_map};
ghost use Rattle.std.specs.Option.{option_copied_mut};
ghost use Rattle.std.specs.Borrow.{sem};
ghost use Rattle.mm_arena.specs.Shelf.{entry_at, value_at, taken, HasValue};

use crate::{Key, MAX_CAPACITY, Memory};
use std::alloc::Global;
use std::marker::Model;

/// At most one value for each process, under the key that it was put with. All of its memory is taken when it is made.
///
/// It stands beside an arena, which gives the keys, and is never full: a value that is put takes the place of the one that its process had.
#[derive(Drop)]
pub struct Shelf<T> {
    // By process.
    entries: Vec<Option<Stored<T>>>,
}

/// A value, and the generation of the key that it was put with. The process of that key is known by the place.
#[derive(Drop)]
struct Stored<T> {
    generation: u32,
    value: T,
}

impl<T> Model for Shelf<T> {
    ghost use Rattle.mm_arena.specs.Shelf.{Entries};
    ghost use Rattle.mm_arena.specs.private.Stored.{seen};

    ghost Value = { Entries T };

    ghost view = { λ s. seen s.entries.items };
}

impl<T> Stored<T> {
    /// Returns the key that the value of this process was put with.
    fn key(&self, process: u32) -> Key
        ensures { result ≡ record { process = process; generation = self.now.generation } }
    {
        Key {
            process,
            generation: self.generation,
        }
    }
}

impl<T> Shelf<T> {
    ghost use Rattle.mm_arena.specs.LendingShelf.{lends_get, lends_value, lends_stored};
    ghost use Rattle.mm_arena.specs.private.Stored.{entry_of};
    ghost use Rattle.mm_arena.specs.private.LendingStored.{lends_kept};

    /// Returns a shelf for the processes below `capacity`, none of which has a value, in `O(capacity)`. It takes the memory for all of them, and no
    /// later call takes any.
    ///
    /// `Err` only if that memory is refused.
    pub fn new(alloc: Global, capacity: u32) -> Result<Self, Memory>
        requires some_capacity { 1 ≤ capacity }
        requires capacity_in_range { capacity ≤ MAX_CAPACITY }
        ensures { IfOk result (λ shelf. shelf ≡ replicate capacity None) }
    {
        let mut entries = Vec::with_capacity(alloc, capacity as usize).map_err(|_| Memory)?;
        for _ in 0..capacity {
            entries.push_reserved(None);
        }
        Ok(Shelf { entries })
    }

    // What is kept of a process. `None` if it has no value, or is not below the capacity.
    #[inline]
    fn kept(&self, process: u32) -> Option<&Stored<T>>
        ensures { entry_of process (option_copied result) ≡ entry_at self.now process }
    {
        self.entries.get(process as usize)?.as_ref()
    }

    // What is kept of a process that has a value.
    #[inline]
    fn kept_at(&self, process: u32) -> &Stored<T>
        requires { HasValue self.now process }
        ensures { entry_of process (Some result.now) ≡ entry_at self.now process }
    {
        self.entries[process as usize].as_ref().unwrap()
    }

    // The same for writing.
    #[inline]
    fn kept_mut(&mut self, process: u32) -> &mut Stored<T>
        requires { HasValue self.old process }
        ensures* writes_back { sem 𝓛 (lends_kept T.row self.entry process result) }
        ensures value { entry_of process (Some result.now) ≡ entry_at self.old process }
    {
        self.entries[process as usize].as_mut().unwrap()
    }

    // Takes out what is kept of a process that has a value.
    #[inline]
    fn take_kept(&mut self, process: u32) -> Stored<T>
        requires { HasValue self.old process }
        ensures was { entry_of process (Some result) ≡ entry_at self.old process }
        ensures now { self.new ≡ slice_set self.old process None }
    {
        self.entries[process as usize].take().unwrap()
    }

    // Keeps this of a process from now on, and returns what was kept.
    #[inline]
    fn keep(&mut self, process: u32, stored: Stored<T>) -> Option<Stored<T>>
        requires { process < length self.old }
        ensures was { entry_of process result ≡ entry_at self.old process }
        ensures now { self.new ≡ slice_set self.old process (entry_of process (Some stored)) }
    {
        self.entries[process as usize].replace(stored)
    }

    /// Stores a value under a key whose process is below the capacity, in constant time. Gives what its process had: a value, and the key
    /// that it was under.
    #[inline]
    pub fn put(&mut self, key: Key, value: T) -> Option<(Key, T)>
        requires { key.process < length self.old }
        ensures was { result ≡ entry_at self.old key.process }
        ensures stored { self.new ≡ slice_set self.old key.process (Some (key, value)) }
    {
        let stored = Stored {
            generation: key.generation,
            value,
        };
        let before = self.keep(key.process, stored)?;
        Some((before.key(key.process), before.value))
    }

    /// Returns the value under this very key, in constant time. `None` exactly if its process has no value, or one under another generation.
    #[inline]
    pub fn get(&self, key: Key) -> Option<&T>
        ensures { option_copied result ≡ value_at self.now key }
    {
        match self.kept(key.process) {
            Some(stored) if stored.generation == key.generation => Some(&stored.value),
            _ => None,
        }
    }

    /// Returns the value under this very key for writing, in constant time. `None` exactly if `get` gives `None`.
    pub fn get_mut(&mut self, key: Key) -> Option<&mut T>
        ensures* writes_back { sem 𝓛 (lends_get T.row self.entry key result) }
        ensures value { option_copied_mut result ≡ value_at self.old key }
    {
        if self.get(key).is_some() {
            Some(self.value_mut(key))
        } else {
            None
        }
    }

    // `get_mut` of a key that has a value.
    fn value_mut(&mut self, key: Key) -> &mut T
        requires { IsSome (value_at self.old key) }
        ensures* writes_back { sem 𝓛 (lends_value T.row self.entry key result) }
        ensures value { value_at self.old key ≡ Some result.now }
    {
        &mut self.kept_mut(key.process).value
    }

    /// Takes out the value under this very key, in constant time. `None` exactly if `get` gives `None`, and then nothing changes.
    #[inline]
    pub fn take(&mut self, key: Key) -> Option<T>
        ensures value { result ≡ value_at self.old key }
        ensures entries { self.new ≡ taken self.old key }
    {
        if self.get(key).is_none() {
            return None;
        }
        let stored = self.take_kept(key.process);
        Some(stored.value)
    }

    /// Returns the key under which a process has a value, in constant time. `None` exactly if it has none, or is not below the capacity.
    #[inline]
    pub fn key_at(&self, process: u32) -> Option<Key>
        ensures { result ≡ option_map (λ entry. entry.0) (entry_at self.now process) }
    {
        let stored = self.kept(process)?;
        Some(stored.key(process))
    }

    /// Returns the value of a process that has one, under whatever key, in constant time.
    #[inline]
    pub fn stored(&self, process: u32) -> &T
        requires { HasValue self.now process }
        ensures { option_map (λ entry. entry.1) (entry_at self.now process) ≡ Some result.now }
    {
        &self.kept_at(process).value
    }

    /// Returns the generation of the key under which a process has a value, in constant time, if the caller knows that it has one.
    #[inline]
    pub fn stored_generation(&self, process: u32) -> u32
        requires { HasValue self.now process }
        ensures { option_map (λ entry. entry.0.generation) (entry_at self.now process) ≡ Some result }
    {
        match &self.entries[process as usize] {
            Some(stored) => stored.generation,
            // Unreachable. A number in place of a panic lets the compiler drop the read if the caller ignores the result.
            None => 0,
        }
    }

    /// Returns the value that a process has for writing, in constant time, if the caller knows that it has one. Its key stays.
    #[inline]
    pub fn stored_mut(&mut self, process: u32) -> &mut T
        requires { HasValue self.old process }
        ensures* writes_back { sem 𝓛 (lends_stored T.row self.entry process result) }
        ensures value { option_map (λ entry. entry.1) (entry_at self.old process) ≡ Some result.now }
    {
        &mut self.kept_mut(process).value
    }

    /// Takes out the value that a process has, with the key that it is under, in constant time, if the caller knows that it has one.
    #[inline]
    pub fn take_stored(&mut self, process: u32) -> (Key, T)
        requires { HasValue self.old process }
        ensures value { entry_at self.old process ≡ Some result }
        ensures entries { self.new ≡ slice_set self.old process None }
    {
        let stored = self.take_kept(process);
        (stored.key(process), stored.value)
    }
}
