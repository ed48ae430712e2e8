//! The lists.
ghost use Rattle.std.specs.Prelude.{◌≡◌, ◌<◌, ◌≤◌, ◌↔◌, ◌++◌, ◌∷◌, [], length, drop, IsTrue, IsNone, IfOk, MatchOption};
ghost use Rattle.std.specs.Bool.{OnFalse};
ghost use Rattle.mm_lists.specs.Members.{Among, head};
ghost use Rattle.mm_queue.specs.Queues.{queue, empty_queues, with_queue, Stands, IsOccupied, IsNextKey, IsNextProcess, Removes, StandsOnce};

use crate::ends::Ends;
use crate::standing::{Standing, set_before, set_next};
use mm_arena::{Key, MAX_CAPACITY, Memory, Shelf};
use mm_links::{Link, Links};
use std::alloc::Global;
use std::marker::Model;

/// Lists of keys, in each of which the keys stand in the order in which they came. A process stands in at most one list, under one key,
/// once. All of the memory is taken when it is made.
#[derive(Drop)]
pub struct Lists {
    ends: Vec<Ends>,
    entries: Shelf<Standing>,
}

impl Model for Lists {
    ghost use Rattle.mm_queue.specs.Queues.{Queues};
    ghost use Rattle.mm_queue.specs.private.Linked.{seen, AreConsistent};

    ghost Value = { Queues };

    ghost view = { λ l. seen l.ends.items l.entries };

    ghost invariant = { λ l. AreConsistent l.ends.items l.entries };
}

impl Lists {
    /// This many lists without keys, for this many processes, in `O(lists + processes)`. It takes memory twice, and no later call takes any.
    ///
    /// `Err` only if that memory is refused.
    pub fn new(alloc: Global, lists: u32, processes: u32) -> Result<Lists, Memory>
        requires some_lists { 1 ≤ lists }
        requires lists_in_range { lists ≤ MAX_CAPACITY }
        requires some_processes { 1 ≤ processes }
        requires processes_in_range { processes ≤ MAX_CAPACITY }
        ensures { IfOk result (λ made. made ≡ empty_queues lists processes) }
    {
        Lists::new_wide(alloc, lists, processes)
    }

    /// `new` for any number of lists, such as one for each name of a manager.
    pub fn new_wide(alloc: Global, lists: u32, processes: u32) -> Result<Lists, Memory>
        requires some_lists { 1 ≤ lists }
        requires some_processes { 1 ≤ processes }
        requires processes_in_range { processes ≤ MAX_CAPACITY }
        ensures { IfOk result (λ made. made ≡ empty_queues lists processes) }
    {
        let mut ends = Vec::with_capacity(alloc, lists as usize).map_err(|_| Memory)?;
        for _ in 0..lists {
            ends.push_reserved(Ends::NONE);
        }
        let entries = Shelf::new(alloc, processes)?;
        Ok(Lists { ends, entries })
    }

    /// Puts a key last in a list, in constant time. Its process stands in no list yet.
    #[inline]
    pub fn push_back(&mut self, list: u32, key: Key)
        requires list_in_range { list < length self.old.lists }
        requires process_in_range { key.process < self.old.processes }
        requires not_occupied { ¬ IsOccupied self.old key.process }
        ensures { self.new ≡ with_queue self.old list (queue self.old list ++ key ∷ []) }
    {
        let ends = &mut self.ends[list as usize];
        let last = ends.back;
        let link = Link::to(key.process);
        ends.back = link;
        ends.len += 1;
        self.entries.put(
            key,
            Standing {
                list,
                links: Links {
                    before: last,
                    ..Links::NONE
                },
            },
        );
        set_next(&mut self.entries, &mut ends.front, last, link);
    }

    /// Returns the first key of a list, in constant time. `None` if the list has none.
    #[inline]
    pub fn front(&self, list: u32) -> Option<Key>
        requires { list < length self.now.lists }
        ensures { result ≡ head (queue self.now list) }
    {
        let process = self.ends[list as usize].front.get()?;
        let generation = self.entries.stored_generation(process);
        Some(Key {
            process,
            generation,
        })
    }

    /// Returns the key after this one in its list, in constant time. `None` for the last of a list, and for a key that stands in no list.
    ///
    /// Kept for the published interface: no crate above calls it.
    #[inline]
    pub fn next(&self, key: Key) -> Option<Key>
        ensures listed { IsNextKey self.now key result }
        ensures absent { ¬ Stands self.now key → IsNone result }
    {
        let process = self.entries.get(key)?.links.next.get()?;
        let Key { generation, .. } = self.entries.key_at(process)?;
        // Its process is that of the link, which is known before the key is read.
        Some(Key {
            process,
            generation,
        })
    }

    /// Returns the process whose key comes after that of a process which stands in a list, in constant time. `None` for the last of the list.
    #[inline]
    pub fn next_process(&self, process: u32) -> Option<u32>
        requires { IsOccupied self.now process }
        ensures { IsNextProcess self.now process result }
    {
        let Links { next, .. } = self.entries.stored(process).links;
        next.get()
    }

    /// Takes a key out of its list, in constant time. `false` exactly if it stands in none, and then nothing changes.
    ///
    /// Kept for the published interface: no crate above calls it.
    #[inline]
    pub fn remove(&mut self, key: Key) -> bool
        ensures found { IsTrue result ↔ Stands self.old key }
        ensures removed { Removes self.old self.new key }
        ensures absent { OnFalse result (self.new ≡ self.old) }
        ensures lists { length self.new.lists ≡ length self.old.lists }
        ensures processes { self.new.processes ≡ self.old.processes }
    {
        let Some(_) = self.entries.get(key) else {
            return false;
        };
        self.take_out(key);
        true
    }

    /// Takes a key that stands in a list out of it, in constant time, without a test.
    #[inline]
    pub fn take_out(&mut self, key: Key)
        requires { Stands self.old key }
        ensures removed { Removes self.old self.new key }
        ensures lists { length self.new.lists ≡ length self.old.lists }
        ensures processes { self.new.processes ≡ self.old.processes }
    {
        let (_, entry) = self.entries.take_stored(key.process);
        let Links { before, next } = entry.links;
        let ends = &mut self.ends[entry.list as usize];
        ends.len -= 1;
        set_next(&mut self.entries, &mut ends.front, before, next);
        set_before(&mut self.entries, &mut ends.back, next, before);
    }

    /// Takes the first key out of a list, in constant time. `None` if the list has none, and then nothing changes.
    ///
    /// Kept for the published interface: no crate above calls it.
    pub fn pop_front(&mut self, list: u32) -> Option<Key>
        requires { list < length self.old.lists }
        ensures key { result ≡ head (queue self.old list) }
        ensures rest { self.new ≡ with_queue self.old list (drop 1 (queue self.old list)) }
    {
        let key = self.front(list)?;
        self.remove(key);
        Some(key)
    }

    /// Returns how many keys a list has, in constant time.
    ///
    /// Kept for the published interface: no crate above calls it.
    pub fn len(&self, list: u32) -> u32
        requires { list < length self.now.lists }
        ensures { result ≡ length (queue self.now list) }
    {
        self.ends[list as usize].len
    }

    /// Returns the list in which a key stands, in constant time. `None` exactly if it stands in none.
    ///
    /// Kept for the published interface: no crate above calls it.
    pub fn list_of(&self, key: Key) -> Option<u32>
        ensures { MatchOption result (¬ Stands self.now key) (λ list. Among key (queue self.now list)) }
    {
        Some(self.entries.get(key)?.list)
    }

    /// Returns whether a key of this process stands in some list, in constant time.
    ///
    /// Kept for the published interface: no crate above calls it.
    pub fn occupied(&self, process: u32) -> bool
        ensures { IsTrue result ↔ IsOccupied self.now process }
    {
        self.entries.key_at(process).is_some()
    }

    /// What holds of any lists that a caller can hold: a process stands in at most one, once. It does nothing.
    ///
    /// Kept for the published interface, which says this: no proof above cites it.
    pub fn stands_once(&self)
        ensures { StandsOnce self.now }
    {
        let _ = &self.ends;
    }
}
