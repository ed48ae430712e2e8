//! Which connection began each transaction.
ghost use Rattle.std.specs.Prelude.{◌≡◌, ◌<◌, ◌*◌, ◌%◌, length, IfOk, IfSome, MatchOption, Some, []};
ghost use Rattle.mm_tagged_lists.specs.TaggedLists.{unlisted, spot_at, list_at, freed, ListsMatchSpots};
ghost use Rattle.mm_lists.specs.Members.{head};
ghost use Rattle.mm_connections.specs.Begun.{aside_list, begun_by, connection_of, has_any, has_first, is_aside, is_open, listed, now_aside, open_list, set_aside};

use mm_manager::Key;
use mm_tagged_lists::{Spot, TaggedLists};
use std::alloc::{AllocError, Global};
use std::marker::Model;

/// By connection the processes of which it began the last transaction, each with the generation of that one, in two lists: those that are
/// set aside, since the connection hangs up, and the others. All of the memory is taken when it is made.
#[derive(Drop)]
pub struct Begun {
    lists: TaggedLists,
    /// How many lists there are: two for each connection.
    lists_len: u32,
    /// How many processes there are.
    processes: u32,
}

impl Model for Begun {
    ghost use Rattle.mm_tagged_lists.specs.TaggedLists.{ListsMatchSpots, Listing};
    ghost use Rattle.std.specs.Prelude.{◌≡◌, length};

    ghost Value = { Listing };

    ghost view = { λ b. b.lists };

    ghost invariant = { λ b. (b.lists_len ≡ length b.lists.lists) × (b.processes ≡ length b.lists.spots) × ListsMatchSpots b.lists };
}

// The first statement of most methods reads a field of its own, by which the prover knows the invariant there.
impl Begun {
    /// The lists of each connection have the processes of which it is kept, each once.
    pub fn keeps_laws(&self)
        ensures { ListsMatchSpots self.now }
    {
        let _processes = self.processes;
    }

    /// Makes one in which no connection has begun a transaction. It is refused if that memory is, or if there are 2,147,483,648 connections or
    /// more.
    pub fn new(alloc: Global, connections: u32, processes: u32) -> Result<Begun, AllocError>
        ensures { IfOk result (λ begun. begun ≡ unlisted (connections * 2) processes) }
    {
        let Some(lists_len) = connections.checked_mul(2) else {
            return Err(AllocError);
        };
        let lists = TaggedLists::new(alloc, lists_len, processes)?;
        Ok(Begun {
            lists,
            lists_len,
            processes,
        })
    }

    /// Returns the connection that began a transaction, if that was not dropped since, in constant time.
    pub fn connection(&self, key: Key) -> Option<u32>
        ensures { result ≡ connection_of self.now key }
    {
        if key.process >= self.processes {
            return None;
        }
        let spot = self.lists.spot(key.process)?;
        if spot.tag == key.generation {
            Some(spot.list / 2)
        } else {
            None
        }
    }

    /// Returns whether a connection began a transaction, and it is not set aside, in constant time.
    pub fn is_open(&self, connection: u32, key: Key) -> bool
        ensures { result ≡ is_open self.now connection key }
    {
        if key.process >= self.processes {
            return false;
        }
        match self.lists.spot(key.process) {
            Some(spot) => {
                spot.tag == key.generation && spot.list % 2 == 0 && spot.list / 2 == connection
            }
            None => false,
        }
    }

    /// Returns whether a transaction is set aside, in constant time.
    pub fn is_aside(&self, key: Key) -> bool
        ensures { result ≡ is_aside self.now key }
    {
        if key.process >= self.processes {
            return false;
        }
        match self.lists.spot(key.process) {
            Some(spot) => spot.tag == key.generation && spot.list % 2 == 1,
            None => false,
        }
    }

    /// Keeps that the connection began this transaction, in constant time.
    pub fn begin(&mut self, connection: u32, key: Key)
        requires connection { aside_list connection < length self.old.lists }
        requires process { key.process < length self.old.spots }
        ensures begun { self.new ≡ begun_by self.old connection key }
        ensures lists { length self.new.lists ≡ length self.old.lists }
        ensures spots { length self.new.spots ≡ length self.old.spots }
    {
        let _count = self.lists_len;
        self.put(connection * 2, key);
    }

    /// Sets aside the first process of a connection that is not, and returns its last transaction, in constant time.
    pub fn set_first_aside(&mut self, connection: u32) -> Option<Key>
        requires { aside_list connection < length self.old.lists }
        ensures aside { MatchOption result ((list_at self.old (open_list connection) ≡ []) × (self.new ≡ self.old))
            (λ key. (self.new ≡ set_aside self.old connection key) × (head (list_at self.old (open_list connection)) ≡ Some key.process)
            × (spot_at self.old key.process ≡ Some (record { list = open_list connection; tag = key.generation }))) }
        ensures lists { length self.new.lists ≡ length self.old.lists }
        ensures spots { length self.new.spots ≡ length self.old.spots }
    {
        let _count = self.lists_len;
        let key = self.first(connection * 2)?;
        self.put(connection * 2 + 1, key);
        Some(key)
    }

    /// Sets a transaction aside, if it is a connection's, in constant time.
    pub fn set_aside(&mut self, key: Key)
        requires { length self.old.lists % 2 ≡ 0 }
        ensures aside { self.new ≡ now_aside self.old key }
        ensures lists { length self.new.lists ≡ length self.old.lists }
        ensures spots { length self.new.spots ≡ length self.old.spots }
    {
        let _count = self.lists_len;
        if key.process >= self.processes {
            return;
        }
        let Some(spot) = self.lists.spot(key.process) else {
            return;
        };
        if spot.tag == key.generation {
            self.put(spot.list / 2 * 2 + 1, key);
        }
    }

    /// Returns the last transaction of the first process of a connection that is set aside, in constant time.
    pub fn first_aside(&self, connection: u32) -> Option<Key>
        requires { aside_list connection < length self.now.lists }
        ensures first { MatchOption result (list_at self.now (aside_list connection) ≡ []) (λ key. (head (list_at self.now (aside_list connection)) ≡ Some key.process)
            × (spot_at self.now key.process ≡ Some (record { list = aside_list connection; tag = key.generation }))) }
        ensures within { IfSome result (λ key. key.process < length self.now.spots) }
    {
        let _count = self.lists_len;
        self.first(connection * 2 + 1)
    }

    /// Takes a process out of its list: it is nobody's from now on. Constant time.
    pub fn free(&mut self, process: u32)
        requires { process < length self.old.spots }
        ensures freed { self.new ≡ freed self.old process }
        ensures lists { length self.new.lists ≡ length self.old.lists }
        ensures spots { length self.new.spots ≡ length self.old.spots }
    {
        let _count = self.lists_len;
        self.lists.remove(process);
    }

    /// Returns whether a connection has processes that are not set aside, in constant time.
    pub fn has_open(&self, connection: u32) -> bool
        requires { aside_list connection < length self.now.lists }
        ensures { result ≡ has_first self.now (open_list connection) }
    {
        let _count = self.lists_len;
        self.lists.first(connection * 2).is_some()
    }

    /// Returns whether a connection has processes, in constant time.
    pub fn has_any(&self, connection: u32) -> bool
        requires { aside_list connection < length self.now.lists }
        ensures { result ≡ has_any self.now connection }
    {
        let _count = self.lists_len;
        self.has_open(connection) || self.lists.first(connection * 2 + 1).is_some()
    }

    /// Returns the last transaction of the first process of a list.
    fn first(&self, list: u32) -> Option<Key>
        requires { list < length self.now.lists }
        ensures first { MatchOption result (list_at self.now list ≡ []) (λ key. (head (list_at self.now list) ≡ Some key.process)
            × (spot_at self.now key.process ≡ Some (record { list = list; tag = key.generation }))) }
        ensures within { IfSome result (λ key. key.process < length self.now.spots) }
    {
        let process = self.lists.first(list)?;
        let spot = self.lists.spot(process)?;
        Some(Key {
            process,
            generation: spot.tag,
        })
    }

    /// Puts a transaction first into a list, and takes its process from the list that it was in.
    fn put(&mut self, list: u32, key: Key)
        requires list { list < length self.old.lists }
        requires process { key.process < length self.old.spots }
        ensures put { self.new ≡ listed self.old list key }
        ensures lists { length self.new.lists ≡ length self.old.lists }
        ensures spots { length self.new.spots ≡ length self.old.spots }
    {
        let process = key.process;
        self.lists.remove(process);
        let spot = Spot {
            list,
            tag: key.generation,
        };
        self.lists.push(spot, process);
    }
}
