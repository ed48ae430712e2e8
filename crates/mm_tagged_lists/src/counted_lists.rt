//! `TaggedLists` that keep how many items each list has.
ghost use Rattle.std.specs.Prelude.{◌≡◌, ◌≤◌, ◌<◌, length, replicate, fold, vec_capacity, IfOk, IfSome, IsNone, None};
ghost use Rattle.mm_lists.specs.Members.{head};
ghost use Rattle.mm_tagged_lists.specs.TaggedLists.{unlisted, spot_at, list_at, given, freed, FollowsInList, ListsMatchSpots};

use crate::spot::Spot;
use crate::tagged_lists::TaggedLists;
use std::alloc::{AllocError, Global};
use std::marker::Model;

/// `TaggedLists` that also keep how many items each list has, in four bytes a list. Its calls are those of `TaggedLists`, and cost what
/// those do.
pub struct CountedLists {
    lists: TaggedLists,
    // By list: how many items it has.
    lens: Vec<u32>,
}

// Written out, so that a crate that drops them proves nothing of how their parts are dropped.
impl Drop for CountedLists {
    fn drop(self) {
        let CountedLists { lists: _, lens: _ } = self;
    }
}

impl Model for CountedLists {
    ghost use Rattle.mm_tagged_lists.specs.TaggedLists.{Listing};
    ghost use Rattle.mm_tagged_lists.specs.private.Counted.{AreCounted};

    ghost Value = { Listing };

    ghost view = { λ o. o.lists };

    ghost invariant = { λ o. AreCounted o.lists o.lens.items };
}

impl CountedLists {
    /// This many empty lists, and this many items that are in none, in `O(lists + items)`. It takes memory three times, and no later call
    /// takes any.
    ///
    /// `Err` only if that memory is refused.
    pub fn new(alloc: Global, lists: u32, items: u32) -> Result<CountedLists, AllocError>
        ensures { IfOk result (λ made. made ≡ unlisted lists items) }
    {
        Ok(CountedLists {
            lists: TaggedLists::new(alloc, lists, items)?,
            lens: zeros(alloc, lists)?,
        })
    }

    /// Returns how many items a list has, in constant time.
    #[inline]
    pub fn len(&self, list: u32) -> u32
        requires { list < length self.now.lists }
        ensures { result ≡ length (list_at self.now list) }
    {
        self.lens[list as usize]
    }

    /// Returns the list that an item is in, which is one of those that there are, and the tag, in constant time.
    #[inline]
    pub fn spot(&self, item: u32) -> Option<Spot>
        requires { item < length self.now.spots }
        ensures spot { result ≡ spot_at self.now item }
        ensures in_range { IfSome result (λ spot. spot.list < length self.now.lists) }
    {
        self.lists.spot(item)
    }

    /// Returns the first item of a list, in constant time. `None` if the list is empty.
    #[inline]
    pub fn first(&self, list: u32) -> Option<u32>
        requires { list < length self.now.lists }
        ensures first { result ≡ head (list_at self.now list) }
        ensures matched { ListsMatchSpots self.now }
    {
        self.lists.first(list)
    }

    /// Returns the item that follows this one in its list, in constant time. `None` for the last of a list, and for an item that is in none.
    #[inline]
    pub fn next(&self, item: u32) -> Option<u32>
        requires { item < length self.now.spots }
        ensures listed { FollowsInList self.now item result }
        ensures unlisted { spot_at self.now item ≡ None → IsNone result }
        ensures matched { ListsMatchSpots self.now }
    {
        self.lists.next(item)
    }

    /// Writes the items of a list, those that came last first, in place of what `items` held, which has room for each item: no memory
    /// is taken. `O(its items)`.
    pub fn list(&self, list: u32, items: &mut Vec<u32>)
        requires in_range { list < length self.now.lists }
        requires room { length self.now.spots ≤ vec_capacity items.old }
        ensures listed { items.new.items ≡ list_at self.now list }
        ensures room { vec_capacity items.new ≡ vec_capacity items.old }
        ensures matched { ListsMatchSpots self.now }
    {
        self.lists.list(list, items);
    }

    /// Puts an item that is in no list first into the list of the spot, under the tag of the spot, in constant time.
    #[inline]
    pub fn push(&mut self, spot: Spot, item: u32)
        requires list_in_range { spot.list < length self.old.lists }
        requires item_in_range { item < length self.old.spots }
        requires unlisted { spot_at self.old item ≡ None }
        ensures { self.new ≡ given self.old spot item }
    {
        self.lists.keeps_laws();
        self.lens[spot.list as usize] += 1;
        self.lists.push(spot, item);
    }

    /// Takes all of its items from a list, in `O(its items)`: they are in none then.
    #[inline]
    pub fn free_all(&mut self, list: u32)
        requires { list < length self.old.lists }
        ensures freed { self.new ≡ fold freed self.old (list_at self.old list) }
        ensures matched { ListsMatchSpots self.old }
    {
        self.lists.keeps_laws();
        self.lens[list as usize] = 0;
        self.lists.free_all(list);
    }

    /// Takes an item from the list that it is in, if it is in one, in constant time. The others in the list keep their order.
    #[inline]
    pub fn remove(&mut self, item: u32)
        requires { item < length self.old.spots }
        ensures { self.new ≡ freed self.old item }
    {
        self.lists.keeps_laws();
        let Some(spot) = self.lists.spot(item) else {
            return;
        };
        self.lens[spot.list as usize] -= 1;
        self.lists.remove(item);
    }
}

/// This many zeros.
fn zeros(alloc: Global, count: u32) -> Result<Vec<u32>, AllocError>
    ensures { IfOk result (λ made. made.items ≡ replicate count 0) }
{
    let mut zeros = Vec::with_capacity(alloc, count as usize)?;
    for _ in 0..count {
        zeros.push_reserved(0);
    }
    Ok(zeros)
}
