//! Lists of items, each with a tag: each item is linked to the one before it in its list and to the next.
ghost use Rattle.std.specs.Prelude.{◌≡◌, ◌≤◌, ◌<◌, ℕ, List, length, fold, vec_capacity, IfOk, IfSome, IsNone, None};
ghost use Rattle.std.specs.Option.{ForSome};
ghost use Rattle.mm_lists.specs.Members.{head, NoRepeat};
ghost use Rattle.mm_links.specs.Link.{none_number};
ghost use Rattle.mm_links.specs.Links.{with_before, with_next};
ghost use Rattle.mm_links.specs.Chain.{first_with_next};
ghost use Rattle.mm_tagged_lists.specs.TaggedLists.{unlisted, spot_at, list_at, given, freed, FollowsInList, ListsMatchSpots};
ghost use Rattle.mm_tagged_lists.specs.private.Linked.{links_of, spots_of};
ghost use Rattle.mm_tagged_lists.specs.private.Path.{IsPath, freed_in};

use crate::kept::Kept;
use crate::spot::Spot;
use mm_links::{Link, Links};
use std::alloc::{AllocError, Global};
use std::marker::Model;
use std::mem;

/// What is kept of an item, in sixteen bytes that stand together, so that a call reads and writes one place of the memory.
#[derive(Drop)]
struct Item {
    spot: Kept,
    links: Links,
}

const _: () = prove!(size_of::<Item>() == 16);

/// What is kept of an item that is in no list.
const FREE: Item = Item {
    spot: Kept::NONE,
    links: Links::NONE,
};

/// Lists of items, those that came last first. An item is in one list at most, under a tag. All of the memory is taken when they are
/// made.
pub struct TaggedLists {
    // By list: its first item.
    firsts: Vec<Link>,
    items: Vec<Item>,
}

// Written out, so that a crate that drops them proves nothing of how their parts are dropped.
impl Drop for TaggedLists {
    fn drop(self) {
        let TaggedLists {
            firsts: _,
            items: _,
        } = self;
    }
}

impl Model for TaggedLists {
    ghost use Rattle.mm_tagged_lists.specs.TaggedLists.{Listing};
    ghost use Rattle.mm_tagged_lists.specs.private.Linked.{seen, AreConsistent};

    ghost Value = { Listing };

    ghost view = { λ o. seen o.firsts.items o.items.items };

    ghost invariant = { λ o. AreConsistent o.firsts.items o.items.items };
}

impl TaggedLists {
    /// This many empty lists, and this many items that are in none, in `O(lists + items)`. It takes memory twice, and no later call
    /// takes any.
    ///
    /// `Err` only if that memory is refused.
    pub fn new(alloc: Global, lists: u32, items: u32) -> Result<TaggedLists, AllocError>
        ensures { IfOk result (λ made. made ≡ unlisted lists items) }
    {
        let mut firsts = Vec::with_capacity(alloc, lists as usize)?;
        'firsts: for _ in 0..lists {
            firsts.push_reserved(Link::NONE);
        }
        let mut kept = Vec::with_capacity(alloc, items as usize)?;
        'kept: for _ in 0..items {
            kept.push_reserved(FREE);
        }
        Ok(TaggedLists {
            firsts,
            items: kept,
        })
    }

    /// Returns the list that an item is in, which is one of those that there are, and the tag, in constant time.
    #[inline]
    pub fn spot(&self, item: u32) -> Option<Spot>
        requires { item < length self.now.spots }
        ensures spot { result ≡ spot_at self.now item }
        ensures in_range { IfSome result (λ spot. spot.list < length self.now.lists) }
    {
        self.items[item as usize].spot.get()
    }

    /// Returns the first item of a list, in constant time. `None` if the list is empty.
    #[inline]
    pub fn first(&self, list: u32) -> Option<u32>
        requires { list < length self.now.lists }
        ensures first { result ≡ head (list_at self.now list) }
        ensures matched { ListsMatchSpots self.now }
    {
        self.firsts[list as usize].get()
    }

    /// Returns the item that follows this one in its list, in constant time. `None` for the last of a list, and for an item that is in none.
    #[inline]
    pub fn next(&self, item: u32) -> Option<u32>
        requires { item < length self.now.spots }
        ensures listed { FollowsInList self.now item result }
        ensures unlisted { spot_at self.now item ≡ None → IsNone result }
        ensures matched { ListsMatchSpots self.now }
    {
        self.items[item as usize].links.next.get()
    }

    /// Writes the items of a list, those that came last first, in place of what `items` held, which has room for each item: no memory
    /// is taken. `O(its items)`.
    pub fn list(&self, list: u32, items: &mut Vec<u32>)
        requires in_range { list < length self.now.lists }
        requires room { length self.now.spots ≤ vec_capacity items.old }
        ensures listed { items.new.items ≡ list_at self.now list }
        ensures room { vec_capacity items.new ≡ vec_capacity items.old }
        ensures matched { ListsMatchSpots self.now }
    {
        items.clear();
        let mut next = self.first(list);
        'list: while let Some(item) = next {
            items.push_reserved(item);
            next = self.next(item);
        }
    }

    /// Puts an item that is in no list first into the list of the spot, under the tag of the spot, in constant time.
    #[inline]
    pub fn push(&mut self, spot: Spot, item: u32)
        requires list_in_range { spot.list < length self.old.lists }
        requires item_in_range { item < length self.old.spots }
        requires unlisted { spot_at self.old item ≡ None }
        ensures { self.new ≡ given self.old spot item }
    {
        let first = &mut self.firsts[spot.list as usize];
        let link = Link::to(item);
        let next = mem::replace(first, link);
        let kept = &mut self.items[item as usize];
        kept.spot = Kept::of(spot);
        kept.links.before = Link::NONE;
        kept.links.next = next;
        set_before(&mut self.items, next, link);
    }

    /// Takes all of its items from a list, in `O(its items)`: they are in none then.
    #[inline]
    pub fn free_all(&mut self, list: u32)
        requires { list < length self.old.lists }
        ensures freed { self.new ≡ fold freed self.old (list_at self.old list) }
        ensures matched { ListsMatchSpots self.old }
    {
        let first = mem::replace(&mut self.firsts[list as usize], Link::NONE);
        free_from(&mut self.items, first);
    }

    /// Takes an item from the list that it is in, if it is in one, in constant time. The others in the list keep their order.
    #[inline]
    pub fn remove(&mut self, item: u32)
        requires { item < length self.old.spots }
        ensures { self.new ≡ freed self.old item }
    {
        let Some(spot) = self.spot(item) else {
            return;
        };
        let was = mem::replace(&mut self.items[item as usize], FREE);
        let Links { before, next } = was.links;
        set_next(
            &mut self.firsts[spot.list as usize],
            &mut self.items,
            before,
            next,
        );
        set_before(&mut self.items, next, before);
    }

    /// Does nothing. Its contract is what holds of any lists that a caller can hold.
    #[inline(always)]
    pub fn keeps_laws(&self)
        ensures matched { ListsMatchSpots self.now }
        ensures few { length self.now.spots ≤ none_number }
    {
        let _ = &self.firsts;
    }
}

/// Sets what comes before an item, if there is one.
#[inline]
fn set_before(items: &mut [Item], item: Link, before: Link)
    requires { ForSome item (λ r. r < length items.old) }
    ensures links { links_of items.new ≡ with_before (links_of items.old) item before }
    ensures spots { spots_of items.new ≡ spots_of items.old }
{
    if let Some(item) = item.get() {
        items[item as usize].links.before = before;
    }
}

/// Sets what follows an item. If there is none, it is the first of its list.
#[inline]
fn set_next(first: &mut Link, items: &mut [Item], item: Link, next: Link)
    requires { ForSome item (λ r. r < length items.old) }
    ensures first { first.new ≡ first_with_next first.old item next }
    ensures links { links_of items.new ≡ with_next (links_of items.old) item next }
    ensures spots { spots_of items.new ≡ spots_of items.old }
{
    match item.get() {
        None => *first = next,
        Some(item) => items[item as usize].links.next = next,
    }
}

/// Frees the items from this one on, each of which leads to the next.
#[inline]
fn free_from(items: &mut [Item], first: Link)
    requires { (rs : List ℕ) × NoRepeat rs × IsPath (links_of items.old) first rs }
    ensures { (rs : List ℕ) → NoRepeat rs → IsPath (links_of items.old) first rs → items.new ≡ fold freed_in items.old rs }
{
    let mut next = first;
    'all: while let Some(item) = next.get() {
        let was = mem::replace(&mut items[item as usize], FREE);
        next = was.links.next;
    }
}
