//! What is kept of a key that stands in a list.
ghost use Rattle.std.specs.Prelude.{◌≡◌};
ghost use Rattle.std.specs.Option.{ForSome};
ghost use Rattle.mm_links.specs.Chain.{first_with_next};
ghost use Rattle.mm_links.specs.Links.{with_before, with_next};
ghost use Rattle.mm_queue.specs.private.Linked.{links_of, tags_of, HasEntry};

use mm_arena::Shelf;
use mm_links::{Link, Links};

/// The list in which a key stands, and its links to the processes of the keys before it and after it there. It takes twelve bytes.
#[derive(Clone, Copy)]
pub(crate) struct Standing {
    pub(crate) list: u32,
    pub(crate) links: Links,
}

const _: () = prove!(size_of::<Standing>() == 12);

/// Sets what comes before a process, in constant time. If there is none, it is the last of its list.
#[inline]
pub(crate) fn set_before(
    entries: &mut Shelf<Standing>,
    last: &mut Link,
    process: Link,
    before: Link,
)
    requires { ForSome process (HasEntry entries.old) }
    ensures last { last.new ≡ first_with_next last.old process before }
    ensures links { links_of entries.new ≡ with_before (links_of entries.old) process before }
    ensures tags { tags_of entries.new ≡ tags_of entries.old }
{
    match process.get() {
        None => *last = before,
        Some(process) => entries.stored_mut(process).links.before = before,
    }
}

/// Sets what follows a process, in constant time. If there is none, it is the first of its list.
#[inline]
pub(crate) fn set_next(entries: &mut Shelf<Standing>, first: &mut Link, process: Link, next: Link)
    requires { ForSome process (HasEntry entries.old) }
    ensures first { first.new ≡ first_with_next first.old process next }
    ensures links { links_of entries.new ≡ with_next (links_of entries.old) process next }
    ensures tags { tags_of entries.new ≡ tags_of entries.old }
{
    match process.get() {
        None => *first = next,
        Some(process) => entries.stored_mut(process).links.next = next,
    }
}
