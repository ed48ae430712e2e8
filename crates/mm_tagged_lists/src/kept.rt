//! A spot, or none, in eight bytes.
ghost use Rattle.std.specs.Prelude.{◌≡◌, ◌<◌, None, Some};
ghost use Rattle.mm_links.specs.Link.{none_number};

use crate::spot::Spot;
use mm_links::Link;
use std::marker::Model;

/// A spot, or none, in eight bytes: a link to the list of the spot, and its tag.
#[derive(Drop)]
pub struct Kept {
    list: Link,
    tag: u32,
}

const _: () = prove!(size_of::<Kept>() == 8);

impl Model for Kept {
    ghost use Rattle.std.specs.Prelude.{Option};
    ghost use Rattle.mm_tagged_lists.specs.declared.spot.Spot.{Spot};
    ghost use Rattle.mm_tagged_lists.specs.private.Kept.{kept_spot};

    ghost Value = { Option Spot };

    ghost view = { λ o. kept_spot o.list o.tag };
}

impl Kept {
    /// No spot. All of its bits are set, as those of `Links::NONE` are, so that new lists fill their items byte by byte.
    pub const NONE: Kept = Kept {
        list: Link::NONE,
        tag: u32::MAX,
    };

    /// This spot, whose list is below `u32::MAX`, in constant time.
    #[inline]
    pub fn of(spot: Spot) -> Kept
        requires { spot.list < none_number }
        ensures { result ≡ Some spot }
    {
        Kept {
            list: Link::to(spot.list),
            tag: spot.tag,
        }
    }

    /// Returns the spot, in constant time.
    #[inline]
    pub fn get(&self) -> Option<Spot>
        ensures { result ≡ self.now }
    {
        let list = self.list.get()?;
        Some(Spot {
            list,
            tag: self.tag,
        })
    }
}
