//! The parts of workers that have ended become one table again.
ghost use Rattle.std.specs.Prelude.{◌≡◌, ◌+◌, ◌≤◌, vec_len, vec_capacity, count_by};
ghost use Rattle.mm_clients.specs.End.{is_aborted};

use crate::divisible::Divisible;
use crate::job::{Ended, Stopped};
use mm_clients::{EarlierEnds, End};

/// Joins the parts of the clients, lists their last ends in order, and returns the earlier ones.
pub fn gather_clients<S: Divisible + Drop>(
    table: &mut S,
    ended: Vec<Ended<S>>,
    ends: &mut Vec<End>,
) -> EarlierEnds
    requires empty { vec_len ends.old ≡ 0 }
    requires room { vec_len ended ≤ vec_capacity ends.old }
    requires few { vec_len ended ≤ 64 }
    ensures each { vec_len ends.new ≡ vec_len ended }
    ensures parts { (S.shares table.new).parts ≡ (S.shares table.old).parts + vec_len ended }
    ensures aborts { (S.shares table.new).aborts ≡ (S.shares table.old).aborts + count_by is_aborted ends.new.items + result.aborted }
{
    let mut earlier = EarlierEnds::NONE;
    for one in ended {
        let (own, part) = one.into_parts();
        table.join(part);
        ends.push_reserved(own.last);
        earlier.finished += own.earlier.finished;
        earlier.aborted += own.earlier.aborted;
    }
    earlier
}

/// Joins the parts of the transmitters.
pub fn gather_transmitters<S: Divisible + Drop>(table: &mut S, stopped: Vec<Stopped<S>>)
    ensures parts { (S.shares table.new).parts ≡ (S.shares table.old).parts + vec_len stopped }
    ensures aborts { (S.shares table.new).aborts ≡ (S.shares table.old).aborts }
{
    for one in stopped {
        table.join(one.into_part());
    }
}
