//! An arena of one slot, whose second key is its last one, and a shelf on which a later key takes the place of an earlier one.
ghost use Rattle.std.specs.Prelude.{◌≡◌, ◌<◌, length};

use crate::tests::same::same;
use mm_arena::{Arena, Key, Shelf};
use std::process::Abort;
use std::test::Fail;

/// Keys of process 0.
const FIRST: Key = Key {
    process: 0,
    generation: 1,
};

const SECOND: Key = Key {
    process: 0,
    generation: 2,
};

/// A call of an arena, and what it answers.
enum Step {
    Insert(u64, Result<Key, u64>),
    Remove(Key, Option<u64>),
    Get(Key, Option<u64>),
    KeyAt(u32, Option<Key>),
}

static ARENA: [Step; 8] = [
    Step::Insert(7, Ok(FIRST)),
    Step::Insert(8, Err(8)),
    Step::Remove(FIRST, Some(7)),
    Step::Insert(8, Ok(SECOND)),
    Step::Get(FIRST, None),
    Step::Remove(SECOND, Some(8)),
    Step::Insert(9, Err(9)),
    Step::KeyAt(0, None),
];

impl Step {
    /// Makes the call. Ends the test if it answers something else.
    fn make(&self, rt: &impl Abort, arena: &mut Arena<u64>) {
        match self {
            Step::Insert(value, answer) => same(rt, arena.insert(*value), *answer),
            Step::Remove(key, answer) => same(rt, arena.remove(*key), *answer),
            Step::Get(key, answer) => same(rt, arena.get(*key).copied(), *answer),
            Step::KeyAt(process, answer) => same(rt, arena.key_at(*process), *answer),
        }
    }
}

#[test]
fn a_slot_is_used_up(rt: HostRuntime) -> Result<(), Fail> {
    let mut arena = Arena::new(rt.alloc(), 1, 2)?;
    for step in &ARENA {
        step.make(&rt, &mut arena);
    }
    Ok(())
}

/// A call of a shelf, and what it answers.
enum ShelfStep {
    Put(Key, u64, Option<(Key, u64)>),
    Take(Key, Option<u64>),
    Get(Key, Option<u64>),
}

static SHELF: [ShelfStep; 7] = [
    ShelfStep::Put(FIRST, 7, None),
    ShelfStep::Get(FIRST, Some(7)),
    ShelfStep::Get(SECOND, None),
    ShelfStep::Put(SECOND, 8, Some((FIRST, 7))),
    ShelfStep::Take(FIRST, None),
    ShelfStep::Take(SECOND, Some(8)),
    ShelfStep::Get(SECOND, None),
];

impl ShelfStep {
    /// Makes the call. Ends the test if it answers something else.
    fn make(&self, rt: &impl Abort, shelf: &mut Shelf<u64>)
        requires { 0 < length shelf.old }
        ensures { length shelf.new ≡ length shelf.old }
    {
        match self {
            ShelfStep::Put(key, value, answer) => {
                assert!(rt; key.process == 0);
                same(rt, shelf.put(*key, *value), *answer);
            }
            ShelfStep::Take(key, answer) => same(rt, shelf.take(*key), *answer),
            ShelfStep::Get(key, answer) => same(rt, shelf.get(*key).copied(), *answer),
        }
    }
}

#[test]
fn a_later_key_takes_the_place(rt: HostRuntime) -> Result<(), Fail> {
    let mut shelf = Shelf::new(rt.alloc(), 2)?;
    for step in &SHELF {
        step.make(&rt, &mut shelf);
    }
    Ok(())
}
