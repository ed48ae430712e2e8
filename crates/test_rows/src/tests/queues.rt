//! Two queues of keys, for four processes.
ghost use Rattle.std.specs.Prelude.{◌≡◌, length};

use crate::tests::same::same;
use mm_arena::Key;
use mm_queue::Lists;
use std::process::Abort;
use std::test::Fail;

const QUEUES: u32 = 2;

const PROCESSES: u32 = 4;

/// A key: its process and its generation.
type Parts = (u32, u32);

/// A call, with its queue, its process or its key, and what it answers.
enum Step {
    Push(u32, Parts),
    Front(u32, Option<Parts>),
    Pop(u32, Option<Parts>),
    Len(u32, u32),
    Next(Parts, Option<Parts>),
    Remove(Parts, bool),
    QueueOf(Parts, Option<u32>),
    Occupied(u32, bool),
}

static STEPS: [Step; 19] = [
    Step::Push(0, (1, 1)),
    Step::Push(0, (3, 1)),
    Step::Push(1, (0, 2)),
    Step::Push(0, (2, 1)),
    Step::Front(0, Some((1, 1))),
    Step::Next((1, 1), Some((3, 1))),
    Step::Len(0, 3),
    Step::Remove((3, 1), true),
    Step::Next((1, 1), Some((2, 1))),
    Step::Remove((3, 1), false),
    Step::Remove((2, 9), false),
    Step::QueueOf((2, 1), Some(0)),
    Step::Occupied(3, false),
    Step::Pop(0, Some((1, 1))),
    Step::Len(0, 1),
    Step::Pop(1, Some((0, 2))),
    Step::Front(1, None),
    Step::Next((2, 1), None),
    Step::QueueOf((2, 9), None),
];

fn key((process, generation): Parts) -> Key {
    Key {
        process,
        generation,
    }
}

fn parts(key: Option<Key>) -> Option<Parts> {
    key.map(|key| (key.process, key.generation))
}

impl Step {
    /// Makes the call. Ends the test if it answers something else.
    fn make(&self, rt: &impl Abort, lists: &mut Lists)
        requires { (length lists.old.lists ≡ QUEUES) × (lists.old.processes ≡ PROCESSES) }
        ensures { (length lists.new.lists ≡ QUEUES) × (lists.new.processes ≡ PROCESSES) }
    {
        match *self {
            Step::Push(queue, parts) => {
                let key = key(parts);
                let is_free = key.process < PROCESSES && !lists.occupied(key.process);
                assert!(rt; queue < QUEUES && is_free);
                lists.push_back(queue, key);
            }
            Step::Front(queue, answer) => {
                assert!(rt; queue < QUEUES);
                same(rt, parts(lists.front(queue)), answer);
            }
            Step::Pop(queue, answer) => {
                assert!(rt; queue < QUEUES);
                same(rt, parts(lists.pop_front(queue)), answer);
            }
            Step::Len(queue, answer) => {
                assert!(rt; queue < QUEUES);
                same(rt, lists.len(queue), answer);
            }
            Step::Next(parts_of, answer) => same(rt, parts(lists.next(key(parts_of))), answer),
            Step::Remove(parts, answer) => same(rt, lists.remove(key(parts)), answer),
            Step::QueueOf(parts, answer) => same(rt, lists.list_of(key(parts)), answer),
            Step::Occupied(process, answer) => same(rt, lists.occupied(process), answer),
        }
    }
}

#[test]
fn queues_keep_the_order(rt: HostRuntime) -> Result<(), Fail> {
    let mut lists = Lists::new(rt.alloc(), QUEUES, PROCESSES)?;
    for step in &STEPS {
        step.make(&rt, &mut lists);
    }
    Ok(())
}
