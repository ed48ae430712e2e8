use crate::{Answer, Counter, Locks};
use mm_mutex::YieldingMutex;
use std::sync::{Mutex, Wait};
use std::test::Fail;
use std::thread;
use std::thread::Threads;
use std::time::{Clock, Instant};

const ROUNDS: u64 = 20_000;

fn count_all<R: Wait + Clock>(rt: &R, counter: &Counter) {
    for _ in 0..ROUNDS {
        let _ = counter.count(rt);
    }
}

#[test]
fn counts_each_once(rt: HostRuntime) -> Result<(), Fail> {
    let counter = Counter::new(rt.alloc())?;
    let (there, here) = (&counter, &rt);
    let threads = [0u8; 4];
    thread::scope(thread::scope_env(), &rt, |scope| {
        for _ in 0..threads.len() {
            if scope.spawn(move || count_all(here, there)).is_err() {
                count_all(here, there);
            }
        }
    });
    assert!(rt; counter.count(&rt) == 4 * ROUNDS);
    Ok(())
}

#[test]
fn answers_as_the_manager(rt: HostRuntime) -> Result<(), Fail> {
    let locks = Locks::open(rt.alloc(), 4)?;
    let mut one = locks.session(1);
    let mut two = locks.session(2);
    assert!(rt; one.try_lock(&rt, 3) == Answer::Granted);
    assert!(rt; two.try_lock(&rt, 3) == Answer::Taken);
    assert!(rt; one.unlock(&rt, 3) == Answer::Given);
    assert!(rt; two.try_lock(&rt, 3) == Answer::Granted);
    Ok(())
}
