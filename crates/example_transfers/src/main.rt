//! Two transfers between two accounts, in opposite directions, that meet: each owns one account and asks for the other. The one whose wait would
//! close a cycle of waits is rolled back, the other one is granted its account and commits, and the first one tries again.
//!
//! - `lock`: a request for an account: a transaction whose wait would close a cycle of waits is rolled back.
#![tactic(auto)]

mod lock;

use lock::{Next, lock_or_roll_back};
use mm_manager::{Key, LockManager, ManagerConfig, Refusal};
use std::io;

const CONFIG: ManagerConfig = ManagerConfig {
    transactions: 2,
    names: 2,
    name_bytes: 10,
    names_each: 0,
    seed: 1,
};

/// What a transfer does next.
#[derive(Clone, Copy)]
enum Step {
    Asks(&'static str, &'static str),
    Commits(&'static str),
    Begins(&'static str),
}

/// The two transfers, step by step.
const STEPS: [Step; 11] = [
    Step::Begins("there"),
    Step::Begins("back"),
    Step::Asks("there", "accounts/1"),
    Step::Asks("back", "accounts/2"),
    Step::Asks("there", "accounts/2"),
    Step::Asks("back", "accounts/1"),
    Step::Commits("there"),
    Step::Begins("back"),
    Step::Asks("back", "accounts/2"),
    Step::Asks("back", "accounts/1"),
    Step::Commits("back"),
];

/// The keys of the two transfers.
#[derive(Clone, Copy)]
struct Keys {
    there: Key,
    back: Key,
}

impl Keys {
    fn of(&self, transfer: &str) -> Key {
        if transfer == "there" {
            self.there
        } else {
            self.back
        }
    }

    fn set(&mut self, transfer: &str, key: Key) {
        if transfer == "there" {
            self.there = key;
        } else {
            self.back = key;
        }
    }
}

/// Says the grants of the last call.
fn tell(rt: &impl Print, locks: &LockManager) -> io::Result<()> {
    for grant in locks.granted() {
        let key = grant.key;
        let number = grant.resource;
        println!(rt; "  granted: {key}, name {number}")?;
    }
    Ok(())
}

fn ask(rt: &impl Print, locks: &mut LockManager, key: Key, account: &str) -> io::Result<()> {
    match lock_or_roll_back(locks, key, account.as_bytes()) {
        Ok(Next::WorksOn) => println!(rt; "{key} owns {account}"),
        Ok(Next::Sleeps { holder }) => println!(rt;
            "{key} waits for {account}, which {holder} owns"
        ),
        Ok(Next::RolledBack) => println!(rt;
            "{key} would close a cycle of waits by {account}, and is rolled back"
        ),
        Err(refusal) => println!(rt; "{key} is refused {account}: {refusal}"),
    }
}

fn commit(rt: &impl Print, locks: &mut LockManager, key: Key) -> io::Result<()> {
    match locks.commit(key) {
        Ok(()) => println!(rt; "{key} commits"),
        Err(refusal) => println!(rt; "{key} may not commit: {refusal}"),
    }
}

fn begin(
    rt: &impl Print,
    keys: &mut Keys,
    transfer: &str,
    begun: Result<Key, Refusal>,
) -> io::Result<()> {
    match begun {
        Ok(key) => {
            keys.set(transfer, key);
            println!(rt; "{key} begins the transfer {transfer}")
        }
        Err(refusal) => println!(rt; "the transfer {transfer} does not begin: {refusal}"),
    }
}

fn make(rt: &impl Print, locks: &mut LockManager, keys: &mut Keys, step: Step) -> io::Result<()> {
    match step {
        Step::Begins(transfer) => begin(rt, keys, transfer, locks.begin()),
        Step::Asks(transfer, account) => ask(rt, locks, keys.of(transfer), account),
        Step::Commits(transfer) => commit(rt, locks, keys.of(transfer)),
    }
}

fn make_all(rt: &impl Print, locks: &mut LockManager) -> io::Result<()> {
    let nobody = Key {
        process: 0,
        generation: 0,
    };
    let mut keys = Keys {
        there: nobody,
        back: nobody,
    };
    for step in &STEPS {
        make(rt, locks, &mut keys, *step)?;
        tell(rt, locks)?;
    }
    Ok(())
}

fn main(rt: HostRuntime) -> io::Result<()> {
    let Ok(mut locks) = LockManager::open(rt.alloc(), CONFIG) else {
        return println!(rt; "no memory");
    };
    let made = make_all(&rt, &mut locks);
    drop(locks);
    made
}
