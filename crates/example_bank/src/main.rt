//! Eight threads transfer money between four accounts, each transfer under the locks of its two accounts. Transfers that meet crosswise
//! close a cycle of waits: the one that is told of the deadlock is rolled back, and made again. The sum of all accounts stays the same.
#![tactic(auto)]

use mm_locks::{LockError, Locks, LocksConfig, ManagerConfig, Session};
use std::alloc::Global;
use std::io::Eprint;
use std::sync::Wait;
use std::sync::atomic::AtomicU64;
use std::sync::atomic::Ordering::SeqCst;
use std::thread::Threads;
use std::time::Clock;
use std::{io, thread};

const THREADS: usize = 8;

const TRANSFERS: usize = 500;

/// How often a transfer is made again at the most.
const ATTEMPTS: u32 = 10_000;

/// Money under a name. Whoever owns the name reads and writes the balance.
#[derive(Drop)]
struct Account {
    name: &'static [u8],
    balance: AtomicU64,
}

fn open_account(name: &'static [u8]) -> Account {
    Account {
        name,
        balance: AtomicU64::new(1_000),
    }
}

/// Moves this amount, if it is there. Whoever calls this owns both names.
fn move_money(from: &Account, to: &Account, amount: u64) {
    let balance = from.balance.load(SeqCst);
    if balance >= amount {
        from.balance.store(balance - amount, SeqCst);
        let other = to.balance.load(SeqCst);
        to.balance.store(other.wrapping_add(amount), SeqCst);
    }
}

/// A transfer under the locks of both accounts, made again after a deadlock.
fn transfer<R: Wait + Clock>(
    session: &mut Session<'_, '_, R>,
    from: &Account,
    to: &Account,
    amount: u64,
) -> Result<(), LockError> {
    mm_locks::run(session.begin(), ATTEMPTS, |transaction| {
        transaction.lock_all(&[from.name, to.name])?;
        move_money(from, to, amount);
        Ok(())
    })
}

/// Makes the transfers of one thread, and returns how many were made.
fn make_transfers<R: Wait + Clock>(
    rt: &R,
    locks: &Locks,
    accounts: &[Account; 4],
    number: usize,
) -> Result<u64, LockError> {
    let mut session = locks.session(rt)?;
    let mut made: u64 = 0;
    for round in 0..TRANSFERS {
        let from = (number % THREADS + round) % 4;
        let to = (from + 1 + round % 3) % 4;
        transfer(&mut session, &accounts[from], &accounts[to], 7)?;
        made = made.saturating_add(1);
    }
    Ok(made)
}

/// What all accounts have.
fn sum_of(accounts: &[Account; 4]) -> u64 {
    let mut sum: u64 = 0;
    for account in accounts {
        sum = sum.wrapping_add(account.balance.load(SeqCst));
    }
    sum
}

/// Makes all transfers, and prints how many were made, and the sum. How many deadlocks there were differs from run to run, and goes to
/// standard error.
fn run<R: Threads + Wait + Clock + Print + Eprint + Sync>(
    rt: &R,
    alloc: Global,
    locks: &Locks,
) -> io::Result<()> {
    let accounts = [
        open_account(b"accounts/1"),
        open_account(b"accounts/2"),
        open_account(b"accounts/3"),
        open_account(b"accounts/4"),
    ];
    let made = thread::map_indices(
        rt,
        alloc,
        THREADS,
        &|number| { make_transfers(rt, locks, &accounts, number) },
    )?;
    let mut transfers: u64 = 0;
    for count in made.as_slice() {
        match count {
            Ok(count) => transfers = transfers.wrapping_add(*count),
            Err(error) => println!(rt; "a thread stopped: {error}")?,
        }
    }
    println!(rt; "transfers: {transfers}")?;
    eprintln!(rt; "deadlocks: {}", locks.totals(rt).deadlocks)?;
    let sum = sum_of(&accounts);
    println!(rt; "sum: {sum}")
}

fn main(rt: HostRuntime) -> io::Result<()> {
    let config = LocksConfig {
        manager: ManagerConfig {
            transactions: 8,
            names: 4,
            name_bytes: 16,
            names_each: 0,
            seed: 1,
        },
        buckets: 16,
    };
    match Locks::open(rt.alloc(), config) {
        Ok(locks) => {
            let told = run(&rt, rt.alloc(), &locks);
            drop(locks);
            told
        }
        Err(error) => println!(rt; "{error}"),
    }
}
