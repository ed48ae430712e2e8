//! Names that are locked and unlocked, and numbers that are.
ghost use Rattle.std.specs.Prelude.{◌≡◌, ◌≤◌};

use crate::names::{MAX_BYTES, next_number, write_name};
use mm_manager::{Key, Lock, LockManager, ManagerConfig};
use mm_settled::{Config, Locked, SettledTable};
use std::alloc::Global;

/// A manager of this many names.
fn open_manager(alloc: Global, names: u32, length: usize) -> Option<LockManager>
    requires { length ≤ 64 }
{
    let config = ManagerConfig {
        transactions: 2,
        names,
        name_bytes: length as u32,
        names_each: 0,
        seed: 0x0123_4567_89ab_cdef,
    };
    LockManager::open(alloc, config).ok()
}

/// One transaction locks the names of the even numbers.
fn fill_names(locks: &mut LockManager, key: Key, names: u32, length: usize)
    requires { length ≤ 64 }
{
    let mut bytes = [b'a'; 64];
    for number in 0..names / 2 {
        write_name(&mut bytes, number.wrapping_mul(2));
        let _granted = locks.lock(key, &bytes[64 - length..]);
    }
}

/// Another one locks `count` names of odd numbers by chance, and unlocks each at once.
fn lock_names(locks: &mut LockManager, key: Key, mask: u32, length: usize, count: u64) -> u64
    requires { length ≤ 64 }
{
    let mut bytes = [b'a'; 64];
    let mut number = 1;
    let mut granted: u64 = 0;
    for _ in 0..count {
        number = next_number(number);
        write_name(&mut bytes, number & mask | 1);
        let name = &bytes[64 - length..];
        if locks.lock(key, name) == Ok(Lock::Granted) && locks.unlock(key, name).is_ok() {
            granted = granted.wrapping_add(1);
        }
    }
    granted
}

fn work_by_name(locks: &mut LockManager, names: u32, length: usize, count: u64) -> u64
    requires { length ≤ 64 }
{
    let Ok(owner) = locks.begin() else {
        return 0;
    };
    let Ok(key) = locks.begin() else {
        return 0;
    };
    fill_names(locks, owner, names, length);
    lock_names(locks, key, names.wrapping_sub(1), length, count)
}

/// The same numbers of a settled table.
fn work_by_number(table: &mut SettledTable, names: u32, count: u64) -> u64 {
    let Ok(owner) = table.begin() else {
        return 0;
    };
    let Ok(key) = table.begin() else {
        return 0;
    };
    for number in 0..names / 2 {
        let _granted = table.acquire(owner, number.wrapping_mul(2));
    }
    lock_numbers(table, key, names.wrapping_sub(1), count)
}

fn lock_numbers(table: &mut SettledTable, key: Key, mask: u32, count: u64) -> u64 {
    let mut number = 1;
    let mut granted: u64 = 0;
    for _ in 0..count {
        number = next_number(number);
        let resource = number & mask | 1;
        if table.acquire(key, resource) == Ok(Locked::Granted)
            && table.release(key, resource).is_ok()
        {
            granted = granted.wrapping_add(1);
        }
    }
    granted
}

/// A lock manager of `names` names of `length` bytes, of which half are locked: `count` of the others are locked and unlocked, by chance.
/// `names` is a power of two. It answers how many were granted.
#[unsafe(no_mangle)]
pub extern "C" fn mm_bench_lock_names(alloc: Global, names: u32, length: u32, count: u64) -> u64 {
    let length = (length as usize).min(MAX_BYTES);
    let Some(mut locks) = open_manager(alloc, names, length) else {
        return 0;
    };
    let granted = work_by_name(&mut locks, names, length, count);
    drop(locks);
    granted
}

/// The same by numbers, of a table at rest.
#[unsafe(no_mangle)]
pub extern "C" fn mm_bench_lock_numbers(alloc: Global, names: u32, count: u64) -> u64 {
    let config = Config {
        processes: 2,
        resources: names,
        label_limit: Config::MAX_LABEL_LIMIT,
        generation_limit: u32::MAX,
    };
    let Ok(mut table) = SettledTable::open(alloc, config) else {
        return 0;
    };
    let granted = work_by_number(&mut table, names, count);
    drop(table);
    granted
}
