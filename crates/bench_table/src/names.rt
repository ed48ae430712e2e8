//! Names that are found, interned and forgotten.
ghost use Rattle.std.specs.Prelude.{◌≡◌, ◌≤◌};

use mm_names::{Names, NamesConfig};
use std::alloc::Global;

/// The most bytes of a name.
pub const MAX_BYTES: usize = 64;

/// From the last bytes of one name to those of the next. It is odd, so no two numbers have one name.
const SPREAD: u64 = 0x9e37_79b9_7f4a_7c15;

/// The next number of a sequence that looks like chance; 0 has no next.
pub fn next_number(number: u32) -> u32 {
    let number = number ^ number << 13;
    let number = number ^ number >> 17;
    number ^ number << 5
}

/// Writes the name of a number: its last 8 bytes tell it from the others.
pub fn write_name(bytes: &mut [u8; 64], number: u32) {
    bytes[56..].copy_from_slice(&u64::from(number).wrapping_mul(SPREAD).to_le_bytes());
}

/// Interns this many names, each under its number. `false` if one was refused.
fn fill(table: &mut Names, names: u32, length: usize) -> bool
    requires { length ≤ 64 }
{
    let mut bytes = [b'a'; 64];
    for number in 0..names {
        write_name(&mut bytes, number);
        if table.enter(&bytes[64 - length..]).is_err() {
            return false;
        }
    }
    true
}

/// `count` finds of names by chance, which are those of the table if `first` is 0.
fn find(table: &Names, mask: u32, length: usize, first: u32, count: u64) -> u64
    requires { length ≤ 64 }
{
    let mut bytes = [b'a'; 64];
    let mut number = 1;
    let mut found: u64 = 0;
    for _ in 0..count {
        number = next_number(number);
        write_name(&mut bytes, (number & mask).wrapping_add(first));
        if table.find(&bytes[64 - length..]).is_some() {
            found = found.wrapping_add(1);
        }
    }
    found
}

/// `count` names of the table by chance are interned.
fn intern(table: &mut Names, mask: u32, length: usize, count: u64) -> u64
    requires { length ≤ 64 }
{
    let mut bytes = [b'a'; 64];
    let mut number = 1;
    let mut interned: u64 = 0;
    for _ in 0..count {
        number = next_number(number);
        write_name(&mut bytes, number & mask);
        if table.enter(&bytes[64 - length..]).is_ok() {
            interned = interned.wrapping_add(1);
        }
    }
    interned
}

/// `count` names of the table by chance are forgotten and interned again.
fn renew(table: &mut Names, mask: u32, length: usize, count: u64) -> u64
    requires { length ≤ 64 }
{
    let mut bytes = [b'a'; 64];
    let mut number = 1;
    let mut renewed: u64 = 0;
    for _ in 0..count {
        number = next_number(number);
        write_name(&mut bytes, number & mask);
        if table.forget(number & mask) && table.enter(&bytes[64 - length..]).is_ok() {
            renewed = renewed.wrapping_add(1);
        }
    }
    renewed
}

/// What is done with names by chance.
#[derive(Clone, Copy)]
enum Work {
    /// They are found.
    FindKnown,
    /// Others are looked for, and not found.
    FindOthers,
    /// They are interned once more.
    Intern,
    /// They are forgotten and interned again.
    Renew,
}

/// Fills the table and does the work. Answers how many names there are and how often one was as expected.
fn fill_and_work(table: &mut Names, work: Work, names: u32, length: usize, count: u64) -> u64
    requires { length ≤ 64 }
{
    if !fill(table, names, length) {
        return 0;
    }
    let mask = names.wrapping_sub(1);
    let expected = match work {
        Work::FindKnown => find(table, mask, length, 0, count),
        Work::FindOthers => count.wrapping_sub(find(table, mask, length, names, count)),
        Work::Intern => intern(table, mask, length, count),
        Work::Renew => renew(table, mask, length, count),
    };
    u64::from(names).wrapping_add(expected)
}

/// Opens a table of this many names, and does so. 0 if it cannot be opened.
fn work_on_names(alloc: Global, work: Work, names: u32, length: u32, count: u64) -> u64 {
    let length = (length as usize).min(MAX_BYTES);
    let config = NamesConfig {
        names,
        name_bytes: length as u32,
        seed: 0x0123_4567_89ab_cdef,
    };
    let Ok(mut table) = Names::open(alloc, config) else {
        return 0;
    };
    let answer = fill_and_work(&mut table, work, names, length, count);
    drop(table);
    answer
}

/// A table of `names` names of `length` bytes, of which `count` are found by chance, or if `is_known` is false, others are not.
/// `names` is a power of two. It answers how many names there are and how often one was as expected.
#[unsafe(no_mangle)]
pub extern "C" fn mm_bench_find_names(
    alloc: Global,
    names: u32,
    length: u32,
    is_known: bool,
    count: u64,
) -> u64 {
    let work = if is_known {
        Work::FindKnown
    } else {
        Work::FindOthers
    };
    work_on_names(alloc, work, names, length, count)
}

/// The same, and `count` names of the table are interned once more.
#[unsafe(no_mangle)]
pub extern "C" fn mm_bench_intern_names(alloc: Global, names: u32, length: u32, count: u64) -> u64 {
    work_on_names(alloc, Work::Intern, names, length, count)
}

/// The same, and `count` names of the table are forgotten and interned again.
#[unsafe(no_mangle)]
pub extern "C" fn mm_bench_renew_names(alloc: Global, names: u32, length: u32, count: u64) -> u64 {
    work_on_names(alloc, Work::Renew, names, length, count)
}
