//! The bytes of a file, and what is told of one.

use mm_workload::MAX_BYTES;
use std::alloc::Global;
use std::fmt::Display;
use std::fs::File;
use std::io::{Eprint, ErrorKind, Read};
use std::os::unix::fs::MetadataExt;
use std::rt::Files;
use std::{fs, io};

/// How many bytes of a file are read: one more than a workload may have, so that a longer file is told from one of the greatest length.
const BYTES_READ: u64 = MAX_BYTES as u64 + 1;

/// What came of a file.
#[derive(Drop)]
pub enum FileBytes {
    Bytes(Vec<u8>),
    /// A request for memory was refused.
    Memory,
    Fault(io::Error),
}

/// Returns the bytes of the file at that path: all, or the first `BYTES_READ` of them. Takes memory.
pub fn read_file(rt: &impl Files, alloc: Global, path: &str) -> FileBytes {
    match File::open(rt, path) {
        Ok(file) => read_all(alloc, file),
        Err(error) => fault(error),
    }
}

/// Returns the bytes that a reader has left, or the first `BYTES_READ` of them.
pub fn read_all<R: Read + Drop>(alloc: Global, reader: R) -> FileBytes {
    let mut bytes = Vec::new(alloc);
    match reader.take(BYTES_READ).read_to_end(&mut bytes) {
        Ok(_) => FileBytes::Bytes(bytes),
        Err(error) => fault(error),
    }
}

fn fault(error: io::Error) -> FileBytes {
    if error.kind() == ErrorKind::OutOfMemory {
        FileBytes::Memory
    } else {
        FileBytes::Fault(error)
    }
}

/// Returns whether both paths lead to one file, links followed. It is `false` if either leads to no file, or to one of which the system
/// tells nothing.
pub fn is_same_file(rt: &impl Files, path: &str, other: &str) -> bool {
    match (fs::metadata(rt, path), fs::metadata(rt, other)) {
        (Ok(one), Ok(two)) => one.dev() == two.dev() && one.ino() == two.ino(),
        _ => false,
    }
}

/// Tells on standard error what is wrong with this file. If that cannot be written, it is left out.
pub fn tell<R: Eprint, T: Display>(rt: &R, path: &str, fault: &T) {
    let _ = eprintln!(rt; "{path}: {fault}");
}
