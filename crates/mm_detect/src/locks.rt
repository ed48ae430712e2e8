//! A run of the lock service, on any reader and writer.
ghost use Rattle.mm_detect.specs.Answer.{EndsService};

use crate::ending::{Ending, print_no_memory};
use mm_command::LocksOptions;
use mm_connections::{ConnectionOptions, ConnectionService};
use mm_service::{LockService, ManagerConfig};
use std::io;
use std::io::{Eprint, Read, Write};
use std::random::RandomSource;

/// Opens a lock service, with connections if a number of them is given, and answers the requests that the reader gives.
///
/// If no seed is given and the system gives no random bytes, or if only a service with connections has a number that is given, that is
/// told, and nothing is read.
#[inline(never)]
pub fn run_locks<R: Eprint + RandomSource + AllocGlobal, I: Read, W: Write>(
    rt: &R,
    options: &LocksOptions,
    input: &mut I,
    output: &mut W,
) -> Ending
    ensures { EndsService result }
{
    let Ok(seed) = seed_of(rt, options.seed) else {
        // If standard error cannot be written either, the status alone reports it.
        let _ = eprintln!(rt; "no random seed; give one by --seed");
        return Ending::Wrong;
    };
    if options.connections.is_none() && (options.each.is_some() || options.epoch.is_some()) {
        let _ = eprintln!(rt; "--each and --epoch need --connections");
        return Ending::Wrong;
    }
    let config = ManagerConfig {
        transactions: options.transactions,
        names: options.names,
        name_bytes: options.name_bytes,
        names_each: options.names_each,
        seed,
    };
    match options.connections {
        None => match LockService::open(rt.alloc(), config) {
            Ok(mut service) => Ending::Ran(service.run(input, output)),
            Err(_) => Ending::Refused(print_no_memory(output)),
        },
        Some(connections) => match ConnectionService::open(
            rt.alloc(),
            config,
            ConnectionOptions {
                connections,
                each: options.each.unwrap_or(options.transactions.div_ceil(4)),
                epoch: options.epoch,
            },
        ) {
            Ok(mut service) => Ending::Ran(service.run(input, output)),
            Err(_) => Ending::Refused(print_no_memory(output)),
        },
    }
}

/// Returns the seed that is given, or else random bytes of the system.
fn seed_of(rt: &impl RandomSource, given: Option<u64>) -> io::Result<u64> {
    if let Some(seed) = given {
        return Ok(seed);
    }
    let mut bytes = [0; 8];
    rt.fill_bytes(&mut bytes)?;
    Ok(u64::from_le_bytes(bytes))
}
