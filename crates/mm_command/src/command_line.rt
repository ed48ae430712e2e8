//! What the words of the command line ask for.
//!
//! - `program`: the words that there are.
//! - `explain`: those of `explain`.
//! - `arguments`: how clap is given the arguments of a subcommand.
//! - `options`: the numbers of a lock service.
ghost use Rattle.std.specs.Prelude.{◌↔◌, IsTrue};
ghost use Rattle.mm_command.specs.Limits.{AreLimits, AreShape};

mod arguments;
mod explain;
mod options;
mod program;

use clap::error::ErrorKind;
use clap::{ArgMatches, Error};
pub use explain::ExplainOptions;
use explain::options_of;
use mm_limits::{MAX_NAME_BYTES, MAX_NAMES, MAX_PROCESSES};
use mm_workload::{StormOptions, StormShape};
pub use options::LocksOptions;
use program::{
    MAX_ACQUIRES, MAX_CLIENTS, MAX_RESOURCES, MAX_TRANSACTIONS, MAX_TRANSMITTERS, command,
};
use std::alloc::{AllocError, Global};
use std::convert::AsStr;
use std::{env, io};

/// What a command line asks for.
#[derive(Drop)]
pub enum Request {
    /// A script is to be run, and perhaps it is told what is wrong with its lines.
    Script {
        verbose: bool,
    },
    /// The workload in this file is to be run, and a report on it written to a file, if one is named.
    Threads {
        file: String,
        report: Option<String>,
        verbose: bool,
    },
    /// A generated workload is to be run, and a report on it written to a file, if one is named.
    Storm {
        options: StormOptions,
        report: Option<String>,
        verbose: bool,
    },
    /// A lock service is to be run.
    Locks(LocksOptions),
    /// A script is to be explained.
    Explain(ExplainOptions),
    /// Help, or the version, with its text.
    Help(Error),
    /// The words are no command line of this program; the text says why.
    Wrong(Error),
    /// Memory was refused while the words were read.
    Memory,
}

/// Returns what the program's command line asks for. Allocates.
pub fn asked(rt: &HostRuntime) -> Request {
    asked_or_refused(rt).unwrap_or(Request::Memory)
}

fn asked_or_refused(rt: &HostRuntime) -> Result<Request, AllocError> {
    let alloc = rt.alloc();
    match env::args(rt) {
        Ok(words) => {
            let words = words.collect::<Vec<String>>(alloc)?;
            Ok(request_of(alloc, words.as_slice()))
        }
        Err(fault) if fault.kind() == io::ErrorKind::OutOfMemory => Ok(Request::Memory),
        Err(_) => wrong(alloc, "a word is not UTF-8 text"),
    }
}

/// Returns what the words ask for; the first is the program's name. Allocates.
pub fn request_of<S: AsStr>(alloc: Global, words: &[S]) -> Request {
    match parsed(alloc, words) {
        Ok(matches) => by_matches(alloc, &matches),
        Err(error) => by_error(error),
    }
}

/// Returns what clap finds in the words.
fn parsed<'a, S: AsStr>(alloc: Global, words: &'a [S]) -> Result<ArgMatches<'a>, Error> {
    command(alloc)?.try_get_matches_from(words)
}

/// Returns the request that follows from clap's error.
fn by_error(error: Error) -> Request {
    match error.kind() {
        ErrorKind::DisplayHelp => Request::Help(error),
        ErrorKind::DisplayVersion => Request::Help(error),
        ErrorKind::OutOfMemory => Request::Memory,
        _ => Request::Wrong(error),
    }
}

/// Returns the request that follows from what clap found.
fn by_matches(alloc: Global, matches: &ArgMatches<'_>) -> Request {
    match matches.subcommand() {
        Some((name, own)) => by_subcommand(alloc, name, own),
        None => Request::Script { verbose: false },
    }
}

/// Returns the request that follows from a subcommand and what clap found for it.
fn by_subcommand(alloc: Global, name: &str, own: &ArgMatches<'_>) -> Request {
    let asked = match name {
        "threads" => threads(alloc, own),
        "storm" => storm(alloc, own),
        "locks" => locks(alloc, own),
        "explain" => request_to_explain(alloc, own),
        _ => return script(own),
    };
    asked.unwrap_or(Request::Memory)
}

fn script(own: &ArgMatches<'_>) -> Request {
    Request::Script {
        verbose: own.get_flag("verbose"),
    }
}

fn threads(alloc: Global, own: &ArgMatches<'_>) -> Result<Request, AllocError> {
    let Some(file) = own.get_str("FILE") else {
        return wrong(alloc, "the file is missing");
    };
    Ok(Request::Threads {
        file: String::from_str(alloc, file)?,
        report: file_of(alloc, own, "report")?,
        verbose: own.get_flag("verbose"),
    })
}

/// Returns the file of this name, if one is given.
fn file_of(alloc: Global, own: &ArgMatches<'_>, name: &str) -> Result<Option<String>, AllocError> {
    match own.get_str(name) {
        Some(file) => Ok(Some(String::from_str(alloc, file)?)),
        None => Ok(None),
    }
}

fn storm(alloc: Global, own: &ArgMatches<'_>) -> Result<Request, AllocError> {
    let (Some(seed), Some(clients), Some(transmitters)) = (
        own.get_one::<u64>("seed"),
        own.get_one::<u32>("clients"),
        own.get_one::<u32>("transmitters"),
    ) else {
        return wrong(alloc, "a number is missing");
    };
    if clients == 0 || clients > MAX_CLIENTS || transmitters > MAX_TRANSMITTERS {
        return wrong(alloc, "a number is out of range");
    }
    let Some(shape) = shape(own) else {
        return wrong(alloc, "a number is missing or out of range");
    };
    Ok(Request::Storm {
        options: StormOptions {
            seed,
            clients,
            transmitters,
            shape,
        },
        report: file_of(alloc, own, "report")?,
        verbose: own.get_flag("verbose"),
    })
}

/// Returns the shape of a storm, if all of its numbers are in their ranges.
fn shape(own: &ArgMatches<'_>) -> Option<StormShape> {
    let (Some(resources), Some(acquires), Some(transactions)) = (
        own.get_one::<u32>("resources"),
        own.get_one::<u32>("acquires"),
        own.get_one::<u32>("transactions"),
    ) else {
        return None;
    };
    if !are_shape(resources, acquires, transactions) {
        return None;
    }
    Some(StormShape {
        resources,
        acquires,
        transactions,
    })
}

/// Returns whether a storm can have this many resources, this many words that give a transaction one, and this many transactions of each client.
fn are_shape(resources: u32, acquires: u32, transactions: u32) -> bool
    ensures { IsTrue result ↔ AreShape resources acquires transactions }
{
    (1..=MAX_RESOURCES).contains(&resources)
        && (1..=MAX_ACQUIRES).contains(&acquires)
        && (1..=MAX_TRANSACTIONS).contains(&transactions)
}

fn locks(alloc: Global, own: &ArgMatches<'_>) -> Result<Request, AllocError> {
    let (Some(transactions), Some(names), Some(name_bytes)) = (
        own.get_one::<u32>("transactions"),
        own.get_one::<u32>("names"),
        own.get_one::<u32>("name-bytes"),
    ) else {
        return wrong(alloc, "a number is missing");
    };
    if !are_limits(transactions, names, name_bytes) {
        return wrong(alloc, "a number is out of range");
    }
    Ok(Request::Locks(LocksOptions {
        transactions,
        names,
        name_bytes,
        names_each: own.get_one::<u32>("names-each").unwrap_or(0),
        seed: own.get_one::<u64>("seed"),
        connections: own.get_one::<u32>("connections"),
        each: own.get_one::<u32>("each"),
        epoch: own.get_one::<u64>("epoch"),
    }))
}

fn request_to_explain(alloc: Global, own: &ArgMatches<'_>) -> Result<Request, AllocError> {
    let file = file_of(alloc, own, "FILE")?;
    Ok(Request::Explain(options_of(own, file)))
}

/// Returns whether a lock service can have these limits.
fn are_limits(transactions: u32, names: u32, name_bytes: u32) -> bool
    ensures { IsTrue result ↔ AreLimits transactions names name_bytes }
{
    (1..=MAX_PROCESSES).contains(&transactions)
        && (1..=MAX_NAMES).contains(&names)
        && (1..=MAX_NAME_BYTES).contains(&name_bytes)
}

/// Returns an error, which shows the usage and no more of the help.
fn wrong(alloc: Global, text: &str) -> Result<Request, AllocError> {
    let mut command = command(alloc)?;
    let error = command.error(ErrorKind::InvalidValue, text);
    drop(command);
    Ok(Request::Wrong(error?))
}
