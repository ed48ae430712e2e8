//! The words that there are: a table of subcommands, each with its arguments.

use super::arguments::{Argument, ArgumentKind, with_arguments};
use super::explain;
use crate::help::{
    ABOUT, AFTER, EXPLAIN, EXPLAIN_AFTER, LOCKS, LOCKS_AFTER, REPORT, SCRIPT, SCRIPT_VERBOSE,
    STORM, THREADS, VERBOSE,
};
use crate::version::VERSION;
use clap::Command;
use mm_limits::{MAX_NAME_BYTES, MAX_NAMES, MAX_PROCESSES};
use std::alloc::{AllocError, Global};

/// How many clients a storm may have.
pub const MAX_CLIENTS: u32 = mm_limits::MAX_CLIENTS;

/// How many transmitters a storm may have.
pub const MAX_TRANSMITTERS: u32 = mm_limits::MAX_TRANSMITTERS;

/// How many resources a storm may have.
pub const MAX_RESOURCES: u32 = mm_limits::MAX_RESOURCES;

/// How many words may give a transaction of a storm a resource.
pub const MAX_ACQUIRES: u32 = mm_limits::MAX_ACQUIRES;

/// How many transactions each client of a storm may make.
pub const MAX_TRANSACTIONS: u32 = mm_limits::MAX_TRANSACTIONS;

/// A subcommand: its name, what help says of it before its arguments and after them, and its arguments.
#[derive(Clone, Copy)]
struct Subcommand {
    name: &'static str,
    about: &'static str,
    after: Option<&'static str>,
    arguments: &'static [Argument],
}

static SCRIPT_ARGUMENTS: [Argument; 1] = [Argument {
    name: "verbose",
    kind: ArgumentKind::ShortFlag('v'),
    help: Some(SCRIPT_VERBOSE),
}];

static THREADS_ARGUMENTS: [Argument; 3] = [
    Argument {
        name: "FILE",
        kind: ArgumentKind::File { required: true },
        help: None,
    },
    REPORT_OPTION,
    VERBOSE_FLAG,
];

static STORM_ARGUMENTS: [Argument; 8] = [
    Argument {
        name: "seed",
        kind: ArgumentKind::NumberOr(0, u64::MAX, "1"),
        help: None,
    },
    Argument {
        name: "clients",
        kind: ArgumentKind::NumberOr(1, MAX_CLIENTS as u64, "8"),
        help: None,
    },
    Argument {
        name: "transmitters",
        kind: ArgumentKind::NumberOr(0, MAX_TRANSMITTERS as u64, "2"),
        help: None,
    },
    Argument {
        name: "resources",
        kind: ArgumentKind::NumberOr(1, MAX_RESOURCES as u64, "8"),
        help: None,
    },
    Argument {
        name: "acquires",
        kind: ArgumentKind::NumberOr(1, MAX_ACQUIRES as u64, "4"),
        help: None,
    },
    Argument {
        name: "transactions",
        kind: ArgumentKind::NumberOr(1, MAX_TRANSACTIONS as u64, "1"),
        help: None,
    },
    REPORT_OPTION,
    VERBOSE_FLAG,
];

static LOCKS_ARGUMENTS: [Argument; 8] = [
    Argument {
        name: "transactions",
        kind: ArgumentKind::NumberOr(1, MAX_PROCESSES as u64, "65536"),
        help: None,
    },
    Argument {
        name: "names",
        kind: ArgumentKind::NumberOr(1, MAX_NAMES as u64, "65536"),
        help: None,
    },
    Argument {
        name: "name-bytes",
        kind: ArgumentKind::NumberOr(1, MAX_NAME_BYTES as u64, "64"),
        help: None,
    },
    Argument {
        name: "names-each",
        kind: ArgumentKind::Number(0, MAX_NAMES as u64),
        help: None,
    },
    Argument {
        name: "seed",
        kind: ArgumentKind::Number(0, u64::MAX),
        help: None,
    },
    Argument {
        name: "connections",
        kind: ArgumentKind::Number(1, 65_536),
        help: None,
    },
    Argument {
        name: "each",
        kind: ArgumentKind::Number(1, 65_536),
        help: None,
    },
    Argument {
        name: "epoch",
        kind: ArgumentKind::Number(1, 9_223_372_036_854_775_807),
        help: None,
    },
];

/// The option `--report FILE`.
const REPORT_OPTION: Argument = Argument {
    name: "report",
    kind: ArgumentKind::FileOption,
    help: Some(REPORT),
};

/// The flag `--verbose` of a workload.
const VERBOSE_FLAG: Argument = Argument {
    name: "verbose",
    kind: ArgumentKind::ShortFlag('v'),
    help: Some(VERBOSE),
};

/// Returns the whole program, as clap takes it.
pub fn command<'a>(alloc: Global) -> Result<Command<'a>, AllocError> {
    with_subcommands(without_subcommands(alloc)?, alloc, &subcommands())
}

/// Returns the program's name and version, and what help says of it.
fn without_subcommands<'a>(alloc: Global) -> Result<Command<'a>, AllocError> {
    plain(alloc, "mmdetect", ABOUT, Some(AFTER))
        .version(VERSION)
        .bin_name("mmdetect")
}

/// Returns a command without arguments, with what help says of it before its arguments and after them.
fn plain<'a>(
    alloc: Global,
    name: &'static str,
    about: &'static str,
    after: Option<&'a str>,
) -> Command<'a> {
    let command = Command::new(alloc, name).about(about);
    match after {
        Some(after) => command.after_help(after),
        None => command,
    }
}

/// Each subcommand.
fn subcommands() -> [Subcommand; 5] {
    [
        Subcommand {
            name: "script",
            about: SCRIPT,
            after: Some(AFTER),
            arguments: &SCRIPT_ARGUMENTS,
        },
        Subcommand {
            name: "threads",
            about: THREADS,
            after: None,
            arguments: &THREADS_ARGUMENTS,
        },
        Subcommand {
            name: "storm",
            about: STORM,
            after: None,
            arguments: &STORM_ARGUMENTS,
        },
        Subcommand {
            name: "locks",
            about: LOCKS,
            after: Some(LOCKS_AFTER),
            arguments: &LOCKS_ARGUMENTS,
        },
        Subcommand {
            name: "explain",
            about: EXPLAIN,
            after: Some(EXPLAIN_AFTER),
            arguments: &explain::ARGUMENTS,
        },
    ]
}

/// Returns a program with these subcommands more, in their order.
fn with_subcommands<'a>(
    mut program: Command<'a>,
    alloc: Global,
    subcommands: &[Subcommand],
) -> Result<Command<'a>, AllocError> {
    for subcommand in subcommands {
        program = program.subcommand(command_of(alloc, subcommand)?)?;
    }
    Ok(program)
}

/// Returns a subcommand as clap takes it.
fn command_of<'a>(alloc: Global, subcommand: &Subcommand) -> Result<Command<'a>, AllocError> {
    let command = plain(alloc, subcommand.name, subcommand.about, subcommand.after);
    with_arguments(command, alloc, subcommand.arguments)
}
