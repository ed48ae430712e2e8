//! The arguments of a subcommand, as a table.

use clap::builder::ValueParser;
use clap::{Arg, ArgAction, Command};
use std::alloc::{AllocError, Global};

/// An argument: its name, what it takes, and what help says of it, if it says anything.
#[derive(Clone, Copy)]
pub struct Argument {
    pub name: &'static str,
    pub kind: ArgumentKind,
    pub help: Option<&'static str>,
}

/// What an argument takes.
#[derive(Clone, Copy)]
pub enum ArgumentKind {
    /// A file, by its place.
    File { required: bool },
    /// Nothing: `--name`.
    Flag,
    /// Nothing: `--name`, or `-` with this letter.
    ShortFlag(char),
    /// A file: `--name FILE`.
    FileOption,
    /// A whole number between these two: `--name N`.
    Number(u64, u64),
    /// The same; without it, the number is that of this text.
    NumberOr(u64, u64, &'static str),
}

/// Returns a subcommand with these arguments more, in their order.
pub fn with_arguments<'a>(
    mut command: Command<'a>,
    alloc: Global,
    arguments: &[Argument],
) -> Result<Command<'a>, AllocError> {
    for argument in arguments {
        command = command.arg(arg_of(alloc, argument))?;
    }
    Ok(command)
}

/// Returns an argument as clap takes it.
fn arg_of<'a>(alloc: Global, argument: &Argument) -> Arg<'a> {
    let arg = without_help(alloc, argument.name, argument.kind);
    match argument.help {
        Some(help) => arg.help(help),
        None => arg,
    }
}

/// The same, without what help says of it.
fn without_help<'a>(alloc: Global, name: &'static str, kind: ArgumentKind) -> Arg<'a> {
    match kind {
        ArgumentKind::File { required } => Arg::new(alloc, name)
            .required(required)
            .action(ArgAction::Set),
        ArgumentKind::Flag => flag(alloc, name),
        ArgumentKind::ShortFlag(letter) => flag(alloc, name).short(letter),
        ArgumentKind::FileOption => option(alloc, name, "FILE"),
        ArgumentKind::Number(least, most) => number(alloc, name, least, most),
        ArgumentKind::NumberOr(least, most, default) => {
            number(alloc, name, least, most).default_value(default)
        }
    }
}

/// Returns a flag `--name`.
fn flag<'a>(alloc: Global, name: &'static str) -> Arg<'a> {
    Arg::new(alloc, name).long(name).action(ArgAction::SetTrue)
}

/// Returns an option `--name VALUE`.
fn option<'a>(alloc: Global, name: &'static str, value: &'static str) -> Arg<'a> {
    Arg::new(alloc, name)
        .long(name)
        .value_name(value)
        .action(ArgAction::Set)
}

/// Returns an option `--name N` with a whole number in this range.
fn number<'a>(alloc: Global, name: &'static str, least: u64, most: u64) -> Arg<'a> {
    option(alloc, name, "N").value_parser(ValueParser::unsigned(least, most))
}
