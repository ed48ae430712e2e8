//! The words of `explain`, and what they ask for.
use super::arguments::{Argument, ArgumentKind};
use crate::help::{ALL, AT, DOT, MERMAID, SCRIPT_FILE};
use clap::ArgMatches;

pub static ARGUMENTS: [Argument; 5] = [
    Argument {
        name: "FILE",
        kind: ArgumentKind::File { required: false },
        help: Some(SCRIPT_FILE),
    },
    Argument {
        name: "mermaid",
        kind: ArgumentKind::Flag,
        help: Some(MERMAID),
    },
    Argument {
        name: "dot",
        kind: ArgumentKind::Flag,
        help: Some(DOT),
    },
    Argument {
        name: "all",
        kind: ArgumentKind::Flag,
        help: Some(ALL),
    },
    Argument {
        name: "at",
        kind: ArgumentKind::Number(1, u64::MAX),
        help: Some(AT),
    },
];

/// What is explained of a script: the wait-for graph as Mermaid or as Graphviz reads it, or else its lines; of the graph all resources; and
/// after which line.
#[derive(Drop)]
pub struct ExplainOptions {
    /// The file of the script; none if it is read from standard input.
    pub file: Option<String>,
    pub mermaid: bool,
    pub dot: bool,
    pub all: bool,
    pub at: Option<u64>,
}

/// Returns what is to be explained, by what clap found, and the script: that of this file, or of standard input if it is none.
pub fn options_of(own: &ArgMatches<'_>, file: Option<String>) -> ExplainOptions {
    ExplainOptions {
        file,
        mermaid: own.get_flag("mermaid"),
        dot: own.get_flag("dot"),
        all: own.get_flag("all"),
        at: own.get_one::<u64>("at"),
    }
}
