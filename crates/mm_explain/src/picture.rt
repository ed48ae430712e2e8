//! The wait-for graph of a table, as Mermaid and as Graphviz read it.
ghost use Rattle.std.specs.Prelude.{◌≡◌, ◌≤◌, vec_capacity};

use crate::sheet::{Sheet, Value};
use crate::view::{Standing, standing_of};
use mm_graph::{Edge, cycle_through, edges_of};
use mm_table::{Key, Table};
use std::alloc::{AllocError, Global};

/// The lines that a picture for Mermaid begins with.
static MERMAID_HEAD: [&str; 3] = [
    "flowchart LR",
    "    classDef cycle stroke:#c00000,stroke-width:3px",
    "    classDef victim fill:#ffd0d0,stroke:#c00000,stroke-width:3px",
];

/// The lines that a picture for Graphviz begins with.
static DOT_HEAD: [&str; 3] = [
    "digraph waits {",
    "    rankdir=LR;",
    "    node [shape=box];",
];

/// Who reads a picture.
#[derive(Clone, Copy)]
pub enum Format {
    Mermaid,
    Dot,
}

/// How a transaction is shown.
#[derive(Clone, Copy)]
enum Mark {
    Plain,
    OnCycle,
    Victim,
}

/// A picture of a wait-for graph.
#[derive(Clone, Copy)]
pub struct Picture {
    pub format: Format,
    /// It also has the resources that nobody waits for.
    pub all: bool,
}

impl Picture {
    /// Adds the wait-for graph of a table, or an empty one if there is no table: the transactions, their waits, and the resources that
    /// nobody waits for, with their owners, if all are wanted.
    pub fn draw(
        self,
        sheet: &mut Sheet,
        alloc: Global,
        table: &Option<Table>,
    ) -> Result<(), AllocError> {
        begin(sheet, self.format);
        if let Some(table) = table {
            self.draw_table(sheet, alloc, table)?;
        }
        if let Format::Dot = self.format {
            sheet.text("}");
            sheet.newline();
        }
        Ok(())
    }

    fn draw_table(self, sheet: &mut Sheet, alloc: Global, table: &Table) -> Result<(), AllocError> {
        let mut members = Vec::with_capacity(alloc, table.config().processes as usize)?;
        draw_transactions(sheet, table, self.format, &mut members);
        self.draw_waits(sheet, alloc, table)
    }

    /// Adds the waits, and the resources that nobody waits for if all are wanted.
    fn draw_waits(self, sheet: &mut Sheet, alloc: Global, table: &Table) -> Result<(), AllocError> {
        let mut edges = Vec::with_capacity(alloc, table.config().processes as usize)?;
        edges_of(table, &mut edges);
        draw_edges(sheet, &edges, self.format);
        if self.all {
            let waited = waited_of(alloc, table, &edges)?;
            draw_unwaited(sheet, table, &waited, self.format);
        }
        Ok(())
    }
}

fn begin(sheet: &mut Sheet, format: Format) {
    let lines = match format {
        Format::Mermaid => &MERMAID_HEAD,
        Format::Dot => &DOT_HEAD,
    };
    for line in lines {
        sheet.text(line);
        sheet.newline();
    }
}

fn draw_transactions(sheet: &mut Sheet, table: &Table, format: Format, members: &mut Vec<u32>)
    requires { table.now.config.processes ≤ vec_capacity members.old }
{
    for process in 0..table.config().processes {
        let on_cycle = cycle_through(table, process, members);
        if let Some(standing) = standing_of(table, process) {
            draw_transaction(sheet, &standing, mark_of(&standing, on_cycle), format);
        }
    }
}

fn mark_of(standing: &Standing, on_cycle: bool) -> Mark {
    if standing.is_convicted() {
        Mark::Victim
    } else if on_cycle {
        Mark::OnCycle
    } else {
        Mark::Plain
    }
}

fn draw_transaction(sheet: &mut Sheet, standing: &Standing, mark: Mark, format: Format) {
    sheet.fill(
        text_of(mark, format),
        &[
            node_of(standing.key, format),
            Value::Key(standing.key),
            Value::Label(standing.state.private),
            Value::Label(standing.state.public),
        ],
    );
    sheet.newline();
}

/// Returns what is drawn of a transaction: its node, its key and its two labels.
fn text_of(mark: Mark, format: Format) -> &'static str {
    match (format, mark) {
        (Format::Mermaid, Mark::Plain) => "    {}[\"{}<br/>private {}<br/>public {}\"]",
        (Format::Mermaid, Mark::OnCycle) => {
            "    {}[\"{} on a cycle<br/>private {}<br/>public {}\"]:::cycle"
        }
        (Format::Mermaid, Mark::Victim) => {
            "    {}[\"{} victim<br/>private {}<br/>public {}\"]:::victim"
        }
        (Format::Dot, Mark::Plain) => { "    \"{}\" [label=\"{}\\nprivate {}\\npublic {}\"];" }
        (Format::Dot, Mark::OnCycle) => {
            "    \"{}\" [label=\"{} on a cycle\\nprivate {}\\npublic {}\", color=\"#c00000\", penwidth=3];"
        }
        (Format::Dot, Mark::Victim) => {
            "    \"{}\" [label=\"{} victim\\nprivate {}\\npublic {}\", color=\"#c00000\", penwidth=3, style=filled, fillcolor=\"#ffd0d0\"];"
        }
    }
}

/// Returns the name of a transaction's node.
fn node_of(key: Key, format: Format) -> Value {
    match format {
        Format::Mermaid => Value::Node(key),
        Format::Dot => Value::Key(key),
    }
}

fn draw_edges(sheet: &mut Sheet, edges: &[Edge], format: Format) {
    for edge in edges {
        draw_edge(sheet, edge, format);
    }
}

fn draw_edge(sheet: &mut Sheet, edge: &Edge, format: Format) {
    match format {
        Format::Mermaid => sheet.fill(
            "    {} -->|\"resource {}\"| {}",
            &[
                Value::Node(edge.waiter),
                Value::Number(edge.resource),
                Value::Node(edge.holder),
            ],
        ),
        Format::Dot => sheet.fill(
            "    \"{}\" -> \"{}\" [label=\"resource {}\"];",
            &[
                Value::Key(edge.waiter),
                Value::Key(edge.holder),
                Value::Number(edge.resource),
            ],
        ),
    }
    sheet.newline();
}

/// Returns which resources somebody waits for, by their numbers.
fn waited_of(alloc: Global, table: &Table, edges: &[Edge]) -> Result<Vec<bool>, AllocError> {
    let mut waited = vec![in alloc; false; table.config().resources as usize]?;
    mark_waited(&mut waited, edges);
    Ok(waited)
}

fn mark_waited(waited: &mut [bool], edges: &[Edge]) {
    for edge in edges {
        if let Some(place) = waited.get_mut(edge.resource as usize) {
            *place = true;
        }
    }
}

fn draw_unwaited(sheet: &mut Sheet, table: &Table, waited: &[bool], format: Format) {
    for resource in 0..table.config().resources {
        if let Some(false) = waited.get(resource as usize) {
            draw_resource(sheet, table, resource, format);
        }
    }
}

fn draw_resource(sheet: &mut Sheet, table: &Table, resource: u32, format: Format) {
    match table.owner(resource) {
        Ok(Some(owner)) => draw_owned(sheet, resource, owner, format),
        _ => draw_free(sheet, resource, format),
    }
    sheet.newline();
}

fn draw_free(sheet: &mut Sheet, resource: u32, format: Format) {
    let text = match format {
        Format::Mermaid => "    r{}([\"resource {} free\"])",
        Format::Dot => "    \"resource {}\" [shape=ellipse, label=\"resource {} free\"];",
    };
    sheet.fill(text, &[Value::Number(resource), Value::Number(resource)]);
}

fn draw_owned(sheet: &mut Sheet, resource: u32, owner: Key, format: Format) {
    let text = match format {
        Format::Mermaid => "    r{}([\"resource {}\"]) -.->|\"owned by\"| {}",
        Format::Dot => {
            "    \"resource {}\" [shape=ellipse]; \"resource {}\" -> \"{}\" [label=\"owned by\", style=dashed];"
        }
    };
    sheet.fill(
        text,
        &[
            Value::Number(resource),
            Value::Number(resource),
            node_of(owner, format),
        ],
    );
}
