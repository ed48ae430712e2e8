//! The waits of a table, each with its holder.
ghost use Rattle.std.specs.Prelude.{◌≡◌, ◌≤◌, ◌↔◌, ◌<◌, map, vec_capacity};
ghost use Rattle.mm_lists.specs.Members.{Among, NoRepeat};
ghost use Rattle.mm_graph.specs.Edges.{edge_at, IsEdge};

use mm_table::{Key, Mode, Table};

/// An edge of the wait-for graph: a transaction, what it waits for, and the owner of that.
#[derive(Clone, Copy, Debug, PartialEq, Eq)]
pub struct Edge {
    pub waiter: Key,
    pub resource: u32,
    pub holder: Key,
}

/// Returns the wait of the transaction of this process. `None` if it has none.
///
/// Constant time.
pub fn edge_of(table: &Table, process: u32) -> Option<Edge>
    ensures { result ≡ edge_at table.now process }
{
    table.keeps_laws();
    let waiter = table.tenant(process)?;
    let resource = match table.state(waiter).ok()?.mode {
        Mode::Active => return None,
        Mode::Waiting(resource) | Mode::Convicted(resource) => resource,
    };
    let holder = table.owner(resource).ok()??;
    Some(Edge {
        waiter,
        resource,
        holder,
    })
}

/// Lists the waits of a table in place of what `edges` held, by rising process of the waiter: each waiting transaction once, with what it
/// waits for and the owner of that. `edges` has room for each process, and no memory is taken.
///
/// `O(processes)`.
pub fn edges_of(table: &Table, edges: &mut Vec<Edge>)
    requires { table.now.config.processes ≤ vec_capacity edges.old }
    ensures exact { (edge : Edge) → Among edge edges.new.items ↔ IsEdge table.now edge }
    ensures once { NoRepeat (map (λ edge. edge.waiter.process) edges.new.items) }
    ensures room { vec_capacity edges.new ≡ vec_capacity edges.old }
{
    edges.clear();
    for process in 0..table.config().processes {
        if let Some(edge) = edge_of(table, process) {
            edges.push_reserved(edge);
        }
    }
    table.keeps_laws();
}
