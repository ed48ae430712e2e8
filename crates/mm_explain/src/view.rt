//! What a table shows, and what it showed at the line before.
ghost use Rattle.std.specs.Prelude.{◌≡◌, ◌≤◌, ◌↔◌, IsTrue, vec_capacity};
ghost use Rattle.mm_rules.specs.Victims.{IsOnCycle};

use mm_graph::{Edge, cycle_through, edge_of};
use mm_table::{Config, Key, Mode, State, Table};
use std::alloc::{AllocError, Global};

/// What a table shows of a live transaction.
#[derive(Clone, Copy)]
pub struct Standing {
    pub key: Key,
    pub state: State,
    /// What it waits for, and the owner of that.
    pub wait: Option<Edge>,
}

impl Standing {
    /// Returns whether a verdict stands for the transaction.
    pub fn is_convicted(&self) -> bool {
        matches!(self.state.mode, Mode::Convicted(_))
    }
}

/// Returns what a table shows of the transaction of this process, if it has one.
pub fn standing_of(table: &Table, process: u32) -> Option<Standing> {
    let key = table.tenant(process)?;
    let state = table.state(key).ok()?;
    let wait = edge_of(table, process);
    Some(Standing { key, state, wait })
}

/// What a table of this configuration showed before a line, and room for lists of its processes and its resources.
#[derive(Drop)]
pub struct View {
    config: Config,
    /// By process, as far as processes had a transaction.
    standings: Vec<Option<Standing>>,
    /// The resources that the transaction of a call owned before it.
    pub owned: Vec<u32>,
    /// The cycle that was found last.
    pub members: Vec<u32>,
    ghost room_to_own: { config.resources ≤ vec_capacity owned },
    ghost room_for_members: { config.processes ≤ vec_capacity members },
}

impl View {
    /// Returns a view before there is a table.
    pub fn of_no_table(alloc: Global) -> View {
        View {
            config: Config {
                processes: 0,
                resources: 0,
                label_limit: 0,
                generation_limit: 0,
            },
            standings: Vec::new(alloc),
            owned: Vec::new(alloc),
            members: Vec::new(alloc),
        }
    }

    /// Is a view of a table of this configuration from now on. It is a new one if it was of another.
    pub fn turn_to(&mut self, alloc: Global, config: Config) -> Result<(), AllocError> {
        if self.config != config {
            *self = View::open(alloc, config)?;
        }
        Ok(())
    }

    /// Returns a view of a table that was just opened.
    fn open(alloc: Global, config: Config) -> Result<View, AllocError> {
        let owned = Vec::with_capacity(alloc, config.resources as usize)?;
        let members = Vec::with_capacity(alloc, config.processes as usize)?;
        Ok(View {
            config,
            standings: Vec::new(alloc),
            owned,
            members,
        })
    }

    /// Returns how many processes have had a transaction.
    pub fn used(&self) -> usize {
        self.standings.len()
    }

    /// Returns what the table showed of this process.
    pub fn standing(&self, process: u32) -> Option<Standing> {
        *self.standings.get(process as usize)?
    }

    /// Keeps what the table shows of this process now. A process is given for the first time after all below it.
    pub fn keep(&mut self, process: u32, standing: Option<Standing>) -> Result<(), AllocError> {
        let place = process as usize;
        if place < self.standings.len() {
            self.standings[place] = standing;
        } else {
            self.standings.push(standing)?;
        }
        Ok(())
    }

    /// Lists what the key owns, in rising order. Of a table of another configuration nothing is listed.
    pub fn list_owned(&mut self, table: &Table, key: Key) {
        if self.config == table.config() {
            table.owned_by(key, &mut self.owned);
            self.owned.sort_unstable();
        }
    }

    /// Returns whether the process is on a cycle of waits; if it is, `members` has that cycle. Not asked of a table of another configuration.
    pub fn has_cycle(&mut self, table: &Table, process: u32) -> bool
        ensures { self.old.config ≡ table.now.config → (IsTrue result ↔ IsOnCycle table.now process) }
    {
        self.config == table.config() && cycle_through(table, process, &mut self.members)
    }
}
