//! The manager, which knows no thread.
ghost use Rattle.std.specs.Prelude.{◌≡◌, ◌<◌, ◌+◌, ◌^◌, IfOk, replicate};
ghost use Rattle.test_tied.specs.ToyManager.{Asks};

use std::alloc::{AllocError, Global};
use std::marker::Model;

/// What a request is answered.
#[derive(Clone, Copy, Debug, PartialEq, Eq)]
pub enum Answer {
    /// Nobody owned the name, and the transaction does now.
    Granted,
    /// It owns it already.
    Held,
    /// Another one owns it.
    Taken,
    /// It owned the name, which is free now.
    Given,
    /// It does not own it.
    NotOwner,
}

/// Who asked for which name, and what was answered.
#[derive(Clone, Copy, Debug, PartialEq, Eq)]
pub struct Asked {
    pub at: u32,
    pub name: u32,
    pub answer: Answer,
}

/// Who owns each name: 0, or one more than the transaction that owns it. A contract sees the list.
#[derive(Drop)]
pub struct ToyManager {
    owners: Vec<u32>,
}

impl Model for ToyManager {
    ghost use Rattle.std.specs.Prelude.{ℕ, List};

    ghost Value = { List ℕ };

    ghost view = { λ m. m.owners.items };
}

impl ToyManager {
    /// A manager of this many names, which nobody owns.
    pub(crate) fn open(alloc: Global, names: u32) -> Result<ToyManager, AllocError>
        ensures { IfOk result (λ m. m ≡ replicate names 0) }
    {
        let owners = vec![in alloc; 0u32; names as usize]?;
        Ok(ToyManager { owners })
    }

    /// Asks for a name, and never waits.
    pub(crate) fn ask(&mut self, at: u32, name: u32) -> Answer
        requires { at + 1 < 2 ^ 32 }
        ensures { Asks self.old (record { at = at; name = name; answer = result }) self.new }
    {
        if name as usize >= self.owners.len() {
            return Answer::NotOwner;
        }
        let owner = self.owners[name as usize];
        if owner == 0 {
            self.owners[name as usize] = at + 1;
            return Answer::Granted;
        }
        if owner == at + 1 {
            Answer::Held
        } else {
            Answer::Taken
        }
    }

    /// Gives a name back.
    pub(crate) fn give(&mut self, at: u32, name: u32) -> Answer
        requires { at + 1 < 2 ^ 32 }
        ensures { Asks self.old (record { at = at; name = name; answer = result }) self.new }
    {
        if name as usize >= self.owners.len() || self.owners[name as usize] != at + 1 {
            return Answer::NotOwner;
        }
        self.owners[name as usize] = 0;
        Answer::Given
    }
}
