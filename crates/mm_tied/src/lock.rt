//! The lock.
ghost use Rattle.std.specs.Prelude.{◌≡◌};

use crate::rule::Kept;
use crate::story::Story;
use crate::views::View;
use atomic_table::{Seat, Shared, Table};
use std::alloc::Global;
use std::snapshot::Snapshot;

/// A value that one thread at a time may use, with one history.
pub struct TiedMutex<T, S, E, Y: Story<T, S, E>> {
    pub(crate) table: Table<T, View<S, E>, Snapshot<T>, Kept<Y>, Global>,
    ghost sized: { (table.shared.table_id.words ≡ 32) × (table.shared.table_id.slots ≡ 1) },
}

/// A thread's way to one lock. It has no bytes.
pub type Pass<T, S, E> = Seat<T, View<S, E>>;

/// The steps of a lock.
pub type Steps<T, S, E, Y> = Shared<T, View<S, E>, Snapshot<T>, Kept<Y>>;

// By hand, so that a crate that drops a lock proves nothing of how its parts are dropped.
impl<T: Drop, S, E, Y: Story<T, S, E>> Drop for TiedMutex<T, S, E, Y> {
    fn drop(self) {
        drop(self.into_inner());
    }
}

/// Where the word of the lock lies.
pub(crate) const AT: usize = 16;

impl<T, S, E, Y: Story<T, S, E>> TiedMutex<T, S, E, Y> {
    ghost use Rattle.std.specs.Prelude.{IfOk};
    ghost use Rattle.mm_tied.specs.History.{LeadsTo};
    ghost use Rattle.mm_tied.specs.Mutex.{IsPassOf, opened};

    /// Returns the value behind the lock, which nobody else can take any more.
    pub fn into_inner(self) -> T {
        let TiedMutex { table } = self;
        let mut closed = table.close();
        let value = closed.take(0);
        closed.free();
        value
    }

    /// Returns the value behind the lock, which nobody else can take any more, and to which the history leads. `Err`: a pass that was let go had
    /// the lock, and nothing is known of the value.
    pub fn close(self, pass: Pass<T, S, E>) -> Result<T, T>
        requires { IsPassOf self pass }
        ensures { IfOk result (λ value. LeadsTo Y.makes (Y.state (opened self)) pass.id pass.me.0 (Y.state value)) }
    {
        let TiedMutex { table } = self;
        let mut closed = table.close_with(pass);
        let word = closed.word(AT);
        let value = closed.take(0);
        closed.free();
        if word == 0 { Ok(value) } else { Err(value) }
    }
}
