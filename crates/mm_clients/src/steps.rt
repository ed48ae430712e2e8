//! The events of a table, as a worker calls them.
ghost use Rattle.std.specs.Prelude.{◌≡◌};
ghost use Rattle.mm_rules.specs.Event.{Begin, Acquire, Release, Finish, Transmit, Detect, Abort, GiveUp, Settle};
ghost use Rattle.mm_counts.specs.Shares.{Shares, CountsEvent};

use mm_board::Hint;
use mm_table::{Acquired, Detected, Key, Refusal, Released, Settled, Transmitted};

/// What a worker needs of a table: its nine events, which transaction uses a process, and a look for labels to pass on. A `Desk` meets
/// it, and so does a `Table`.
///
/// An event counts as it does in a pass (`CountsEvent`). Each call refuses and costs what the call of its name of `Table` does.
pub trait Steps {
    /// The three counts, and the parts.
    ghost shares: { Self → Shares };

    /// Starts a transaction. Refused as `Full` if no process is free.
    fn begin(&mut self) -> Result<Key, Refusal>
        ensures { CountsEvent Begin result (shares self.old) (shares self.new) };

    /// Takes a resource, or waits for it.
    fn acquire(&mut self, key: Key, resource: u32) -> Result<Acquired, Refusal>
        ensures { CountsEvent (Acquire key resource) result (shares self.old) (shares self.new) };

    /// Hands a resource over.
    fn release(&mut self, key: Key, resource: u32) -> Result<Released, Refusal>
        ensures { CountsEvent (Release key resource) result (shares self.old) (shares self.new) };

    /// Ends an active transaction.
    fn finish(&mut self, key: Key) -> Result<(), Refusal>
        ensures { CountsEvent (Finish key) result (shares self.old) (shares self.new) };

    /// Passes the holder's label on to a waiting transaction.
    fn transmit(&mut self, key: Key) -> Result<Transmitted, Refusal>
        ensures { CountsEvent (Transmit key) result (shares self.old) (shares self.new) };

    /// Gives a waiting transaction a verdict if its two labels and its holder's public one are one label.
    fn detect(&mut self, key: Key) -> Result<Detected, Refusal>
        ensures { CountsEvent (Detect key) result (shares self.old) (shares self.new) };

    /// Ends a transaction with a verdict.
    fn abort(&mut self, key: Key) -> Result<(), Refusal>
        ensures { CountsEvent (Abort key) result (shares self.old) (shares self.new) };

    /// Ends the wait of a transaction without a verdict whose two labels are equal. Clients and transmitters do not call it.
    fn give_up(&mut self, key: Key) -> Result<(), Refusal>
        ensures { CountsEvent (GiveUp key) result (shares self.old) (shares self.new) };

    /// Transmits and detects for all that wait.
    fn settle(&mut self) -> Result<Settled, Refusal>
        ensures { CountsEvent Settle result (shares self.old) (shares self.new) };

    /// Returns the live key of the process, if it has one. It is not counted.
    fn tenant(&mut self, process: u32) -> Option<Key>
        ensures { shares self.new ≡ shares self.old };

    /// Looks at the processes from `from` on, in ascending order, and returns the first that waits for another one whose public label is
    /// seen above its own or is the same. `None` if there is none. It is not counted.
    ///
    /// A hint promises nothing of the table, which others may change: the event that follows it makes its own test.
    /// `O(processes looked at)`.
    fn scan(&mut self, from: u32) -> Option<Hint>
        ensures accepted { (shares self.new).accepted ≡ (shares self.old).accepted }
        ensures verdicts { (shares self.new).verdicts ≡ (shares self.old).verdicts }
        ensures aborts { (shares self.new).aborts ≡ (shares self.old).aborts }
        ensures parts { (shares self.new).parts ≡ (shares self.old).parts };
}
