use crate::Key;
use mm_label::Label;

/// What `acquire` returns.
#[derive(Clone, Copy, Debug, PartialEq, Eq)]
pub enum Acquired {
    /// The resource was free, and the transaction owns it now.
    Granted,
    /// The transaction waits for the holder, with a new label.
    Waits { holder: Key, label: Label },
}

/// What `release` returns.
#[derive(Clone, Copy, Debug, PartialEq, Eq)]
pub enum Released {
    /// Nobody waited, and the resource is free.
    Free,
    /// The longest waiter owns the resource now.
    To(Key),
}

/// What `transmit` returns.
#[derive(Clone, Copy, Debug, PartialEq, Eq)]
pub enum Transmitted {
    /// The transaction took over its holder's greater public label.
    Raised(Label),
    /// The holder's public label is not greater.
    Still,
}

/// What `detect` returns.
#[derive(Clone, Copy, Debug, PartialEq, Eq)]
pub enum Detected {
    /// The transaction has a verdict from now on. The label is its own, which came round to its holder.
    Deadlock(Label),
    /// The transaction has a verdict already.
    Standing,
    /// No verdict.
    Clear,
}

/// What `settle` returns.
#[derive(Clone, Copy, Debug, PartialEq, Eq)]
pub struct Settled {
    /// How many labels were transmitted.
    pub raises: u64,
    /// How many verdicts are new.
    pub verdicts: u64,
}

/// What a transaction does, with the resource that it waits for.
#[derive(Clone, Copy, Debug, PartialEq, Eq)]
pub enum Mode {
    Active,
    Waiting(u32),
    /// It waits, and a verdict stands for it.
    Convicted(u32),
}

/// What `state` returns of a transaction.
#[derive(Clone, Copy, Debug, PartialEq, Eq)]
pub struct State {
    pub mode: Mode,
    pub private: Label,
    pub public: Label,
}

/// What was counted since the opening.
#[derive(Clone, Copy, Debug, PartialEq, Eq)]
pub struct Totals {
    /// Accepted events.
    pub accepted: u64,
    /// Verdicts, by `detect` and by `settle`.
    pub verdicts: u64,
    /// Accepted aborts.
    pub aborts: u64,
}
