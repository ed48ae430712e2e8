//! How the transactions of clients ended.
ghost use Rattle.std.specs.Prelude.{◌≡◌, ◌+◌, ◌<◌, false, true};
ghost use Rattle.mm_clients.specs.End.{aborts_of, ends_well};

use crate::end::End;

/// The ends of all transactions but the last one of each client. Only a finished or aborted transaction is followed by another.
#[derive(Clone, Copy, Debug, PartialEq, Eq)]
pub struct EarlierEnds {
    pub finished: u32,
    pub aborted: u32,
}

impl EarlierEnds {
    /// Each client makes one transaction.
    pub const NONE: EarlierEnds = EarlierEnds {
        finished: 0,
        aborted: 0,
    };

    /// Counts this end, if another transaction may follow it, and returns whether that is so.
    pub(crate) fn count(&mut self, end: End) -> bool
        requires few { self.old.finished + self.old.aborted < u32.MAX }
        ensures follows { result ≡ ends_well end }
        ensures aborted { result ≡ true → self.new.aborted ≡ self.old.aborted + aborts_of end }
        ensures all { result ≡ true → self.new.finished + self.new.aborted ≡ self.old.finished + self.old.aborted + 1 }
        ensures same { result ≡ false → self.new ≡ self.old }
    {
        match end {
            End::Finished => {
                self.finished += 1;
                true
            }
            End::Aborted => {
                self.aborted += 1;
                true
            }
            End::Spent | End::Refused(_) => false,
        }
    }
}

/// How the transactions of one client ended.
#[derive(Clone, Copy, Debug, PartialEq, Eq)]
pub struct ClientEnds {
    /// Those before its last one.
    pub earlier: EarlierEnds,
    pub last: End,
}
