//! Laws. Each function does nothing; its contract is the law, over the definitions of `specs/`.
ghost use Rattle.mm_connections.specs.Apart.{HangUpEnds, HangUpEndsLast, HangUpLeavesNone, LastPartsEnd, LinesAreApart, PartsEndNobody, RunsAreApart};

/// A line leaves each live transaction of other connections than its own. The operator's requests are left out.
pub fn lines_are_apart()
    ensures { LinesAreApart }
{}

/// The same of a whole run: its lines leave each live transaction of connections that say none of them.
pub fn runs_are_apart()
    ensures { RunsAreApart }
{}

/// By a part of an end nobody ends, and each transaction is the connection's whose it was.
pub fn parts_end_nobody()
    ensures { PartsEndNobody }
{}

/// After the last part of an end its transaction is not live.
pub fn last_parts_end()
    ensures { LastPartsEnd }
{}

/// After a part of a hang-up each transaction of the connection has ended, or is the connection's still.
pub fn hang_up_ends()
    ensures { HangUpEnds }
{}

/// A part of a hang-up after which a transaction of the connection is left that did not take back its wait ends none.
pub fn hang_up_ends_last()
    ensures { HangUpEndsLast }
{}

/// After the last part of a hang-up no transaction is the connection's, and its count is 0.
pub fn hang_up_leaves_none()
    ensures { HangUpLeavesNone }
{}
