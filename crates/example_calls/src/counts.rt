//! What becomes of a table whose counts come to their limit. Each function does nothing; its contract is the fact.
ghost use Rattle.example_calls.specs.Counts.{LastEventIsCounted, LastVerdictIsCounted, RefusedAtLimit, RefusedOnlyAtLimit, SettlePassesLimit};

/// If 2 to the 62 events were accepted, or as many verdicts given, every event is refused, whatever its key and its resource, and
/// nothing changes.
pub fn refused_at_limit()
    ensures { RefusedAtLimit }
{}

/// Nowhere else is an event refused because of the counts.
pub fn refused_only_at_limit()
    ensures { RefusedOnlyAtLimit }
{}

/// The last event that is counted, in a table of which two transactions are live: a begin.
pub fn last_event_is_counted()
    ensures { LastEventIsCounted }
{}

/// The last verdict that is counted, of one of two that wait for each other. The events before it are accepted, and none after it.
pub fn last_verdict_is_counted()
    ensures { LastVerdictIsCounted }
{}

/// A settle is accepted as long as one verdict is left to count, also if it gives two. After it every event is refused.
pub fn settle_passes_limit()
    ensures { SettlePassesLimit }
{}
