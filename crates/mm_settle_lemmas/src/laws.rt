//! Facts about all tables. Each function does nothing; its contract is the fact, over the definitions of `specs/`.
ghost use Rattle.mm_settle_lemmas.specs.Shown.{ShownChangesAreTold};

/// What each event changes of what processes show, their public labels and holders. A refused event, a begin and a detect change nothing
/// of it; an acquire that waits and a transmit that raises change the caller's own process, which then shows what the answer says; who
/// gives up changes its own process, which then shows the same label and no holder; the others change some of `changed_processes`. A
/// release, a finish and an abort give no new label to those that wait for nothing afterwards, and a settle no new holder to anybody.
pub fn shown_changes_are_told()
    ensures { ShownChangesAreTold }
{}
