//! What holds over each run of calls, proved as the contract of a function that does nothing.
ghost use Rattle.mm_arena.specs.Calls.{RemovedIsNeverLive};

/// A key that was removed is never live again, whatever calls came before and follow. If it had the last generation, its process has no
/// live key either.
pub fn removed_is_never_live<T>()
    ensures { RemovedIsNeverLive T }
{}
