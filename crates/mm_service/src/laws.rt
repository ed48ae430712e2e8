//! Laws. Each function does nothing; its contract is the law, over the definitions of `specs/`.
ghost use Rattle.mm_service.specs.Cycle.{CycleIsTold};

/// After the answer that there is a deadlock the waits lead from the holder to who asked, and the reply tells these waits.
pub fn cycle_is_told()
    ensures { CycleIsTold }
{}
