// 01's traps, and what could go wrong in request 2, each of which a twin can be made to fall into. A trap is one rule changed, so it
// is asked for in that rule, beside the words it breaks, and the machine is not written twice.
#[derive(Clone, Copy, Debug, PartialEq, Eq)]
pub enum Trap {
    // "Moving on after a swap."
    MoveOn,
    // "Marking a slot at publication, without the second read of the link."
    MarkEarly,
    // "Draining before the hazard is zeroed".
    DrainEarly,
    // "Freeing at the last match of a scan".
    FreeAtLast,
    // "scanning only other threads' slots".
    OthersOnly,
    // Idle after a sweep's scan, where 02 "returns the thread to Published and not to idle".
    IdleAfter,
    // Sweeping before the hazard is stored, where 02 has it "After each publication".
    SweepEarly,
}
