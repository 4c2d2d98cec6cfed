//! What the stages of the controller keep, whatever was counted.
ghost use Rattle.mp_guard_control.specs.Kept.{ControlledLaw, CountedWaitLaw};

/// By whatever counts of which a 0 is true, and over permitted arrivals, the stages of the controller keep the guard, no
/// queue is above its bound, and nobody waits without green longer than the wait.
pub fn controlled_law()
    ensures { ControlledLaw }
{}

/// By whatever counts, true or not, no movement of which somebody is counted is without green longer than its wait.
pub fn counted_wait_law()
    ensures { CountedWaitLaw }
{}
