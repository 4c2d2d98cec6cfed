//! Laws of the period with flags.
ghost use Rattle.mp_step.specs.OpenStep.{OpenStepLaw, ClosedOpenLaw};

/// The step with stages is the one with the flags of the movements that have green and a positive
/// weight.
pub fn open_step_law()
    ensures { OpenStepLaw }
{}

/// So is the standing after a period.
pub fn closed_open_law()
    ensures { ClosedOpenLaw }
{}
