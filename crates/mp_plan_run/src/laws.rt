// What a plan lets pass, as flags.
ghost use Rattle.mp_plan_run.specs.Green.{PlanFlagsLaw};

/// A period of a plan is one with the flags of the movements that are green in it.
pub fn plan_flags_law()
    ensures { PlanFlagsLaw }
{}
