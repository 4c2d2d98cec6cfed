//! The laws of cyclic plans, each on a function with an empty body.
#![tactic(auto)]

ghost use Rattle.mp_planned.specs.Bounds.{OneListLaw, SettledLaw};
ghost use Rattle.mp_planned.specs.Controls.{NotPlannedBoundOneLower};
ghost use Rattle.mp_planned.specs.Plans.{PlanServesLaw, PlannedBoundLaw, PlannedCase};

/// In any row of periods the greens of a plan serve the rate of each movement in all but one period
/// less than the cycle.
pub fn plan_serves_law()
    ensures { PlanServesLaw }
{}

/// No queue of a run by a plan is above its bound (Cruz 1991; Lindley 1952 for one movement).
pub fn planned_bound_law()
    ensures { PlannedBoundLaw }
{}

/// Without a cycle of movements there is exactly one list of bounds of which each follows from those
/// before it.
pub fn one_list_law()
    ensures { OneListLaw }
{}

/// Without a cycle of movements any list is formed to the bounds in two turns more than there are links.
pub fn settled_law()
    ensures { SettledLaw }
{}

/// Two approaches with start queues meet the premises.
pub fn planned_case()
    ensures { PlannedCase }
{}

/// Not each queue stays below its bound: on two approaches one reaches it.
pub fn planned_bound_one_lower_control()
    ensures { NotPlannedBoundOneLower }
{}
