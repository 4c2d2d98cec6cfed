//! Controls of the laws: each is a function with an empty body whose contract says that a sharper
//! form of a law is false, or how far a law can be sharpened. `docs/controls.md` lists them by law.
#![tactic(auto)]

ghost use Rattle.mp_controls.specs.Drift.{DriftBelowLaw, NotOfNoMovement, NotTwoBelow};
ghost use Rattle.mp_controls.specs.Bounds.{NotBoundTwoLower, NotCoreBoundTwoLower, NotBoundsOfNextSlack};
ghost use Rattle.mp_controls.specs.Lower.{LowerBoundLaw, NotOneLower, NotLowerWithStarts};
ghost use Rattle.mp_controls.specs.Closer.{CloserDriftLaw, CloserBoundLaw, NotCloserTwoLower, WorkedStayLower};
ghost use Rattle.mp_controls.specs.OneLower.{OneLowerLaw, NotFourLower, CoreOneLowerLaw, ThreeApproachesCase};
ghost use Rattle.mp_controls.specs.Splits.{NotLinkSplitOneMore};
ghost use Rattle.mp_controls.specs.Periods.{NotSharperPeriod};
ghost use Rattle.mp_controls.specs.Order.{NotGreatestWithoutClosing};

/// The drift value that a period keeps is at most its greatest less 1, where there is a movement.
pub fn drift_below_law()
    ensures { DriftBelowLaw }
{}

/// Without a movement it is not less than its greatest.
pub fn drift_of_no_movement_control()
    ensures { NotOfNoMovement }
{}

/// It is not always at most its greatest less 2.
pub fn drift_two_lower_control()
    ensures { NotTwoBelow }
{}

/// Where nothing is queued at the start, no queue of a run exceeds what its bound would be if the greatest
/// drift value were one lower.
pub fn lower_bound_law()
    ensures { LowerBoundLaw }
{}

/// Not every queue of a run is at most that bound less 1.
pub fn lower_bound_control()
    ensures { NotOneLower }
{}

/// With queues at the start the bound cannot be taken one lower.
pub fn lower_bound_with_starts_control()
    ensures { NotLowerWithStarts }
{}

/// A period keeps the drift value at most the closer drift value too.
pub fn closer_drift_law()
    ensures { CloserDriftLaw }
{}

/// No queue of a run exceeds its closer bound.
pub fn closer_bound_law()
    ensures { CloserBoundLaw }
{}

/// Not every queue of a run is at most its closer bound less 2.
pub fn closer_bound_control()
    ensures { NotCloserTwoLower }
{}

/// By the closer bounds each queue of the worked networks is at most its bound less 1.
pub fn worked_bounds_one_lower()
    ensures { WorkedStayLower }
{}

/// In a network with a burst and three movements no queue of a run reaches its bound.
pub fn one_lower_law()
    ensures { OneLowerLaw }
{}

/// In such networks not every queue is at most its bound less 4.
pub fn four_lower_control()
    ensures { NotFourLower }
{}

/// No queue of the event core reaches its bound there either.
pub fn core_one_lower_law()
    ensures { CoreOneLowerLaw }
{}

/// Three approaches that take turns meet the premises of both, with a slack of 5/12.
pub fn three_approaches_case()
    ensures { ThreeApproachesCase }
{}

/// Not every queue of a run is at most its bound less 2.
pub fn bound_two_lower_control()
    ensures { NotBoundTwoLower }
{}

/// Not every queue of the event core is at most its bound less 2.
pub fn core_bound_two_lower_control()
    ensures { NotCoreBoundTwoLower }
{}

/// Two slacks can have different bounds.
pub fn next_slack_control()
    ensures { NotBoundsOfNextSlack }
{}

/// The shares out of a link do not sum to one more than the share total.
pub fn link_split_control()
    ensures { NotLinkSplitOneMore }
{}

/// A period moves no level by less, no phase and no queue by one more than the law says.
pub fn period_control()
    ensures { NotSharperPeriod }
{}

/// A period that does not close shows no greatest stages.
pub fn order_control()
    ensures { NotGreatestWithoutClosing }
{}
