//! The laws of runs under lights that serve a demand, each on a function with an empty body.
#![tactic(auto)]

ghost use Rattle.mp_served.specs.Bounds.{PassingLaw, ServedBoundLaw};
ghost use Rattle.mp_served.specs.Busy.{BusyLaw};
ghost use Rattle.mp_served.specs.Surplus.{SurplusLaw};

/// The queue of one movement is what joined since somebody has been waiting, less what its greens
/// served (Lindley 1952).
pub fn busy_law()
    ensures { BusyLaw }
{}

/// What passes in any row of periods is a burst and a rate (Cruz 1991), also where movements lead in
/// a loop: by induction over the periods, for all movements at once.
pub fn passing_law()
    ensures { PassingLaw }
{}

/// No queue is above its bound where the lights serve the rates.
pub fn served_bound_law()
    ensures { ServedBoundLaw }
{}

/// The surplus of a movement is decided within one round of the split.
pub fn surplus_law()
    ensures { SurplusLaw }
{}
