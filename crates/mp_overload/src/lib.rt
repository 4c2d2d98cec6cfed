//! How fast the queues of a network grow under even arrivals, whatever stages its junctions show:
//! definitions, and laws over them, each on a function with an empty body.
#![tactic(auto)]

ghost use Rattle.mp_overload.specs.Laws.{EvenLaw, UnevenLaw, PassingLaw, GrowthLaw, TrailLaw, RunLaw, FormedLaw, LeastLaw};
ghost use Rattle.mp_overload.specs.Cases.{OverloadedCase, WorkedGrowths, WorkedRuns, NotFaster, NotLessLost};

/// Even arrivals are permitted where no fed link has a burst of 0 and a rate that is not a multiple of
/// the rate length.
pub fn even_law()
    ensures { EvenLaw }
{}

/// They are not where a fed link has both.
pub fn uneven_law()
    ensures { UnevenLaw }
{}

/// Whatever stages the junctions show, what passes in a period, weighted by the weights (Varaiya 2013)
/// of a vector, is at most the vector's capacity.
pub fn passing_law()
    ensures { PassingLaw }
{}

/// Under every list of stages the queues that a vector weighs grow by at least its growth a period, less
/// what is lost to rounding in all.
pub fn growth_law()
    ensures { GrowthLaw }
{}

/// The same of any state that is reached under even arrivals.
pub fn trail_law()
    ensures { TrailLaw }
{}

/// A run over even arrivals is such a state: that of the greatest stages.
pub fn run_law()
    ensures { RunLaw }
{}

/// The stated calculations come to the numbers that they are named for, wherever they exceed nothing.
pub fn formed_law()
    ensures { FormedLaw }
{}

/// The weighed queues that are formed after periods of a trail are at least the least that is formed.
pub fn least_law()
    ensures { LeastLaw }
{}

/// Two approaches of rate 5 that take turns meet the premises of the laws.
pub fn overloaded_case()
    ensures { OverloadedCase }
{}

/// Worked numbers: growth, what is lost to rounding, the least after 1,000 periods, and an uneven link.
pub fn worked_growths()
    ensures { WorkedGrowths }
{}

/// What is formed after 1,000 periods of greatest stages, also from queues at the start.
pub fn worked_runs()
    ensures { WorkedRuns }
{}

/// With a growth a period that is one higher the law is false.
pub fn faster_growth_control()
    ensures { NotFaster }
{}

/// With one less lost to rounding the law is false, on a network where nothing is.
pub fn less_lost_control()
    ensures { NotLessLost }
{}
