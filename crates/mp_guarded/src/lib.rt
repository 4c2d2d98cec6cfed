//! The laws of guarded greens, each on a function with an empty body.
#![tactic(auto)]

ghost use Rattle.mp_guarded.specs.Bounds.{GuardedBoundLaw, GuardedPassingLaw};
ghost use Rattle.mp_guarded.specs.Candidates.{CandidateLaw};
ghost use Rattle.mp_guarded.specs.Cases.{LongestWaitCase, MiscountedCase, UnseenCase};
ghost use Rattle.mp_guarded.specs.Greens.{GreensLaw, WaitLaw};
ghost use Rattle.mp_guarded.specs.Runs.{GuardedRunLaw, GuardedStagesLaw};
ghost use Rattle.mp_guarded.specs.Sweeps.{SweepsLaw};
ghost use Rattle.mp_guarded.specs.Waits.{GuardedWaitLaw, PlayWaitLaw};

/// However a cycle is cut, a movement with somebody waiting gets the greens that it is given, less
/// those of the two parts that are cut off.
pub fn greens_law()
    ensures { GreensLaw }
{}

/// Nobody waits longer than twice the periods of a cycle that the movement is not given.
pub fn wait_law()
    ensures { WaitLaw }
{}

/// So one of `wait + 1` periods in each of which somebody of a movement is counted is green, by any counts.
pub fn play_wait_law()
    ensures { PlayWaitLaw }
{}

/// What a junction needs is never more than what is left of the cycle, so a candidate is always there.
pub fn candidate_law()
    ensures { CandidateLaw }
{}

/// What passes in any row of periods is a burst and a rate (Cruz 1991), also where movements lead in
/// a loop: by induction over the periods, for all movements at once.
pub fn guarded_passing_law()
    ensures { GuardedPassingLaw }
{}

/// No queue is above its bound, whatever candidates the junctions take by whatever counts, so long as
/// a count of 0 is true.
pub fn guarded_bound_law()
    ensures { GuardedBoundLaw }
{}

/// In the run by its own queues each junction takes a candidate in every period.
pub fn guarded_stages_law()
    ensures { GuardedStagesLaw }
{}

/// No queue of that run is above its bound: it is a play whose counts are the queues.
pub fn guarded_run_law()
    ensures { GuardedRunLaw }
{}

/// In that run no movement with somebody waiting is without green longer than its wait, over any
/// arrivals.
pub fn guarded_wait_law()
    ensures { GuardedWaitLaw }
{}

/// Where sweeps from a list of zeros have come to rest, the bursts are the least that carry those
/// before them, and the printed bounds the least under them.
pub fn sweeps_law()
    ensures { SweepsLaw }
{}

/// Two approaches under a guard meet the premises of the bound law, though nine are counted whatever
/// stands there.
pub fn miscounted_case()
    ensures { MiscountedCase }
{}

/// A count of 0 must be true: where somebody waits unseen, a queue rises above that bound.
pub fn unseen_case()
    ensures { UnseenCase }
{}

/// The longest wait occurs, so no wait can be one period less.
pub fn longest_wait_case()
    ensures { LongestWaitCase }
{}
