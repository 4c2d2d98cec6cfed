//! The finder of a guard: rates that carry what comes, and greens that serve them in every cycle.
//!
//! The rates are the least over a denominator, found by the sweeps of a trial without excess; the mixes of its programs,
//! rounded up to whole periods, are the first greens. Then no green stays longer than its movements want.
#![tactic(auto)]

ghost use Rattle.mp_finder.specs.WorkedGuards.{AreWorkedGuards};

mod fault;
mod greens;
mod search;
mod wants;

pub use fault::FindFault;
pub use search::find;

/// The finder on the worked networks.
pub fn worked_guards()
    ensures { AreWorkedGuards }
{}
