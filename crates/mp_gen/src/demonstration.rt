//! The run of a demonstration.
ghost use Rattle.std.specs.Prelude.{◌≡◌, ◌≤◌, ◌<◌, ◌+◌, ℕ, List, []};
ghost use Rattle.mp_model.specs.Run.{opening};
ghost use Rattle.mp_press.specs.Queues.{naturals};
ghost use Rattle.mp_step.specs.Standing.{Stands};
ghost use Rattle.mp_step.specs.Taken.{HasTaken};
ghost use Rattle.mp_model.specs.Load.{greatest as greatest_of};
ghost use Rattle.mp_model.specs.declared.limits.TheConstants.{MOST_LINES};
ghost use Rattle.mp_gen.specs.DemoNetwork.{demo_network};
ghost use Rattle.mp_gen.specs.Demonstration.{Demonstrated, ClosesNext};

use crate::DemoArrivals;
use crate::greatest::greatest_of;
use arrayvec::ArrayVec;
use mp_session::Session;
use mp_step::AboveAt;

/// The number of periods of a demonstration.
pub const PERIODS: u32 = 1 << 20;

// Closes one period with the next arrivals, for which `counts` is room. The buckets accept them.
fn next_period(session: &mut Session, arrivals: &mut DemoArrivals, counts: &mut ArrayVec<u64, 128>)
    requires delay { session.old.net.delay ≡ 0 }
    requires taken { (A : List (List ℕ)) × HasTaken session.old.net session.old.round.standing A }
    requires period { session.old.round.standing.period < MOST_LINES }
    ensures closes { ClosesNext session.old.net session.old.round.standing session.new.round.standing arrivals.old arrivals.new }
    ensures same { session.new ≡ record session.old { round = session.new.round } }
    ensures period { session.new.round.standing.period ≡ session.old.round.standing.period + 1 }
{
    arrivals.fill(session, counts);
    match session.close_all(counts) {
        Ok(()) => {}
        Err(AboveAt { .. }) => unreachable!(),
    }
}

/// Closes 2^20 periods with the arrivals of this demonstration, each junction showing its stage of
/// greatest pressure, and answers the greatest queue after any period, in vehicles: at most the
/// greatest bound.
///
/// The session is one that was just opened, over the network of this demonstration, and it keeps its
/// network, slack and bounds. The run takes no memory.
pub fn demonstrate(session: &mut Session, n: u64) -> u128
    requires network { session.old.net ≡ demo_network n }
    requires start { Stands session.old.net session.old.round.standing (opening session.old.net) }
    requires taken { HasTaken session.old.net session.old.round.standing [] }
    ensures shown { Demonstrated session.old.net n session.new.round.standing result }
    ensures bounded { result ≤ greatest_of (naturals session.old.bounds) }
    ensures same { session.new ≡ record session.old { round = session.new.round } }
{
    // A session's round comes with what the session keeps.
    let _ = session.round();
    let mut arrivals = DemoArrivals::new(n);
    let mut counts = ArrayVec::new();
    let mut greatest = 0;
    for _turn in 0..PERIODS {
        next_period(session, &mut arrivals, &mut counts);
        greatest = greatest_of(session.state().queues()).max(greatest);
    }
    greatest
}
