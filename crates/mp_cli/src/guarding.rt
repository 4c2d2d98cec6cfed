//! The guard of a network.
ghost use Rattle.std.specs.Prelude.{◌≡◌, ◌≤◌, ◌<◌, ◌^◌, ℕ, List, Option, IfOk, IfErr};
ghost use Rattle.mp_edge.specs.Outside.{Rose};
ghost use Rattle.mp_model.specs.Guard.{Guards};
ghost use Rattle.mp_guard.specs.Bursts.{ComeToRest};
ghost use Rattle.mp_cli.specs.Guarding.{FindsGuard, HasNoBursts};
ghost use Rattle.mp_cli.specs.Outcomes.{outcome_of_bursts, outcome_of_finding};
ghost use Rattle.mp_cli.specs.Statuses.{status_of, HasNoFault};

use crate::opening::open_net;
use crate::outcome::Outcome;
use mp_edge::{Sink, Store};
use mp_finder::{FindFault, find};
use mp_flow::Place;
use mp_guard::{BurstFault, Guard, PutFault, bursts, put_guard, surpluses};
use mp_net::Net;
use std::alloc::Global;

// The outcome of a search that finds no guard.
fn outcome_of_finding(fault: FindFault) -> Outcome
    ensures { result ≡ outcome_of_finding fault }
{
    match fault {
        FindFault::NoRates => Outcome::NoGuard,
        FindFault::Sweeps => Outcome::SweepLimit(0),
        FindFault::Overflow(j) => Outcome::Overflow(Place::Game(j)),
        FindFault::PivotLimit(j) => Outcome::PivotLimit(j),
        FindFault::Full { junction } => Outcome::FullGuard(junction),
        FindFault::NoMemory => Outcome::NoMemory,
    }
}

/// The outcome of bursts that are not found.
pub fn outcome_of_bursts(fault: BurstFault) -> Outcome
    ensures { result ≡ outcome_of_bursts fault }
{
    match fault {
        BurstFault::Sweeps => Outcome::BurstLimit,
        BurstFault::NoMemory => Outcome::NoMemory,
    }
}

// The bursts of the guard come to rest, or why not.
fn try_bursts(alloc: Global, net: &Net, guard: &Guard) -> Result<(), Outcome>
    requires { Guards net.now guard.now }
    ensures rest { IfOk result (λ done. ComeToRest net.now guard.now) }
    ensures refused { IfErr result (λ outcome. HasNoBursts outcome net.now guard.now) }
    ensures inside { IfErr result HasNoFault }
{
    let Ok(surpluses) = surpluses(alloc, net) else {
        return Err(Outcome::NoMemory);
    };
    match bursts(alloc, net, guard, &surpluses) {
        Ok(_) => Ok(()),
        Err(fault) => Err(outcome_of_bursts(fault)),
    }
}

/// Finds the guard with this cycle, the lost periods of a change and the denominator, and writes it.
pub fn guard<St: Store, Out: Sink>(
    alloc: Global,
    name: &str,
    cycle: u32,
    lost: u32,
    d: u32,
    store: &mut St,
    out: &mut Out,
) -> Outcome
    requires cycle { (1 ≤ cycle) × (cycle ≤ 3600) }
    requires lost { lost ≤ 1 }
    requires denominator { (1 ≤ d) × (d < 10 ^ 9) }
    ensures means { (left : Option (List ℕ)) → FindsGuard result name.now cycle lost d (record { files = St.files store.old; input_before = left; input_after = left; output_before = Out.held out.old; output_after = Out.held out.new }) }
    ensures store { status_of result ≡ 2 → Rose (St.faults store.old) (St.faults store.new) }
    ensures write { status_of result ≡ 11 → Rose (Out.faults out.old) (Out.faults out.new) }
    ensures unread { ¬ (status_of result ≡ 10) }
{
    let net = match open_net(alloc, name, store) {
        Ok(net) => net,
        Err(outcome) => return outcome,
    };
    let guard = match find(alloc, &net, cycle, lost, d) {
        Ok(guard) => guard,
        Err(fault) => return outcome_of_finding(fault),
    };
    match try_bursts(alloc, &net, &guard) {
        Ok(()) => {}
        Err(outcome) => return outcome,
    }
    match put_guard(alloc, out, &guard) {
        Ok(()) => Outcome::Done,
        Err(PutFault::NoMemory) => Outcome::NoMemory,
        Err(PutFault::Failed) => Outcome::Write,
    }
}
