//! A plan is made from a network.
ghost use Rattle.std.specs.Prelude.{◌≡◌, ◌≤◌, IfOk, IfErr};
ghost use Rattle.mp_plan.specs.Ends.{FlowEnds};
ghost use Rattle.mp_plan.specs.Made.{IsPlanOn, IsRefused, IsStatedPlan};

use crate::bounds::all_bounds;
use crate::cycles::first_on_cycle;
use crate::fault::PlanFault;
use crate::greens::all_greens;
use crate::plan::Plan;
use mp_flow::{CalcFault, FlowPair, Place, flows};
use mp_net::Net;
use std::alloc::Global;

// The flows of the links.
fn flows_on(alloc: Global, net: &Net) -> Result<FlowPair, PlanFault>
    ensures { FlowEnds net.now result }
{
    match flows(alloc, net) {
        Ok(flows) => Ok(flows),
        Err(CalcFault::NoMemory) => Err(PlanFault::NoMemory),
        Err(CalcFault::Overflow(Place::Flow)) => Err(PlanFault::Flow),
        Err(_) => unreachable!(),
    }
}

/// The cyclic plan of the network for a cycle of `c` periods, with greens for the flows of its links
/// and a bound for each queue (Cruz 1991 along the links; Lindley 1952 for one movement).
///
/// `Cycle` comes exactly where a chain of movements leads from a link back to it, and names the least
/// such link; then `Flow` exactly where the flows exceed 128 bits; then, junction by junction, first
/// `Overflow` exactly where the calculation of its greens exceeds 128 bits, and next `Full` exactly where
/// they sum to more than the cycle; then `Overflow` exactly where the calculation of the bounds exceeds
/// 128 bits or a bound is above 2^62. `NoMemory` says nothing of the network.
pub fn make(alloc: Global, net: &Net, c: u32) -> Result<Plan, PlanFault>
    requires { (1 ≤ c) × (c ≤ 3600) }
    ensures plan { IfOk result (IsPlanOn net.now) }
    ensures cycle { IfOk result (λ plan. plan.cycle ≡ c) }
    ensures stated { IfOk result (IsStatedPlan net.now c) }
    ensures refused { IfErr result (IsRefused net.now c) }
{
    let _shares = net.shares();
    if let Some(link) = first_on_cycle(net) {
        return Err(PlanFault::Cycle { link });
    }
    let flows = match flows_on(alloc, net) {
        Ok(flows) => flows,
        Err(fault) => return Err(fault),
    };
    let greens = match all_greens(alloc, net, &flows, c) {
        Ok(greens) => greens,
        Err(fault) => return Err(fault),
    };
    match all_bounds(alloc, net, &flows, c) {
        Ok(bounds) => Ok(Plan::new(c, greens, bounds)),
        Err(fault) => Err(fault),
    }
}
