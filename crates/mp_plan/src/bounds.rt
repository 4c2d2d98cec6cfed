//! The bounds of a plan, formed again and again, each list from the one before.
ghost use Rattle.std.specs.Prelude.{◌≡◌, ◌+◌, ◌*◌, ◌<◌, ◌≤◌, ◌^◌, length, sum_by, IfSome, IfOk, option_map, vec_items, All};
ghost use Rattle.mp_flow.specs.Calculating.{flows_of};
ghost use Rattle.mp_flow.specs.Systems.{AreFlows};
ghost use Rattle.mp_model.specs.Network.{burst_before, entry, from_of, into_link, start_of};
ghost use Rattle.mp_model.specs.NetworkRules.{IsAcceptable};
ghost use Rattle.mp_plan.specs.Ends.{BoundsEnd, over, rates};
ghost use Rattle.mp_plan.specs.Made.{HasNoCycle};
ghost use Rattle.mp_plan.specs.Stated.{bound_from, coming_from, early_from, stated_bound, stated_bounds, stated_coming, stated_early, with_room};

use crate::checked::{product, quotient_up, sum};
use crate::fault::PlanFault;
use crate::greens::{denominator, flow_before, unit};
use mp_cert::places::from;
use mp_flow::FlowPair;
use mp_net::{LinkNo, MovementNo, Net};
use std::alloc::{AllocError, Global};

/// The most vehicles of a bound.
const MOST_BOUND: u128 = 1 << 62;

// The sum of the bounds of the movements into the link.
#[tactic(auto, using(crate::proofs::Listing::summing, mp_flow::proofs::RowLoopLemmas::movement_into))]
fn bounds_into(net: &Net, bounds: &[u64], l: LinkNo) -> u128
    requires length { length bounds.now ≡ length net.now.movements }
    requires room { All (λ b. b ≤ 2 ^ 62) bounds.now }
    requires known { (1 ≤ l) × (l ≤ length net.now.links) }
    ensures value { result ≡ sum_by (entry bounds.now) (into_link net.now l) }
    ensures few { result ≤ 2 ^ 71 }
{
    let _movements = net.movements();
    let mut sum: u128 = 0;
    for k in net.into_link(l) {
        sum += u128::from(bounds[usize::from(*k) - 1]);
    }
    sum
}

// What may come to the link of the movement at once: its burst, and the bounds of the movements into it.
fn burst_of(net: &Net, bounds: &[u64], k: MovementNo) -> u128
    requires acceptable { IsAcceptable net.now }
    requires length { length bounds.now ≡ length net.now.movements }
    requires room { All (λ b. b ≤ 2 ^ 62) bounds.now }
    requires known { (1 ≤ k) × (k ≤ length net.now.movements) }
    ensures value { result ≡ burst_before net.now k + sum_by (entry bounds.now) (into_link net.now (from_of net.now k)) }
    ensures fits { result < 2 ^ 127 }
{
    let l = from(net, k);
    u128::from(net.link(l).burst) + bounds_into(net, bounds, l)
}

// What may come to the movement at once and in a cycle, by its share.
#[tactic(auto, using(crate::proofs::Fitting::fitting_is), unfolding(crate::specs::Stated::coming_from))]
fn coming_from(
    share: u128,
    burst: u128,
    d: u128,
    per: u128,
    flow: u128,
    cycle: u128,
) -> Option<u128>
    requires share { share < 2 ^ 127 }
    requires burst { burst < 2 ^ 127 }
    requires d { d < 2 ^ 127 }
    requires per { per < 2 ^ 127 }
    requires flow { flow < 2 ^ 127 }
    requires cycle { cycle < 2 ^ 127 }
    ensures value { result ≡ coming_from share burst d per flow cycle }
    ensures fits { IfSome result (λ n. n < 2 ^ 127) }
{
    let some = product(burst, d)?;
    let at_once = product(some, per)?;
    let in_cycle = product(flow, cycle)?;
    let all = sum(at_once, in_cycle)?;
    product(share, all)
}

// What the split lets come early.
#[tactic(auto, using(crate::proofs::Fitting::fitting_is), unfolding(crate::specs::Stated::early_from))]
fn early_from(d: u128, per: u128, outs: u128, shares: u128) -> Option<u128>
    requires d { d < 2 ^ 127 }
    requires per { per < 2 ^ 127 }
    requires outs { outs < 2 ^ 127 }
    requires shares { (1 ≤ shares) × (shares < 2 ^ 127) }
    ensures value { result ≡ early_from d per outs shares }
    ensures fits { IfSome result (λ n. n < 2 ^ 127) }
{
    let some = product(d, per)?;
    let all = product(some, outs)?;
    product(all, shares - 1)
}

// A bound, where it is at most 2^62.
#[tactic(auto, unfolding(crate::specs::Stated::with_room))]
fn with_room(bound: u128) -> Option<u64>
    ensures { result ≡ with_room bound }
{
    if bound > MOST_BOUND {
        None
    } else {
        Some(bound as u64)
    }
}

// The bound from what comes and what comes early.
#[tactic(auto, using(crate::proofs::Fitting::fitting_is), unfolding(crate::specs::Stated::bound_from))]
fn bound_from(coming: u128, early: u128, unit: u128, d: u128, start: u128) -> Option<u64>
    requires coming { coming < 2 ^ 127 }
    requires early { early < 2 ^ 127 }
    requires unit { (1 ≤ unit) × (unit < 2 ^ 127) }
    requires d { (1 ≤ d) × (d < 2 ^ 127) }
    requires start { start < 2 ^ 64 }
    ensures value { result ≡ bound_from coming early unit d start }
{
    let above = sum(coming, early)?;
    let below = product(unit, d)?;
    with_room(start + quotient_up(above, below))
}

// What may come to the movement at once and in a cycle, from a list of bounds.
#[tactic(auto, using(crate::proofs::Fitting::low_fits), unfolding(crate::specs::Stated::stated_coming))]
fn coming(net: &Net, flows: &FlowPair, c: u32, bounds: &[u64], k: MovementNo) -> Option<u128>
    requires acceptable { IsAcceptable net.now }
    requires flows { AreFlows net.now (flows_of flows.now) }
    requires length { length bounds.now ≡ length net.now.movements }
    requires room { All (λ b. b ≤ 2 ^ 62) bounds.now }
    requires known { (1 ≤ k) × (k ≤ length net.now.movements) }
    ensures value { result ≡ stated_coming net.now (rates flows.now) (over flows.now) c bounds.now k }
    ensures fits { IfSome result (λ n. n < 2 ^ 127) }
{
    coming_from(
        u128::from(net.movement(k).share),
        burst_of(net, bounds, k),
        denominator(net, flows),
        u128::from(net.per()),
        flow_before(net, flows, k),
        u128::from(c),
    )
}

// What the split of the link of the movement lets come early.
fn early(net: &Net, flows: &FlowPair, k: MovementNo) -> Option<u128>
    requires acceptable { IsAcceptable net.now }
    requires flows { AreFlows net.now (flows_of flows.now) }
    requires known { (1 ≤ k) × (k ≤ length net.now.movements) }
    ensures value { result ≡ stated_early net.now (over flows.now) k }
    ensures fits { IfSome result (λ n. n < 2 ^ 127) }
{
    let outs = net.out_of(from(net, k)).len();
    early_from(
        denominator(net, flows),
        u128::from(net.per()),
        outs as u128,
        u128::from(net.shares()),
    )
}

// The start queue of the movement.
fn start(net: &Net, k: MovementNo) -> u128
    requires acceptable { IsAcceptable net.now }
    requires known { (1 ≤ k) × (k ≤ length net.now.movements) }
    ensures value { result ≡ start_of net.now k }
    ensures few { result < 2 ^ 64 }
{
    u128::from(net.movement(k).start)
}

// The bound of the movement from a list of bounds, or `None` exactly where a calculation exceeds 128 bits or it is above 2^62.
#[tactic(auto, unfolding(crate::specs::Stated::stated_bound))]
fn bound(net: &Net, flows: &FlowPair, c: u32, bounds: &[u64], k: MovementNo) -> Option<u64>
    requires acceptable { IsAcceptable net.now }
    requires flows { AreFlows net.now (flows_of flows.now) }
    requires length { length bounds.now ≡ length net.now.movements }
    requires room { All (λ b. b ≤ 2 ^ 62) bounds.now }
    requires known { (1 ≤ k) × (k ≤ length net.now.movements) }
    ensures { result ≡ stated_bound net.now (rates flows.now) (over flows.now) c bounds.now k }
{
    let coming = coming(net, flows, c, bounds, k)?;
    let early = early(net, flows, k)?;
    let d = denominator(net, flows);
    bound_from(coming, early, unit(net), d, start(net, k))
}

// The bounds of all movements from those before them, or none where a calculation exceeds 128 bits or one is above 2^62.
#[tactic(auto, using(crate::proofs::Listing::numbering), unfolding(crate::specs::Stated::stated_bounds))]
fn turn(
    alloc: Global,
    net: &Net,
    flows: &FlowPair,
    c: u32,
    before: &[u64],
) -> Result<Option<Vec<u64>>, AllocError>
    requires acceptable { IsAcceptable net.now }
    requires flows { AreFlows net.now (flows_of flows.now) }
    requires length { length before.now ≡ length net.now.movements }
    requires room { All (λ b. b ≤ 2 ^ 62) before.now }
    ensures { IfOk result (λ o. option_map vec_items o ≡ stated_bounds net.now (rates flows.now) (over flows.now) c before.now) }
{
    let mut next = Vec::new(alloc);
    for k in 0..net.movements() {
        let Some(bound) = bound(net, flows, c, before, k + 1) else {
            return Ok(None);
        };
        next.push(bound)?;
    }
    Ok(Some(next))
}

/// The bound of each movement, in vehicles: without a cycle of movements the list is settled after as
/// many turns as there are links, and two more, whatever list they begin with.
pub fn all_bounds(alloc: Global, net: &Net, flows: &FlowPair, c: u32) -> Result<Vec<u64>, PlanFault>
    requires acceptable { IsAcceptable net.now }
    requires no_cycle { HasNoCycle net.now }
    requires flows { AreFlows net.now (flows_of flows.now) }
    ensures { BoundsEnd net.now (rates flows.now) (over flows.now) c result }
{
    let mut bounds = vec![in alloc; 0u64; usize::from(net.movements())]?;
    for _turn in 0..net.links() + 2 {
        let Some(next) = turn(alloc, net, flows, c, &bounds)? else {
            return Err(PlanFault::Overflow);
        };
        bounds = next;
    }
    match turn(alloc, net, flows, c, &bounds)? {
        Some(settled) => Ok(settled),
        None => Err(PlanFault::Overflow),
    }
}
