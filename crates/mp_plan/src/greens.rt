//! The greens of a plan.
ghost use Rattle.std.specs.Prelude.{◌≡◌, ◌<◌, ◌≤◌, ◌*◌, ◌^◌, ◌++◌, ◌∷◌, [], max, map, length, sum, IfSome, IfOk, OnOk, option_map, vec_items, All};
ghost use Rattle.std.specs.List.{find};
ghost use Rattle.mp_flow.specs.Calculating.{flows_of};
ghost use Rattle.mp_flow.specs.Systems.{AreFlows};
ghost use Rattle.mp_model.specs.Network.{flow_of, junction_at, share_of, stage_at, stage_numbers, has};
ghost use Rattle.mp_model.specs.NetworkRules.{IsAcceptable};
ghost use Rattle.mp_model.specs.Plans.{flow_before, home_of};
ghost use Rattle.mp_num.specs.Passing.{each};
ghost use Rattle.mp_plan.specs.Ends.{GreensEnd, JunctionEnds, over, rates};
ghost use Rattle.mp_plan.specs.Stated.{greener, green_with, stated_green, stated_greens, stated_sum, stated_wanted, wanted_from};

use crate::checked::{product, quotient_up, sum};
use crate::fault::PlanFault;
use mp_cert::places::from;
use mp_flow::FlowPair;
use mp_net::{JunctionNo, MovementNo, Net, StageNo};
use std::alloc::{AllocError, Global};

/// The share total times the rate length.
pub fn unit(net: &Net) -> u128
    ensures value { result ≡ net.now.shares * net.now.per }
    ensures some { 1 ≤ result }
    ensures few { result ≤ 3600000 }
{
    u128::from(net.shares()) * u128::from(net.per())
}

/// The denominator of the flows.
pub fn denominator(net: &Net, flows: &FlowPair) -> u128
    requires { AreFlows net.now (flows_of flows.now) }
    ensures value { result ≡ over flows.now }
    ensures some { 1 ≤ result }
    ensures fits { result < 2 ^ 127 }
{
    flows.d.unsigned_abs()
}

/// The flow of the link that the movement leaves.
pub fn flow_before(net: &Net, flows: &FlowPair, k: MovementNo) -> u128
    requires acceptable { IsAcceptable net.now }
    requires flows { AreFlows net.now (flows_of flows.now) }
    requires known { (1 ≤ k) × (k ≤ length net.now.movements) }
    ensures value { result ≡ flow_before net.now (rates flows.now) k }
    ensures fits { result < 2 ^ 127 }
{
    let l = from(net, k);
    flows.rate.as_slice()[usize::from(l) - 1].unsigned_abs()
}

// What comes in a cycle times the flow, over the unit times the denominator times the most that passes.
#[tactic(auto, using(crate::proofs::Fitting::fitting_is), unfolding(crate::specs::Stated::wanted_from))]
fn wanted_from(coming: u128, flow: u128, unit: u128, d: u128, most: u128) -> Option<u128>
    requires coming { coming < 2 ^ 127 }
    requires flow { flow < 2 ^ 127 }
    requires unit { (1 ≤ unit) × (unit < 2 ^ 127) }
    requires denominator { (1 ≤ d) × (d < 2 ^ 127) }
    requires most { (1 ≤ most) × (most < 2 ^ 127) }
    ensures value { result ≡ wanted_from coming flow unit d most }
    ensures fits { IfSome result (λ n. n < 2 ^ 127) }
{
    let above = product(coming, flow)?;
    let whole = product(unit, d)?;
    let below = product(whole, most)?;
    Some(quotient_up(above, below))
}

// What comes in a cycle to the movement by its share.
fn coming(net: &Net, c: u32, k: MovementNo) -> u128
    requires cycle { c ≤ 3600 }
    requires known { (1 ≤ k) × (k ≤ length net.now.movements) }
    ensures value { result ≡ c * share_of net.now k }
    ensures fits { result < 2 ^ 127 }
{
    u128::from(c) * u128::from(net.movement(k).share)
}

// The most that the movement passes in a period.
fn most(net: &Net, k: MovementNo) -> u128
    requires acceptable { IsAcceptable net.now }
    requires known { (1 ≤ k) × (k ≤ length net.now.movements) }
    ensures value { result ≡ flow_of net.now k }
    ensures some { 1 ≤ result }
    ensures few { result < 2 ^ 127 }
{
    u128::from(net.movement(k).flow)
}

// How many periods of a cycle the movement wants, or `None` exactly where this exceeds 128 bits.
#[tactic(auto, unfolding(crate::specs::Stated::stated_wanted))]
fn wanted(net: &Net, flows: &FlowPair, c: u32, k: MovementNo) -> Option<u128>
    requires acceptable { IsAcceptable net.now }
    requires flows { AreFlows net.now (flows_of flows.now) }
    requires cycle { c ≤ 3600 }
    requires known { (1 ≤ k) × (k ≤ length net.now.movements) }
    ensures value { result ≡ stated_wanted net.now (rates flows.now) (over flows.now) c k }
    ensures fits { IfSome result (λ n. n < 2 ^ 127) }
{
    let d = denominator(net, flows);
    wanted_from(
        coming(net, c, k),
        flow_before(net, flows, k),
        unit(net),
        d,
        most(net, k),
    )
}

// Whether the movement stands in the stage.
fn stands_in(net: &Net, j: JunctionNo, s: StageNo, k: MovementNo) -> bool
    requires junction { (1 ≤ j) × (j ≤ length net.now.junctions) }
    requires stage { (1 ≤ s) × (s ≤ length (junction_at net.now j).stages) }
    ensures { result ≡ has (stage_at (junction_at net.now j) s) k }
{
    net.stage(j, s).iter().any(|i| *i == k)
}

// The lowest stage of the junction that holds the movement.
fn first_stage(net: &Net, j: JunctionNo, k: MovementNo) -> Option<StageNo>
    requires junction { (1 ≤ j) × (j ≤ length net.now.junctions) }
    ensures { result ≡ find (λ s. has (stage_at (junction_at net.now j) s) k) (stage_numbers (junction_at net.now j)) }
{
    (1..net.stages(j) + 1).find(|s| stands_in(net, j, *s, k))
}

// The lowest stage of the junction that holds the movement, or 0 where none does.
fn home(net: &Net, j: JunctionNo, k: MovementNo) -> StageNo
    requires junction { (1 ≤ j) × (j ≤ length net.now.junctions) }
    ensures { result ≡ home_of (junction_at net.now j) k }
{
    match first_stage(net, j, k) {
        Some(s) => s,
        None => 0,
    }
}

// The greater of two greens, and at least 1.
fn greater(green: u128, want: u128) -> u128
    requires first { green < 2 ^ 127 }
    requires second { want < 2 ^ 127 }
    ensures value { result ≡ max green (max 1 want) }
    ensures fits { result < 2 ^ 127 }
{
    green.max(want.max(1))
}

// The green of the stage with one more of its movements.
#[tactic(auto, unfolding(crate::specs::Stated::green_with))]
fn green_with(
    net: &Net,
    flows: &FlowPair,
    c: u32,
    j: JunctionNo,
    s: StageNo,
    green: u128,
    k: MovementNo,
) -> Option<u128>
    requires acceptable { IsAcceptable net.now }
    requires flows { AreFlows net.now (flows_of flows.now) }
    requires cycle { c ≤ 3600 }
    requires junction { (1 ≤ j) × (j ≤ length net.now.junctions) }
    requires green { green < 2 ^ 127 }
    requires known { (1 ≤ k) × (k ≤ length net.now.movements) }
    ensures value { result ≡ green_with net.now (rates flows.now) (over flows.now) c (junction_at net.now j) s green k }
    ensures fits { IfSome result (λ n. n < 2 ^ 127) }
{
    if home(net, j, k) != s {
        return Some(green);
    }
    match wanted(net, flows, c, k) {
        Some(want) => Some(greater(green, want)),
        None => None,
    }
}

// The green of the stage, in periods per cycle, or `None` exactly where a calculation exceeds 128 bits.
#[tactic(auto, using(mp_cert::proofs::RunLemmas::running, mp_cert::proofs::PlaceLemmas::staged_known), unfolding(crate::specs::Stated::stated_green))]
fn green(net: &Net, flows: &FlowPair, c: u32, j: JunctionNo, s: StageNo) -> Option<u128>
    requires acceptable { IsAcceptable net.now }
    requires flows { AreFlows net.now (flows_of flows.now) }
    requires cycle { c ≤ 3600 }
    requires junction { (1 ≤ j) × (j ≤ length net.now.junctions) }
    requires stage { (1 ≤ s) × (s ≤ length (junction_at net.now j).stages) }
    ensures value { result ≡ stated_green net.now (rates flows.now) (over flows.now) c (junction_at net.now j) s }
    ensures fits { IfSome result (λ n. n < 2 ^ 127) }
{
    let mut green = 0;
    for k in net.stage(j, s) {
        let Some(next) = green_with(net, flows, c, j, s, green, *k) else {
            return None;
        };
        green = next;
    }
    Some(green)
}

// The greens of the stages of the junction, as far as none exceeds 128 bits.
#[tactic(auto, using(crate::proofs::Listing::numbering))]
fn stage_greens(
    alloc: Global,
    net: &Net,
    flows: &FlowPair,
    c: u32,
    j: JunctionNo,
) -> Result<Option<Vec<u128>>, AllocError>
    requires acceptable { IsAcceptable net.now }
    requires flows { AreFlows net.now (flows_of flows.now) }
    requires cycle { c ≤ 3600 }
    requires junction { (1 ≤ j) × (j ≤ length net.now.junctions) }
    ensures value { IfOk result (λ o. option_map vec_items o ≡ each (stated_green net.now (rates flows.now) (over flows.now) c (junction_at net.now j)) (stage_numbers (junction_at net.now j))) }
    ensures fits { IfOk result (λ o. IfSome o (λ greens. All (λ n. n < 2 ^ 127) greens.items)) }
{
    let mut greens = Vec::new(alloc);
    for s in 0..net.stages(j) {
        let Some(green) = green(net, flows, c, j, s + 1) else {
            return Ok(None);
        };
        greens.push(green)?;
    }
    Ok(Some(greens))
}

// The sum of the greens, or `None` exactly where it exceeds 128 bits.
#[tactic(auto, using(mp_cert::proofs::RunLemmas::running), unfolding(crate::specs::Stated::stated_sum))]
fn total(greens: &[u128]) -> Option<u128>
    requires { All (λ n. n < 2 ^ 127) greens.now }
    ensures value { result ≡ stated_sum greens.now }
{
    let mut so_far = 0;
    for green in greens {
        let Some(next) = sum(so_far, *green) else {
            return None;
        };
        so_far = next;
    }
    Some(so_far)
}

// The same numbers in fewer bits.
#[tactic(auto, using(crate::proofs::Greening::copying))]
fn small(alloc: Global, greens: &[u128], c: u32) -> Result<Vec<u32>, AllocError>
    requires fit { sum greens.now ≤ c }
    ensures { IfOk result (λ small. small.items ≡ greens.now) }
{
    let mut small = Vec::new(alloc);
    for green in greens {
        small.push(*green as u32)?;
    }
    Ok(small)
}

// The greens of the stages of the junction, in periods per cycle.
fn greens_at(
    alloc: Global,
    net: &Net,
    flows: &FlowPair,
    c: u32,
    j: JunctionNo,
) -> Result<Vec<u32>, PlanFault>
    requires acceptable { IsAcceptable net.now }
    requires flows { AreFlows net.now (flows_of flows.now) }
    requires cycle { c ≤ 3600 }
    requires junction { (1 ≤ j) × (j ≤ length net.now.junctions) }
    ensures { JunctionEnds net.now (rates flows.now) (over flows.now) c j result }
{
    let Some(greens) = stage_greens(alloc, net, flows, c, j)? else {
        return Err(PlanFault::Overflow);
    };
    let Some(all) = total(&greens) else {
        return Err(PlanFault::Overflow);
    };
    if all > u128::from(c) {
        return Err(PlanFault::Full { junction: j });
    }
    Ok(small(alloc, &greens, c)?)
}

// Appends the greens of a junction.
fn add_row(greens: &mut Vec<Vec<u32>>, row: Vec<u32>) -> Result<(), AllocError>
    ensures { OnOk result (map (λ row. row.items) greens.new.items ≡ map (λ row. row.items) greens.old.items ++ row.items ∷ []) }
{
    greens.push(row)?;
    Ok(())
}

/// For each junction the greens of its stages, in periods per cycle.
pub fn all_greens(
    alloc: Global,
    net: &Net,
    flows: &FlowPair,
    c: u32,
) -> Result<Vec<Vec<u32>>, PlanFault>
    requires acceptable { IsAcceptable net.now }
    requires flows { AreFlows net.now (flows_of flows.now) }
    requires cycle { (1 ≤ c) × (c ≤ 3600) }
    ensures { GreensEnd net.now (rates flows.now) (over flows.now) c result }
{
    let mut greens = Vec::new(alloc);
    for j in 0..net.junctions() {
        match greens_at(alloc, net, flows, c, j + 1) {
            Ok(row) => add_row(&mut greens, row)?,
            Err(fault) => return Err(fault),
        }
    }
    Ok(greens)
}
