//! The rules of a guard: each compares two numbers, and none of these passes 128 bits where the rules before it are kept.
ghost use Rattle.std.specs.Prelude.{◌≡◌, ◌↔◌, ◌*◌, ◌≤◌, ◌^◌, IsTrue, length, sum_by};
ghost use Rattle.mp_model.specs.Guard.{guarded_rate, greens_at, given, CycleRule, LostRule, GuardDenominatorRule, FlowRule, GreenRule, GreensFit, GuardedBalanceRule, GuardedServeRule, HasGuardLengths};
ghost use Rattle.mp_model.specs.Network.{junction_at, into_link, entry};
ghost use Rattle.mp_model.specs.NetworkRules.{IsAcceptable};
ghost use Rattle.mp_guard.specs.Checking.{HasNumbers, HasRates, HasGreens};

use crate::Guard;
use crate::greens::{is_always_green, sum_with, taken};
use mp_cert::places::{from, junction_of};
use mp_net::{JunctionNo, LinkNo, MovementNo, Net, StageNo};

/// The rate of the movement.
pub fn rate(guard: &Guard, k: MovementNo) -> u128
    requires { (1 ≤ k) × (k ≤ length guard.now.rates) }
    ensures { result ≡ guarded_rate guard.now k }
{
    guard.rates()[usize::from(k) - 1]
}

/// Whether the cycle is 1 to 3,600 periods.
pub fn cycle_fits(guard: &Guard) -> bool
    ensures { IsTrue result ↔ CycleRule guard.now }
{
    guard.cycle() >= 1 && guard.cycle() <= 3600
}

/// Whether a change loses one period at most.
pub fn lost_fits(guard: &Guard) -> bool
    ensures { IsTrue result ↔ LostRule guard.now }
{
    guard.lost() <= 1
}

/// Whether the denominator is 1 to 999,999,999.
pub fn denominator_fits(guard: &Guard) -> bool
    ensures { IsTrue result ↔ GuardDenominatorRule guard.now }
{
    guard.denominator() >= 1 && guard.denominator() <= 999_999_999
}

/// Whether the rate of the movement is at most its flow.
pub fn rate_fits(net: &Net, guard: &Guard, k: MovementNo) -> bool
    requires acceptable { IsAcceptable net.now }
    requires lengths { HasGuardLengths net.now guard.now }
    requires numbers { HasNumbers guard.now }
    requires movement { (1 ≤ k) × (k ≤ length net.now.movements) }
    ensures { IsTrue result ↔ FlowRule net.now guard.now k }
{
    rate(guard, k) <= u128::from(net.movement(k).flow) * guard.denominator()
}

/// The green of the stage.
pub fn green(net: &Net, guard: &Guard, j: JunctionNo, s: StageNo) -> u128
    requires lengths { HasGuardLengths net.now guard.now }
    requires junction { (1 ≤ j) × (j ≤ length net.now.junctions) }
    requires stage { (1 ≤ s) × (s ≤ length (junction_at net.now j).stages) }
    ensures { result ≡ entry (greens_at guard.now j) s }
{
    guard.greens(j)[usize::from(s) - 1]
}

/// Whether the green of the stage is at most the cycle.
pub fn green_fits(net: &Net, guard: &Guard, j: JunctionNo, s: StageNo) -> bool
    requires lengths { HasGuardLengths net.now guard.now }
    requires junction { (1 ≤ j) × (j ≤ length net.now.junctions) }
    requires stage { (1 ≤ s) × (s ≤ length (junction_at net.now j).stages) }
    ensures { IsTrue result ↔ GreenRule guard.now j s }
{
    green(net, guard, j, s) <= guard.cycle()
}

/// Whether the greens of the junction, and what changes lose, fit into the cycle.
pub fn greens_fit(net: &Net, guard: &Guard, j: JunctionNo) -> bool
    requires acceptable { IsAcceptable net.now }
    requires lengths { HasGuardLengths net.now guard.now }
    requires numbers { HasNumbers guard.now }
    requires greens { HasGreens net.now guard.now }
    requires junction { (1 ≤ j) × (j ≤ length net.now.junctions) }
    ensures { IsTrue result ↔ GreensFit guard.now (greens_at guard.now j) }
{
    taken(guard.lost(), guard.greens(j)) <= guard.cycle()
}

/// The sum of the rates of the movements into the link.
#[tactic(auto, using(crate::proofs::RuleLemmas::addings))]
fn inflow(net: &Net, guard: &Guard, l: LinkNo) -> u128
    requires acceptable { IsAcceptable net.now }
    requires lengths { HasGuardLengths net.now guard.now }
    requires numbers { HasNumbers guard.now }
    requires rates { HasRates net.now guard.now }
    requires link { (1 ≤ l) × (l ≤ length net.now.links) }
    ensures sum { result ≡ sum_by (guarded_rate guard.now) (into_link net.now l) }
    ensures few { result ≤ 512 * 1000000000000 }
{
    let mut sum = 0;
    for k in net.into_link(l) {
        sum += rate(guard, *k);
    }
    sum
}

/// Whether the rate of the movement carries its share of what comes to its link.
pub fn balance_holds(net: &Net, guard: &Guard, k: MovementNo) -> bool
    requires acceptable { IsAcceptable net.now }
    requires lengths { HasGuardLengths net.now guard.now }
    requires numbers { HasNumbers guard.now }
    requires rates { HasRates net.now guard.now }
    requires movement { (1 ≤ k) × (k ≤ length net.now.movements) }
    ensures { IsTrue result ↔ GuardedBalanceRule net.now guard.now k }
{
    let l = from(net, k);
    let per = u128::from(net.per());
    let outside = u128::from(net.link(l).rate) * guard.denominator();
    let coming = outside + per * inflow(net, guard, l);
    u128::from(net.movement(k).share) * coming <= u128::from(net.shares()) * per * rate(guard, k)
}

/// How many periods of each cycle the movement is given.
pub fn given(net: &Net, guard: &Guard, k: MovementNo) -> u128
    requires acceptable { IsAcceptable net.now }
    requires lengths { HasGuardLengths net.now guard.now }
    requires numbers { HasNumbers guard.now }
    requires greens { HasGreens net.now guard.now }
    requires movement { (1 ≤ k) × (k ≤ length net.now.movements) }
    ensures periods { result ≡ given net.now guard.now k }
    ensures few { result ≤ 16 * 10 ^ 20 }
{
    let j = junction_of(net, k);
    if is_always_green(net, j, k) {
        guard.cycle()
    } else {
        sum_with(net, j, guard.greens(j), k)
    }
}

/// Whether the movement is given a period at least, and its rate is served.
pub fn serve_holds(net: &Net, guard: &Guard, k: MovementNo) -> bool
    requires acceptable { IsAcceptable net.now }
    requires lengths { HasGuardLengths net.now guard.now }
    requires numbers { HasNumbers guard.now }
    requires rates { HasRates net.now guard.now }
    requires greens { HasGreens net.now guard.now }
    requires movement { (1 ≤ k) × (k ≤ length net.now.movements) }
    ensures { IsTrue result ↔ GuardedServeRule net.now guard.now k }
{
    let given = given(net, guard, k);
    let served = guard.denominator() * u128::from(net.movement(k).flow) * given;
    given >= 1 && guard.cycle() * rate(guard, k) <= served
}
