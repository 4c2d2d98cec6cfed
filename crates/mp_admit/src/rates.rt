//! What the movements of a network need at a slack.
ghost use Rattle.std.specs.Prelude.{◌≡◌, ◌+◌, ◌≤◌, ◌≤ℤ◌, pos, length, IfOk, vec_items};
ghost use Rattle.mp_model.specs.Network.{movement_numbers};
ghost use Rattle.mp_model.specs.NetworkRules.{IsNetwork};
ghost use Rattle.mp_num.specs.Divisor.{reduced};
ghost use Rattle.mp_num.specs.Passing.{each};
ghost use Rattle.mp_flow.specs.Systems.{AreFlows};
ghost use Rattle.mp_flow.specs.Calculating.{flows_of};
ghost use Rattle.mp_num.specs.Operations.{times};
ghost use Rattle.mp_admit.specs.Lists.{before};
ghost use Rattle.mp_verdict.specs.Stated.{Gives, at_place};
ghost use Rattle.mp_verdict.specs.Rates.{period_unit, rate_need, unit_need, need_at, rates_in, rates_at};

use mp_flow::{CalcFault, FlowPair, Place};
use mp_net::{MovementNo, Net};
use mp_num::{Frac, add, mul, row_gcd};
use std::alloc::Global;

/// What stands for one vehicle per period: the share total times the rate length times the denominator of the flows.
#[tactic(auto, using(crate::proofs::TermLemmas::terms), unfolding(mp_verdict::specs::Rates::period_unit, mp_num::specs::Operations::times))]
pub fn period_unit(net: &Net, flows: &FlowPair) -> Option<i128>
    ensures { result ≡ period_unit net.now (flows_of flows.now) }
{
    mul(
        mul(i128::from(net.shares()), i128::from(net.per()))?,
        flows.d,
    )
}

/// What the rates of the links bring to movement `k`: its share of the flow of its link.
#[tactic(auto, using(crate::proofs::TermLemmas::terms), unfolding(mp_verdict::specs::Rates::rate_need, mp_num::specs::Operations::times))]
pub fn rate_need(net: &Net, flows: &FlowPair, k: MovementNo) -> Option<i128>
    requires network { IsNetwork net.now }
    requires flows { AreFlows net.now (flows_of flows.now) }
    requires known { (1 ≤ k) × (k ≤ length net.now.movements) }
    ensures { result ≡ rate_need net.now (flows_of flows.now) k }
{
    let movement = net.movement(k);
    let on_link = flows.rate.as_slice()[usize::from(movement.from) - 1];
    mul(i128::from(movement.share), on_link)
}

/// What one unit of slack on every movement brings to movement `k`.
#[tactic(auto, using(crate::proofs::TermLemmas::terms), unfolding(mp_verdict::specs::Rates::unit_need, mp_num::specs::Operations::times, mp_num::specs::Operations::plus))]
pub fn unit_need(net: &Net, flows: &FlowPair, k: MovementNo) -> Option<i128>
    requires network { IsNetwork net.now }
    requires flows { AreFlows net.now (flows_of flows.now) }
    requires known { (1 ≤ k) × (k ≤ length net.now.movements) }
    ensures { result ≡ unit_need net.now (flows_of flows.now) k }
{
    let movement = net.movement(k);
    let on_link = flows.unit.as_slice()[usize::from(movement.from) - 1];
    let brought = mul(i128::from(movement.share), on_link)?;
    let own = mul(i128::from(net.shares()), flows.d)?;
    add(brought, own)
}

/// The need of movement `k` at the slack, before the rates are reduced.
#[tactic(auto, using(crate::proofs::TermLemmas::terms), unfolding(mp_verdict::specs::Rates::need_at, mp_num::specs::Operations::times, mp_num::specs::Operations::plus))]
pub fn need_at(net: &Net, flows: &FlowPair, slack: &Frac, k: MovementNo) -> Option<i128>
    requires network { IsNetwork net.now }
    requires flows { AreFlows net.now (flows_of flows.now) }
    requires known { (1 ≤ k) × (k ≤ length net.now.movements) }
    ensures { result ≡ need_at net.now (flows_of flows.now) slack.now k }
{
    let rate = mul(rate_need(net, flows, k)?, slack.den())?;
    let excess = mul(i128::from(net.per()), slack.num())?;
    add(rate, mul(excess, unit_need(net, flows, k)?)?)
}

/// The denominator at the slack, before the rates are reduced.
#[tactic(auto, using(crate::proofs::TermLemmas::terms), unfolding(mp_num::specs::Operations::times))]
fn whole_at(net: &Net, flows: &FlowPair, slack: &Frac) -> Option<i128>
    ensures { result ≡ times (period_unit net.now (flows_of flows.now)) (Some slack.now.den) }
{
    mul(period_unit(net, flows)?, slack.den())
}

/// The excess at the slack, before the rates are reduced.
#[tactic(auto, using(crate::proofs::TermLemmas::terms), unfolding(mp_num::specs::Operations::times))]
fn excess_at(net: &Net, flows: &FlowPair, slack: &Frac) -> Option<i128>
    ensures { result ≡ times (period_unit net.now (flows_of flows.now)) (Some slack.now.num) }
{
    mul(period_unit(net, flows)?, slack.num())
}

/// The numbers with the needs of all movements at the slack behind them.
#[tactic(auto, using(crate::proofs::PushLemmas::numbering))]
fn with_needs(
    numbers: Vec<i128>,
    net: &Net,
    flows: &FlowPair,
    slack: &Frac,
    place: Place,
) -> Result<Vec<i128>, CalcFault>
    requires network { IsNetwork net.now }
    requires flows { AreFlows net.now (flows_of flows.now) }
    ensures calculation { Gives vec_items result (at_place place (before numbers.items (each (need_at net.now (flows_of flows.now) slack.now) (movement_numbers net.now)))) }
    ensures size { IfOk result (λ row. length row.items ≡ length numbers.items + length net.now.movements) }
{
    let mut row = numbers;
    for k in 0..net.movements() {
        let Some(need) = need_at(net, flows, slack, k + 1) else {
            return Err(CalcFault::Overflow(place));
        };
        let Ok(()) = row.push(need) else {
            return Err(CalcFault::NoMemory);
        };
    }
    Ok(row)
}

/// The numbers, reduced together.
#[tactic(auto, using(crate::proofs::RateLemmas::reducing))]
pub fn reduce(numbers: Vec<i128>) -> Vec<i128>
    ensures value { result.items ≡ reduced numbers.items }
    ensures size { length result.items ≡ length numbers.items }
{
    let mut row = numbers;
    row_gcd(&mut row);
    row
}

/// The denominator, the excess and the rate of each movement at the slack, reduced together.
#[tactic(auto, using(crate::proofs::RateLemmas::rating))]
pub fn rates_at(
    alloc: Global,
    net: &Net,
    flows: &FlowPair,
    slack: &Frac,
    place: Place,
) -> Result<Vec<i128>, CalcFault>
    requires network { IsNetwork net.now }
    requires flows { AreFlows net.now (flows_of flows.now) }
    ensures calculation { Gives (λ row. rates_in row.items) result (at_place place (rates_at net.now (flows_of flows.now) slack.now)) }
    ensures size { IfOk result (λ row. length row.items ≡ 2 + length net.now.movements) }
    ensures sign { IfOk result (λ row. pos 0 ≤ℤ (rates_in row.items).d) }
{
    // A fraction's denominator is positive.
    let _den = slack.den();
    let Some(whole) = whole_at(net, flows, slack) else {
        return Err(CalcFault::Overflow(place));
    };
    let Some(excess) = excess_at(net, flows, slack) else {
        return Err(CalcFault::Overflow(place));
    };
    let Ok(first) = Vec::from_slice(alloc, &[whole, excess]) else {
        return Err(CalcFault::NoMemory);
    };
    match with_needs(first, net, flows, slack, place) {
        Ok(row) => Ok(reduce(row)),
        Err(fault) => Err(fault),
    }
}
