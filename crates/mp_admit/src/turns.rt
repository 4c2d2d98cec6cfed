//! The second step of the game at a junction: its stages together, turn by turn.
ghost use Rattle.std.specs.Prelude.{◌≡◌, ◌+◌, ◌-◌, ◌≤◌, ◌<◌, ◌≤ℤ◌, pos, length, Some, IfOk};
ghost use Rattle.mp_model.specs.Network.{junction_at, own};
ghost use Rattle.mp_model.specs.NetworkRules.{IsNetwork};
ghost use Rattle.mp_flow.specs.Systems.{AreFlows};
ghost use Rattle.mp_flow.specs.Calculating.{flows_of};
ghost use Rattle.mp_num.specs.Operations.{times, plus, less, num};
ghost use Rattle.mp_verdict.specs.Game.{summed_beside};
ghost use Rattle.mp_verdict.specs.Rates.{period_unit, rate_need, unit_need, rates_in};
ghost use Rattle.mp_verdict.specs.Game.{is_over, slack_of, lowered, turn, played};
ghost use Rattle.mp_verdict.specs.declared.TheConstants.{TURN_LIMIT};
ghost use Rattle.mp_verdict.specs.Stated.{Gives};
ghost use Rattle.mp_admit.specs.Scores.{score_of, StandsIn, AreValues, AskSome};
ghost use Rattle.mp_admit.specs.Turns.{turn_of, Falls};

use crate::junction::optimum_at;
use crate::rates::{period_unit, rate_need, rates_at, unit_need};
use crate::score::Score;
use mp_flow::{CalcFault, FlowPair, Place};
use mp_net::{JunctionNo, MovementNo, Net};
use mp_num::{Frac, add, mul, sub};
use mp_simplex::Optimum;
use mp_verdict::TURN_LIMIT;
use std::alloc::Global;

/// Whether the value of a junction's program is above the denominator of the rates.
#[tactic(auto, using(crate::proofs::TermLemmas::terms), unfolding(mp_verdict::specs::Game::is_over))]
fn is_over(rates: &[i128], optimum: &Optimum) -> Option<bool>
    requires { 2 ≤ length rates.now }
    ensures { result ≡ is_over (rates_in rates.now) optimum.now }
{
    let most = mul(rates[0], optimum.value.den())?;
    Some(most < optimum.value.num())
}

/// The sum with what the rates bring to movement `k`, times its value.
#[tactic(auto, using(crate::proofs::TermLemmas::terms), unfolding(mp_num::specs::Operations::times, mp_num::specs::Operations::plus))]
fn add_rate(net: &Net, flows: &FlowPair, k: MovementNo, value: i128, sum: i128) -> Option<i128>
    requires network { IsNetwork net.now }
    requires flows { AreFlows net.now (flows_of flows.now) }
    requires known { (1 ≤ k) × (k ≤ length net.now.movements) }
    ensures { result ≡ plus (Some sum) (times (rate_need net.now (flows_of flows.now) k) (Some value)) }
{
    let term = mul(rate_need(net, flows, k)?, value)?;
    add(sum, term)
}

/// The sum with what a unit of slack brings to movement `k`, times its value.
#[tactic(auto, using(crate::proofs::TermLemmas::terms), unfolding(mp_num::specs::Operations::times, mp_num::specs::Operations::plus))]
fn add_unit(net: &Net, flows: &FlowPair, k: MovementNo, value: i128, sum: i128) -> Option<i128>
    requires network { IsNetwork net.now }
    requires flows { AreFlows net.now (flows_of flows.now) }
    requires known { (1 ≤ k) × (k ≤ length net.now.movements) }
    ensures { result ≡ plus (Some sum) (times (unit_need net.now (flows_of flows.now) k) (Some value)) }
{
    let term = mul(unit_need(net, flows, k)?, value)?;
    add(sum, term)
}

/// What the rates bring to the junction's movements, each times its value.
#[tactic(auto, using(crate::proofs::SumLemmas::summing))]
fn sum_rates(net: &Net, flows: &FlowPair, j: JunctionNo, values: &[i128]) -> Option<i128>
    requires network { IsNetwork net.now }
    requires flows { AreFlows net.now (flows_of flows.now) }
    requires junction { (1 ≤ j) × (j ≤ length net.now.junctions) }
    requires size { length values.now ≡ length (own net.now (junction_at net.now j)) }
    ensures { result ≡ summed_beside (λ k z. times (rate_need net.now (flows_of flows.now) k) (Some z)) (pos 0) (own net.now (junction_at net.now j)) values.now }
{
    let own = net.own(j);
    let mut sum = 0;
    for i in 0..own.len() {
        let Some(next) = add_rate(net, flows, own[i], values[i], sum) else {
            return None;
        };
        sum = next;
    }
    Some(sum)
}

/// What a unit of slack brings to the junction's movements, each times its value.
#[tactic(auto, using(crate::proofs::SumLemmas::summing))]
fn sum_units(net: &Net, flows: &FlowPair, j: JunctionNo, values: &[i128]) -> Option<i128>
    requires network { IsNetwork net.now }
    requires flows { AreFlows net.now (flows_of flows.now) }
    requires junction { (1 ≤ j) × (j ≤ length net.now.junctions) }
    requires size { length values.now ≡ length (own net.now (junction_at net.now j)) }
    ensures { result ≡ summed_beside (λ k z. times (unit_need net.now (flows_of flows.now) k) (Some z)) (pos 0) (own net.now (junction_at net.now j)) values.now }
{
    let own = net.own(j);
    let mut sum = 0;
    for i in 0..own.len() {
        let Some(next) = add_unit(net, flows, own[i], values[i], sum) else {
            return None;
        };
        sum = next;
    }
    Some(sum)
}

/// What the values leave of a period beside the rates.
#[tactic(auto, using(crate::proofs::TermLemmas::terms), unfolding(mp_num::specs::Operations::times, mp_num::specs::Operations::less))]
fn free_of(net: &Net, flows: &FlowPair, j: JunctionNo, values: &[i128], den: i128) -> Option<i128>
    requires network { IsNetwork net.now }
    requires flows { AreFlows net.now (flows_of flows.now) }
    requires junction { (1 ≤ j) × (j ≤ length net.now.junctions) }
    requires size { length values.now ≡ length (own net.now (junction_at net.now j)) }
    ensures { result ≡ less (times (period_unit net.now (flows_of flows.now)) (Some den)) (summed_beside (λ k z. times (rate_need net.now (flows_of flows.now) k) (Some z)) (pos 0) (own net.now (junction_at net.now j)) values.now) }
{
    let whole = mul(period_unit(net, flows)?, den)?;
    sub(whole, sum_rates(net, flows, j, values)?)
}

/// What a unit of slack takes of the values, over a rate length.
#[tactic(auto, using(crate::proofs::TermLemmas::terms), unfolding(mp_num::specs::Operations::times))]
fn unit_of(net: &Net, flows: &FlowPair, j: JunctionNo, values: &[i128]) -> Option<i128>
    requires network { IsNetwork net.now }
    requires flows { AreFlows net.now (flows_of flows.now) }
    requires junction { (1 ≤ j) × (j ≤ length net.now.junctions) }
    requires size { length values.now ≡ length (own net.now (junction_at net.now j)) }
    ensures { result ≡ times (num net.now.per) (summed_beside (λ k z. times (unit_need net.now (flows_of flows.now) k) (Some z)) (pos 0) (own net.now (junction_at net.now j)) values.now) }
{
    mul(i128::from(net.per()), sum_units(net, flows, j, values)?)
}

/// The slack at which the values over their denominator take just the whole time of the junction.
#[tactic(auto, using(crate::proofs::TermLemmas::terms), unfolding(mp_verdict::specs::Game::slack_of, mp_verdict::specs::Game::fraction_of))]
fn slack_of(net: &Net, flows: &FlowPair, j: JunctionNo, values: &[i128], den: i128) -> Option<Frac>
    requires network { IsNetwork net.now }
    requires flows { AreFlows net.now (flows_of flows.now) }
    requires junction { (1 ≤ j) × (j ≤ length net.now.junctions) }
    requires values { AreValues net.now j values.now }
    requires some { AskSome values.now }
    ensures { result ≡ slack_of net.now (flows_of flows.now) (own net.now (junction_at net.now j)) values.now den }
{
    let free = free_of(net, flows, j, values, den)?;
    let unit = unit_of(net, flows, j, values)?;
    Some(Frac::new(free, unit))
}

/// What a turn came to.
#[derive(Drop)]
pub enum Turn {
    /// The junction carries the slack.
    Carried,
    /// The slack is lower, with so many turns left.
    Lowered { left: u32, score: Score },
}

/// The turn in which the optimum of junction `j` lowers the slack, with so many turns left before.
#[tactic(auto, using(crate::proofs::TurnLemmas::lowering))]
fn lower(
    net: &Net,
    flows: &FlowPair,
    j: JunctionNo,
    turns: u32,
    optimum: Optimum,
) -> Result<Turn, CalcFault>
    requires network { IsNetwork net.now }
    requires flows { AreFlows net.now (flows_of flows.now) }
    requires junction { (1 ≤ j) × (j ≤ length net.now.junctions) }
    requires values { AreValues net.now j optimum.primal }
    requires some { AskSome optimum.primal }
    ensures calculation { Gives turn_of result (lowered net.now (flows_of flows.now) j turns optimum) }
    ensures falls { IfOk result (Falls net.now turns) }
{
    if turns == 0 {
        return Err(CalcFault::PivotLimit(j));
    }
    let Optimum {
        primal: values,
        primal_den: den,
        dual: _dual,
        dual_den: _dual_den,
        value: _value,
        pivots: _pivots,
    } = optimum;
    match slack_of(net, flows, j, values.as_slice(), den) {
        Some(slack) => Ok(Turn::Lowered {
            left: turns - 1,
            score: Score {
                slack,
                junction: j,
                values,
            },
        }),
        None => Err(CalcFault::Overflow(Place::Game(j))),
    }
}

/// A turn at junction `j` with so many turns left: its program at the rates of the slack, each pivot costing a turn.
#[tactic(auto, using(crate::proofs::TurnLemmas::turning))]
fn take_turn(
    alloc: Global,
    net: &Net,
    flows: &FlowPair,
    j: JunctionNo,
    turns: u32,
    slack: &Frac,
) -> Result<Turn, CalcFault>
    requires network { IsNetwork net.now }
    requires flows { AreFlows net.now (flows_of flows.now) }
    requires junction { (1 ≤ j) × (j ≤ length net.now.junctions) }
    ensures calculation { Gives turn_of result (turn net.now (flows_of flows.now) j turns slack.now) }
    ensures falls { IfOk result (Falls net.now turns) }
{
    let rates = match rates_at(alloc, net, flows, slack, Place::Game(j)) {
        Ok(rates) => rates,
        Err(fault) => return Err(fault),
    };
    let optimum = match optimum_at(alloc, net, j, &rates, turns, Place::Game(j)) {
        Ok(optimum) => optimum,
        Err(fault) => return Err(fault),
    };
    let Some(over) = is_over(&rates, &optimum) else {
        return Err(CalcFault::Overflow(Place::Game(j)));
    };
    if !over {
        return Ok(Turn::Carried);
    }
    let left = turns.saturating_sub(optimum.pivots);
    lower(net, flows, j, left, optimum)
}

/// The score after the slack fell until junction `j` carries it.
#[tactic(auto, using(crate::proofs::PlayLemmas::playing))]
pub fn play(
    alloc: Global,
    net: &Net,
    flows: &FlowPair,
    j: JunctionNo,
    start: Score,
) -> Result<Score, CalcFault>
    requires network { IsNetwork net.now }
    requires flows { AreFlows net.now (flows_of flows.now) }
    requires junction { (1 ≤ j) × (j ≤ length net.now.junctions) }
    requires stands { StandsIn net.now start }
    ensures calculation { Gives score_of result (played net.now (flows_of flows.now) j (TURN_LIMIT + 1) TURN_LIMIT (score_of start)) }
    ensures stands { IfOk result (StandsIn net.now) }
{
    let mut score = start;
    let mut turns = TURN_LIMIT;
    loop {
        match take_turn(alloc, net, flows, j, turns, &score.slack) {
            Ok(Turn::Carried) => return Ok(score),
            Ok(Turn::Lowered { left, score: next }) => {
                turns = left;
                score = next;
            }
            Err(fault) => return Err(fault),
        }
    }
}
