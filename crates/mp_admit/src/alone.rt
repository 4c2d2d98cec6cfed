//! The first step of the game at a junction: each of its movements alone.
ghost use Rattle.std.specs.Prelude.{◌≡◌, ◌==◌, ◌≤◌, ◌≤ℤ◌, length, cond, pos, IfOk, IfSome};
ghost use Rattle.mp_model.specs.Network.{flow_of, junction_at, own};
ghost use Rattle.mp_model.specs.NetworkRules.{IsNetwork};
ghost use Rattle.mp_flow.specs.Systems.{AreFlows};
ghost use Rattle.mp_flow.specs.Calculating.{flows_of};
ghost use Rattle.mp_num.specs.Operations.{times, less, num};
ghost use Rattle.mp_verdict.specs.Rates.{period_unit, rate_need, unit_need};
ghost use Rattle.mp_verdict.specs.Game.{slack_alone, alone, is_lower, tried, all_tried};
ghost use Rattle.mp_verdict.specs.Stated.{Gives, at_place};
ghost use Rattle.mp_admit.specs.Scores.{scores_of, lower_than, IfStands, AreValues};

use crate::rates::{period_unit, rate_need, unit_need};
use crate::score::Score;
use mp_flow::{CalcFault, FlowPair, Place};
use mp_net::{JunctionNo, MovementNo, Net};
use mp_num::{Frac, Numbers, frac_cmp, mul, sub};
use std::alloc::{AllocError, Global};
use std::cmp::Ordering;

/// What is left of a period's flow of movement `k` alone beside its rate.
#[tactic(auto, using(crate::proofs::TermLemmas::terms), unfolding(mp_num::specs::Operations::times, mp_num::specs::Operations::less))]
fn free_alone(net: &Net, flows: &FlowPair, k: MovementNo) -> Option<i128>
    requires network { IsNetwork net.now }
    requires flows { AreFlows net.now (flows_of flows.now) }
    requires known { (1 ≤ k) × (k ≤ length net.now.movements) }
    ensures { result ≡ less (times (period_unit net.now (flows_of flows.now)) (num (flow_of net.now k))) (rate_need net.now (flows_of flows.now) k) }
{
    let whole = mul(period_unit(net, flows)?, i128::from(net.movement(k).flow))?;
    sub(whole, rate_need(net, flows, k)?)
}

/// What a unit of slack takes of movement `k`, over a rate length.
#[tactic(auto, using(crate::proofs::TermLemmas::terms), unfolding(mp_num::specs::Operations::times))]
fn unit_alone(net: &Net, flows: &FlowPair, k: MovementNo) -> Option<i128>
    requires network { IsNetwork net.now }
    requires flows { AreFlows net.now (flows_of flows.now) }
    requires known { (1 ≤ k) × (k ≤ length net.now.movements) }
    ensures { result ≡ times (num net.now.per) (unit_need net.now (flows_of flows.now) k) }
{
    mul(i128::from(net.per()), unit_need(net, flows, k)?)
}

/// The slack at which movement `k` alone takes the whole time of its junction.
#[tactic(auto, using(crate::proofs::SlackLemmas::slacks), unfolding(mp_verdict::specs::Game::slack_alone, mp_verdict::specs::Game::fraction_of))]
fn slack_alone(net: &Net, flows: &FlowPair, k: MovementNo) -> Option<Frac>
    requires network { IsNetwork net.now }
    requires flows { AreFlows net.now (flows_of flows.now) }
    requires known { (1 ≤ k) × (k ≤ length net.now.movements) }
    ensures { result ≡ slack_alone net.now (flows_of flows.now) k }
{
    let free = free_alone(net, flows, k)?;
    let unit = unit_alone(net, flows, k)?;
    Some(Frac::new(free, unit))
}

/// 1 where the two movements are the same, and 0 otherwise.
fn one_at(m: MovementNo, k: MovementNo) -> i128
    ensures { result ≡ cond (m == k) (pos 1) (pos 0) }
{
    if m == k { 1 } else { 0 }
}

/// The values of the junction's movements: 1 at movement `k`, and 0 elsewhere.
#[tactic(auto, using(crate::proofs::AloneLemmas::aloning))]
fn alone(alloc: Global, net: &Net, j: JunctionNo, k: MovementNo) -> Result<Numbers, AllocError>
    requires { (1 ≤ j) × (j ≤ length net.now.junctions) }
    ensures value { IfOk result (λ n. n ≡ alone k (own net.now (junction_at net.now j))) }
    ensures values { IfOk result (λ n. AreValues net.now j n) }
{
    let mut numbers = Vec::new(alloc);
    for m in net.own(j) {
        numbers.push(one_at(*m, k))?;
    }
    Ok(Numbers::new(numbers))
}

/// Whether the first slack is lower, or nothing where the comparison exceeds 128 bits.
#[tactic(auto, unfolding(mp_verdict::specs::Game::is_lower))]
fn is_lower(a: &Frac, b: &Frac) -> Option<bool>
    ensures { result ≡ is_lower a.now b.now }
{
    match frac_cmp(a, b) {
        Some(Ordering::Less) => Some(true),
        Some(Ordering::Equal) => Some(false),
        Some(Ordering::Greater) => Some(false),
        None => None,
    }
}

/// Whether the slack is lower than that of the score, or there is none yet.
fn lower_than(slack: &Frac, score: &Option<Score>) -> Option<bool>
    ensures { result ≡ lower_than slack.now (scores_of score.now) }
{
    match score {
        None => Some(true),
        Some(old) => is_lower(slack, &old.slack),
    }
}

/// The score after movement `k` of junction `j` was tried alone.
#[tactic(auto, using(crate::proofs::AloneLemmas::trying))]
fn try_movement(
    alloc: Global,
    net: &Net,
    flows: &FlowPair,
    j: JunctionNo,
    score: Option<Score>,
    k: MovementNo,
) -> Result<Option<Score>, CalcFault>
    requires network { IsNetwork net.now }
    requires flows { AreFlows net.now (flows_of flows.now) }
    requires junction { (1 ≤ j) × (j ≤ length net.now.junctions) }
    requires known { (1 ≤ k) × (k ≤ length net.now.movements) }
    requires stands { IfStands net.now score }
    ensures calculation { Gives scores_of result (at_place (Place.Game j) (tried net.now (flows_of flows.now) j (own net.now (junction_at net.now j)) (scores_of score) k)) }
    ensures stands { IfOk result (IfStands net.now) }
{
    let Some(slack) = slack_alone(net, flows, k) else {
        return Err(CalcFault::Overflow(Place::Game(j)));
    };
    let Some(lower) = lower_than(&slack, &score) else {
        return Err(CalcFault::Overflow(Place::Game(j)));
    };
    if !lower {
        return Ok(score);
    }
    let Ok(values) = alone(alloc, net, j, k) else {
        return Err(CalcFault::NoMemory);
    };
    Ok(Some(Score {
        slack,
        junction: j,
        values,
    }))
}

/// The score after each movement of junction `j` was tried alone.
#[tactic(auto, using(crate::proofs::AloneLemmas::trials))]
pub fn try_movements(
    alloc: Global,
    net: &Net,
    flows: &FlowPair,
    j: JunctionNo,
    before: Option<Score>,
) -> Result<Option<Score>, CalcFault>
    requires network { IsNetwork net.now }
    requires flows { AreFlows net.now (flows_of flows.now) }
    requires junction { (1 ≤ j) × (j ≤ length net.now.junctions) }
    requires stands { IfStands net.now before }
    ensures calculation { Gives scores_of result (at_place (Place.Game j) (all_tried net.now (flows_of flows.now) j (scores_of before))) }
    ensures stands { IfOk result (IfStands net.now) }
{
    let mut score = before;
    for k in net.own(j) {
        score = match try_movement(alloc, net, flows, j, score, *k) {
            Ok(next) => next,
            Err(fault) => return Err(fault),
        };
    }
    Ok(score)
}
