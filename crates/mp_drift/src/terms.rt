//! The terms of a network's movements.
ghost use Rattle.std.specs.Prelude.{◌≡◌, ◌*◌, ◌<◌, ◌≤◌, ◌^◌, length, map, max, sum_by, IfOk, pos};
ghost use Rattle.mp_model.specs.Network.{movement_numbers, link_numbers, out_of, share_of};
ghost use Rattle.mp_model.specs.Bounds.{credit_term, step_term, greatest_change, report_shift};
ghost use Rattle.mp_drift.specs.Flows.{flow_into};
ghost use Rattle.mp_drift.specs.Stated.{unit_of};

use mp_net::{LinkNo, MovementNo, Net};
use std::alloc::{AllocError, Global};

/// The share total times the rate length.
pub fn unit(net: &Net) -> u128
    ensures value { result ≡ unit_of net.now }
    ensures some { 1 ≤ result }
    ensures few { result ≤ 3600000 }
{
    u128::from(net.shares()) * u128::from(net.per())
}

/// The sum of the flows of the movements into link `l`.
#[tactic(auto, using(crate::proofs::Loops::summing, mp_flow::proofs::RowLoopLemmas::movement_into, crate::proofs::Limits::flow_few))]
fn flow_into(net: &Net, l: LinkNo) -> u64
    requires { (1 ≤ l) × (l ≤ length net.now.links) }
    ensures value { result ≡ flow_into net.now l }
    ensures few { result ≤ 512000 }
{
    let _shares = net.shares();
    let _movements = net.movements();
    let mut sum: u64 = 0;
    for k in net.into_link(l) {
        sum += u64::from(net.movement(*k).flow);
    }
    sum
}

/// The sum of the flows into each link, in link order.
#[tactic(auto, using(crate::proofs::Loops::listing))]
pub fn flows_into(alloc: Global, net: &Net) -> Result<Vec<u64>, AllocError>
    ensures { IfOk result (λ sums. sums.items ≡ map (flow_into net.now) (link_numbers net.now)) }
{
    let mut sums = Vec::new(alloc);
    for l in 0..net.links() {
        sums.push(flow_into(net, l + 1))?;
    }
    Ok(sums)
}

/// The credit-and-burst term of movement `k`.
#[tactic(auto, using(crate::proofs::Limits::terms))]
fn credit_term(net: &Net, k: MovementNo) -> u64
    requires { (1 ≤ k) × (k ≤ length net.now.movements) }
    ensures value { result ≡ credit_term net.now k }
    ensures few { result ≤ 2 ^ 36 }
{
    let shares = u64::from(net.shares());
    let per = u64::from(net.per());
    let movement = net.movement(k);
    let share = u64::from(movement.share);
    let burst = u64::from(net.link(movement.from).burst);
    let outs = net.out_of(movement.from).len() as u64;
    per * (outs - 1) * (shares - 1) + share * per * burst
}

/// The sum of the flows into link `l`, from a list of all.
fn flow_at(net: &Net, into: &[u64], l: LinkNo) -> u64
    requires known { (1 ≤ l) × (l ≤ length net.now.links) }
    requires sums { into.now ≡ map (flow_into net.now) (link_numbers net.now) }
    ensures value { result ≡ flow_into net.now l }
    ensures few { result ≤ 512000 }
{
    let _shares = net.shares();
    into[usize::from(l) - 1]
}

/// The greater of two numbers.
fn greater(a: u64, b: u64) -> u64
    ensures { result ≡ max a b }
{
    if a < b { b } else { a }
}

/// The step term of movement `k`, where `into` has the sum of the flows into each link.
#[tactic(auto, using(crate::proofs::Limits::terms))]
fn step_term(net: &Net, into: &[u64], k: MovementNo) -> u64
    requires known { (1 ≤ k) × (k ≤ length net.now.movements) }
    requires sums { into.now ≡ map (flow_into net.now) (link_numbers net.now) }
    ensures value { result ≡ step_term net.now k }
    ensures few { result ≤ 2 ^ 41 }
{
    let shares = u64::from(net.shares());
    let per = u64::from(net.per());
    let movement = net.movement(k);
    let share = u64::from(movement.share);
    let flow = u64::from(movement.flow);
    let rate = u64::from(net.link(movement.from).rate);
    let came = flow_at(net, into, movement.from);
    greater(shares * per * flow, share * (per * came + rate))
}

/// The greatest change of the queue of movement `k` in a period, where `into` has the sum of the flows into each link.
#[tactic(auto, using(crate::proofs::Limits::terms))]
fn greatest_change(net: &Net, into: &[u64], k: MovementNo) -> u64
    requires known { (1 ≤ k) × (k ≤ length net.now.movements) }
    requires sums { into.now ≡ map (flow_into net.now) (link_numbers net.now) }
    ensures value { result ≡ greatest_change net.now k }
    ensures few { result ≤ 523000 }
{
    let per = u64::from(net.per());
    let _shares = net.shares();
    let movement = net.movement(k);
    let flow = u64::from(movement.flow);
    let link = net.link(movement.from);
    let burst = u64::from(link.burst);
    let rate = u64::from(link.rate);
    let came = flow_at(net, into, movement.from);
    greater(flow, came + burst + (rate + per - 1) / per)
}

/// The greatest change of each queue in a period, in movement order.
#[tactic(auto, using(crate::proofs::Loops::listing))]
pub fn greatest_changes(alloc: Global, net: &Net, into: &[u64]) -> Result<Vec<u64>, AllocError>
    requires { into.now ≡ map (flow_into net.now) (link_numbers net.now) }
    ensures { IfOk result (λ changes. changes.items ≡ map (greatest_change net.now) (movement_numbers net.now)) }
{
    let mut changes = Vec::new(alloc);
    for k in 0..net.movements() {
        changes.push(greatest_change(net, into, k + 1))?;
    }
    Ok(changes)
}

/// The greatest change of movement `k`, from a list of all.
fn change_at(net: &Net, changes: &[u64], k: MovementNo) -> u64
    requires known { (1 ≤ k) × (k ≤ length net.now.movements) }
    requires changes { changes.now ≡ map (greatest_change net.now) (movement_numbers net.now) }
    ensures value { result ≡ greatest_change net.now k }
    ensures few { result ≤ 523000 }
{
    let _shares = net.shares();
    changes[usize::from(k) - 1]
}

/// The sum of the greatest changes of the movements out of link `l`, each times its share.
#[tactic(auto, using(crate::proofs::Loops::summing))]
fn changes_on(net: &Net, changes: &[u64], l: LinkNo) -> u64
    requires known { (1 ≤ l) × (l ≤ length net.now.links) }
    requires changes { changes.now ≡ map (greatest_change net.now) (movement_numbers net.now) }
    ensures value { result ≡ sum_by (λ k. share_of net.now k * greatest_change net.now k) (out_of net.now l) }
    ensures few { result ≤ 512 * 523000000 }
{
    let _shares = net.shares();
    let mut sum: u64 = 0;
    for k in net.out_of(l) {
        sum += u64::from(net.movement(*k).share) * change_at(net, changes, *k);
    }
    sum
}

/// What old reports can shift the weight of movement `k` by, where `changes` has the greatest change of each queue.
pub fn report_shift(net: &Net, changes: &[u64], k: MovementNo) -> u64
    requires known { (1 ≤ k) × (k ≤ length net.now.movements) }
    requires changes { changes.now ≡ map (greatest_change net.now) (movement_numbers net.now) }
    ensures value { result ≡ report_shift net.now k }
    ensures few { result ≤ 60 * (512 * 523000000) }
{
    let _shares = net.shares();
    match net.movement(k).to {
        None => 0,
        Some(l) => u64::from(net.delay()) * changes_on(net, changes, l),
    }
}

/// The credit-and-burst terms, one per movement in movement order.
#[tactic(auto, using(crate::proofs::Loops::listing))]
pub fn credit_terms(alloc: Global, net: &Net) -> Result<Vec<i128>, AllocError>
    ensures { IfOk result (λ terms. terms.items ≡ map (λ k. pos (credit_term net.now k)) (movement_numbers net.now)) }
{
    let mut terms = Vec::new(alloc);
    for k in 0..net.movements() {
        terms.push(i128::from(credit_term(net, k + 1)))?;
    }
    Ok(terms)
}

/// The step terms, one per movement in movement order, where `into` has the sum of the flows into each link.
#[tactic(auto, using(crate::proofs::Loops::listing))]
pub fn step_terms(alloc: Global, net: &Net, into: &[u64]) -> Result<Vec<i128>, AllocError>
    requires { into.now ≡ map (flow_into net.now) (link_numbers net.now) }
    ensures { IfOk result (λ terms. terms.items ≡ map (λ k. pos (step_term net.now k)) (movement_numbers net.now)) }
{
    let mut terms = Vec::new(alloc);
    for k in 0..net.movements() {
        terms.push(i128::from(step_term(net, into, k + 1)))?;
    }
    Ok(terms)
}
