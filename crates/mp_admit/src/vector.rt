//! The vector that shows the slack of the game's end.
ghost use Rattle.std.specs.Prelude.{◌≡◌, ◌≤◌, length, map, IfOk, Some, vec_items};
ghost use Rattle.mp_model.specs.Network.{numbers_to, movement_numbers, share_of, to_of};
ghost use Rattle.mp_model.specs.NetworkRules.{IsNetwork};
ghost use Rattle.mp_model.specs.Certificate.{int_entry};
ghost use Rattle.mp_num.specs.Passing.{each};
ghost use Rattle.mp_flow.specs.Systems.{onward};
ghost use Rattle.mp_flow.specs.Calculating.{worths_of};
ghost use Rattle.mp_num.specs.Operations.{times, plus, num};
ghost use Rattle.mp_verdict.specs.Vector.{value_beside, spread, link_value, link_values, vector_entry, vector_of};
ghost use Rattle.mp_verdict.specs.Stated.{Gives, at_place};
ghost use Rattle.mp_verdict.specs.Laws.{IsNatural};
ghost use Rattle.mp_admit.specs.Spreads.{vector_from, BringSigned};
ghost use Rattle.mp_admit.specs.Scores.{score_of, StandsIn};

use crate::rates::reduce;
use crate::score::Score;
use mp_cert::Against;
use mp_flow::{CalcFault, Flow, Place, adjoint};
use mp_net::{LinkNo, MovementNo, Net};
use mp_num::{Numbers, add, mul};
use std::alloc::{AllocError, Global};

/// The value beside movement `k` in two lists, and 0 where the movement is not there.
#[tactic(auto, using(crate::proofs::SpreadLemmas::seeking))]
fn value_beside(own: &[MovementNo], values: &[i128], k: MovementNo) -> i128
    requires { length values.now ≡ length own.now }
    ensures { result ≡ value_beside own.now values.now k }
{
    for i in 0..own.len() {
        if own[i] == k {
            return values[i];
        }
    }
    0
}

/// The values beside the first so many movements.
#[tactic(auto, using(crate::proofs::SpreadLemmas::spreading))]
fn values_beside(
    alloc: Global,
    own: &[MovementNo],
    values: &[i128],
    count: u16,
) -> Result<Vec<i128>, AllocError>
    requires { length values.now ≡ length own.now }
    ensures { IfOk result (λ v. v.items ≡ map (value_beside own.now values.now) (numbers_to count)) }
{
    let mut all = Vec::new(alloc);
    for k in 0..count {
        all.push(value_beside(own, values, k + 1))?;
    }
    Ok(all)
}

/// The values of the score over all movements, 0 outside its junction.
#[tactic(auto, unfolding(mp_verdict::specs::Vector::spread))]
fn spread(alloc: Global, net: &Net, score: &Score) -> Result<Vec<i128>, AllocError>
    requires { StandsIn net.now score.now }
    ensures { IfOk result (λ v. v.items ≡ spread net.now (score_of score.now)) }
{
    let own = net.own(score.junction);
    values_beside(alloc, own, score.values.as_slice(), net.movements())
}

/// The sum with the share of movement `k` times its value.
#[tactic(auto, using(crate::proofs::SpreadLemmas::adding), unfolding(mp_num::specs::Operations::times, mp_num::specs::Operations::plus))]
fn add_share(net: &Net, values: &[i128], k: MovementNo, sum: i128) -> Option<i128>
    requires known { (1 ≤ k) × (k ≤ length net.now.movements) }
    requires size { length values.now ≡ length net.now.movements }
    ensures { result ≡ plus (Some sum) (times (num (share_of net.now k)) (Some (int_entry values.now k))) }
{
    let value = values[usize::from(k) - 1];
    let term = mul(i128::from(net.movement(k).share), value)?;
    add(sum, term)
}

/// What the values bring to link `l`.
#[tactic(auto, using(crate::proofs::SpreadLemmas::bringing))]
fn link_value(net: &Net, values: &[i128], l: LinkNo) -> Option<i128>
    requires link { (1 ≤ l) × (l ≤ length net.now.links) }
    requires size { length values.now ≡ length net.now.movements }
    ensures { result ≡ link_value net.now values.now l }
{
    let mut sum = 0;
    for k in net.out_of(l) {
        let Some(next) = add_share(net, values, *k, sum) else {
            return None;
        };
        sum = next;
    }
    Some(sum)
}

/// What the values bring to the links.
#[tactic(auto, using(crate::proofs::PushLemmas::filling), unfolding(mp_verdict::specs::Vector::link_values))]
fn link_values(alloc: Global, net: &Net, values: &[i128]) -> Result<Vec<i128>, CalcFault>
    requires { length values.now ≡ length net.now.movements }
    ensures { Gives vec_items result (at_place Place.Adjoint (link_values net.now values.now)) }
{
    let mut row = Vec::new(alloc);
    for l in 0..net.links() {
        let Some(value) = link_value(net, values, l + 1) else {
            return Err(CalcFault::Overflow(Place::Adjoint));
        };
        let Ok(()) = row.push(value) else {
            return Err(CalcFault::NoMemory);
        };
    }
    Ok(row)
}

/// The worth of the link that movement `k` goes to, and 0 outside.
#[tactic(auto, using(crate::proofs::SpreadLemmas::worthing))]
fn onward(net: &Net, worths: &Flow, k: MovementNo) -> i128
    requires network { IsNetwork net.now }
    requires known { (1 ≤ k) × (k ≤ length net.now.movements) }
    requires size { length worths.now.x ≡ length net.now.links }
    ensures { result ≡ onward worths.now.x (to_of net.now k) }
{
    match net.movement(k).to {
        Some(l) => worths.x.as_slice()[usize::from(l) - 1],
        None => 0,
    }
}

/// The number of movement `k` before the vector is reduced.
#[tactic(auto, using(crate::proofs::SpreadLemmas::adding), unfolding(mp_verdict::specs::Vector::vector_entry, mp_num::specs::Operations::times, mp_num::specs::Operations::plus))]
fn vector_entry(net: &Net, values: &[i128], worths: &Flow, k: MovementNo) -> Option<i128>
    requires network { IsNetwork net.now }
    requires known { (1 ≤ k) × (k ≤ length net.now.movements) }
    requires values { length values.now ≡ length net.now.movements }
    requires size { length worths.now.x ≡ length net.now.links }
    ensures { result ≡ vector_entry net.now values.now (worths_of worths.now) k }
{
    let value = values[usize::from(k) - 1];
    add(mul(value, worths.d)?, onward(net, worths, k))
}

/// The numbers of all movements before the vector is reduced.
#[tactic(auto, using(crate::proofs::PushLemmas::filling))]
fn vector_entries(
    alloc: Global,
    net: &Net,
    values: &[i128],
    worths: &Flow,
) -> Result<Vec<i128>, CalcFault>
    requires network { IsNetwork net.now }
    requires values { length values.now ≡ length net.now.movements }
    requires size { length worths.now.x ≡ length net.now.links }
    ensures { Gives vec_items result (at_place Place.Adjoint (each (vector_entry net.now values.now (worths_of worths.now)) (movement_numbers net.now))) }
{
    let mut row = Vec::new(alloc);
    for k in 0..net.movements() {
        let Some(number) = vector_entry(net, values, worths, k + 1) else {
            return Err(CalcFault::Overflow(Place::Adjoint));
        };
        let Ok(()) = row.push(number) else {
            return Err(CalcFault::NoMemory);
        };
    }
    Ok(row)
}

/// The vector of some values: they bring something to the links, from which come the worths.
#[tactic(auto, using(crate::proofs::VectorLemmas::vectors))]
fn vector_by(alloc: Global, net: &Net, values: &[i128]) -> Result<Vec<i128>, CalcFault>
    requires network { IsNetwork net.now }
    requires size { length values.now ≡ length net.now.movements }
    requires brought { BringSigned net.now values.now }
    ensures { Gives vec_items result (at_place Place.Adjoint (vector_from net.now values.now)) }
{
    let u = match link_values(alloc, net, values) {
        Ok(u) => u,
        Err(fault) => return Err(fault),
    };
    let worths = match adjoint(alloc, net, &u) {
        Ok(worths) => worths,
        Err(fault) => return Err(fault),
    };
    match vector_entries(alloc, net, values, &worths) {
        Ok(row) => Ok(reduce(row)),
        Err(fault) => Err(fault),
    }
}

/// The vector that shows the slack of a score.
#[tactic(auto, using(crate::proofs::VectorLemmas::vectors))]
pub fn vector_of(alloc: Global, net: &Net, score: &Score) -> Result<Against, CalcFault>
    requires network { IsNetwork net.now }
    requires stands { StandsIn net.now score.now }
    ensures calculation { Gives (λ a. a.p) result (at_place Place.Adjoint (vector_of net.now (score_of score.now))) }
    ensures natural { IfOk result (λ a. IsNatural net.now a.p) }
{
    let Ok(values) = spread(alloc, net, score) else {
        return Err(CalcFault::NoMemory);
    };
    match vector_by(alloc, net, &values) {
        Ok(numbers) => Ok(Against {
            p: Numbers::new(numbers),
        }),
        Err(fault) => Err(fault),
    }
}
