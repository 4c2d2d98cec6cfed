//! The bound of every queue under a slack.
ghost use Rattle.std.specs.Prelude.{◌≡◌, ◌*◌, ◌/◌, ◌+◌, ◌<◌, ◌≤◌, ◌≤ℤ◌, ◌^◌, length, map, max, sum_by, IfOk, IfSome, IfNone, None, pos, ℤ, List, IsTrue, ◌↔◌, All, unsigned_abs};
ghost use Rattle.mp_model.specs.Network.{movement_numbers};
ghost use Rattle.mp_model.specs.Bounds.{credit_term, drift_constant, start_drift, queue_threshold, greatest_drift, queue_bound, IsRoot};
ghost use Rattle.mp_num.specs.Fraction.{Fraction, numerator, denominator};
ghost use Rattle.mp_drift.specs.Constants.{AreConstants};
ghost use Rattle.mp_drift.specs.Stated.{unit_of, credit_sum, greatest_under, stated_greatest, threshold_from, greatest_from};
ghost use Rattle.mp_drift.specs.Bounded.{IsReached, IsFound, HoldsBounds, EndsAs};

use crate::checked::{product, signed, sum};
use crate::numbers::{DriftNumbers, credit_of};
use crate::terms::unit;
use mp_flow::{CalcFault, Place};
use mp_net::Net;
use mp_num::{Frac, Numbers, isqrt};
use std::alloc::{AllocError, Global};

/// The most vehicles of a bound.
const MOST: i128 = 1 << 62;

/// The bound of every queue under a slack.
///
/// `total` is the queue threshold, in vehicles: while more are queued in all, the drift value falls.
/// `vmax` is the greatest drift value, in the square of the share total times the rate length.
/// `bound` is the most vehicles that a movement ever has queued, one per movement in movement order.
#[derive(Drop)]
pub struct QueueBounds {
    pub total: i128,
    pub vmax: i128,
    pub bound: Numbers,
}

/// The size of the drift constant.
fn drift_size(constants: &DriftNumbers) -> u128
    requires { pos 0 ≤ℤ constants.now.b }
    ensures value { result ≡ unsigned_abs constants.now.b }
    ensures fits { result < 2 ^ 127 }
{
    constants.b.unsigned_abs()
}

/// The drift constant, from the constants of the network.
fn drift_of(net: &Net, constants: &DriftNumbers) -> u128
    requires { AreConstants net.now constants.now }
    ensures value { result ≡ drift_constant net.now }
    ensures fits { result < 2 ^ 127 }
{
    drift_size(constants)
}

/// E of a slack E/D above 0.
fn excess_of(slack: &Frac) -> u128
    requires { pos 1 ≤ℤ slack.now.num }
    ensures value { result ≡ numerator slack.now }
    ensures some { 1 ≤ result }
    ensures fits { result < 2 ^ 127 }
{
    slack.num().unsigned_abs()
}

/// D of a slack E/D.
fn denominator_of(slack: &Frac) -> u128
    ensures value { result ≡ denominator slack.now }
    ensures fits { result < 2 ^ 127 }
{
    slack.den().unsigned_abs()
}

/// The sum of the credit-and-burst terms.
#[tactic(auto, using(crate::proofs::Loops::counting))]
fn credit_sum(net: &Net, k: &[i128]) -> u128
    requires { k.now ≡ map (λ k. pos (credit_term net.now k)) (movement_numbers net.now) }
    ensures value { result ≡ credit_sum net.now }
    ensures few { result ≤ 2 ^ 45 }
{
    let mut sum: u128 = 0;
    for number in 0..net.movements() {
        sum += credit_of(net, k, number + 1);
    }
    sum
}

/// The queue threshold under the slack `num` / `den`, or `None` where the calculation exceeds 128 bits.
#[tactic(auto, using(crate::proofs::Fitting::fitting_is), unfolding(crate::specs::Stated::threshold_from))]
fn threshold(factor: u128, drift: u128, num: u128, den: u128) -> Option<u128>
    requires factor { (1 ≤ factor) × (factor < 2 ^ 127) }
    requires drift { drift < 2 ^ 127 }
    requires num { (1 ≤ num) × (num < 2 ^ 127) }
    requires den { den < 2 ^ 127 }
    ensures value { result ≡ threshold_from factor drift num den }
    ensures fits { IfSome result (λ n. n < 2 ^ 127) }
{
    let above = product(den, drift)?;
    let below = product(factor, num)?;
    Some(above / below)
}

/// The greater of two numbers.
fn greater(a: u128, b: u128) -> u128
    ensures { result ≡ max a b }
{
    if a < b { b } else { a }
}

/// The drift value of the start queues.
#[tactic(auto, using(crate::proofs::Loops::counting))]
fn start_drift(net: &Net) -> u128
    ensures value { result ≡ start_drift net.now }
    ensures fits { result < 2 ^ 127 }
{
    let _shares = net.shares();
    let unit = unit(net);
    let mut sum: u128 = 0;
    for k in 0..net.movements() {
        let start = unit * u128::from(net.movement(k + 1).start);
        sum += start * start;
    }
    sum
}

/// The greatest drift value at a threshold, or `None` where the calculation exceeds 128 bits.
#[tactic(auto, using(crate::proofs::Fitting::fitting_is), unfolding(crate::specs::Stated::greatest_from))]
fn greatest(unit: u128, credits: u128, drift: u128, starts: u128, threshold: u128) -> Option<u128>
    requires unit { unit ≤ 3600000 }
    requires credits { credits < 2 ^ 127 }
    requires drift { drift < 2 ^ 127 }
    requires starts { starts < 2 ^ 127 }
    requires threshold { threshold < 2 ^ 127 }
    ensures value { result ≡ greatest_from unit credits drift starts threshold }
    ensures fits { IfSome result (λ n. n < 2 ^ 127) }
{
    let few = product(unit, threshold)?;
    let root = sum(few, credits)?;
    let risen = sum(product(root, root)?, drift)?;
    Some(greater(risen, starts))
}

/// The queue threshold, in vehicles, and the greatest drift value, in the square of the share total times the rate length.
#[derive(Clone, Copy)]
pub struct Reached {
    pub total: u128,
    pub vmax: u128,
}

/// The queue threshold and the greatest drift value under a slack, or `None` where the calculation exceeds 128 bits.
///
/// `k` has the credit-and-burst terms. `drift` is the drift constant, and `factor` times the slack is how fast the
/// drift value falls for each vehicle.
#[tactic(auto, using(crate::proofs::Finding::reached))]
pub fn greatest_under(
    net: &Net,
    k: &[i128],
    drift: u128,
    factor: u128,
    slack: &Frac,
) -> Option<Reached>
    requires credits { k.now ≡ map (λ k. pos (credit_term net.now k)) (movement_numbers net.now) }
    requires drift { drift < 2 ^ 127 }
    requires factor { (1 ≤ factor) × (factor < 2 ^ 127) }
    requires above { pos 1 ≤ℤ slack.now.num }
    ensures found { IfSome result (λ g. IsReached net.now factor drift (numerator slack.now) (denominator slack.now) g.total g.vmax) }
    ensures fits { IfSome result (λ g. (g.total < 2 ^ 127) × (g.vmax < 2 ^ 127)) }
    ensures none { IfNone result (greatest_under net.now factor drift (numerator slack.now) (denominator slack.now) ≡ None) }
{
    let unit = unit(net);
    let credits = credit_sum(net, k);
    let total = threshold(factor, drift, excess_of(slack), denominator_of(slack))?;
    let vmax = greatest(unit, credits, drift, start_drift(net), total)?;
    Some(Reached { total, vmax })
}

/// The queue threshold and the greatest drift value by the constants of the network.
#[tactic(auto, using(crate::proofs::Finding::found))]
fn greatest_of(net: &Net, constants: &DriftNumbers, slack: &Frac) -> Option<Reached>
    requires constants { AreConstants net.now constants.now }
    requires above { pos 1 ≤ℤ slack.now.num }
    ensures found { IfSome result (λ g. IsFound net.now (numerator slack.now) (denominator slack.now) g.total g.vmax) }
    ensures fits { IfSome result (λ g. (g.total < 2 ^ 127) × (g.vmax < 2 ^ 127)) }
    ensures none { IfNone result (stated_greatest net.now (numerator slack.now) (denominator slack.now) ≡ None) }
{
    let unit = unit(net);
    let drift = drift_of(net, constants);
    let k = constants.k.as_slice();
    greatest_under(net, k, drift, 2 * (unit * unit), slack)
}

/// The bounds, one per movement in movement order, where `root` is the whole root of the greatest drift value.
#[tactic(auto, using(crate::proofs::Loops::listing))]
fn bound_list(alloc: Global, net: &Net, k: &[i128], root: u128) -> Result<Vec<i128>, AllocError>
    requires terms { k.now ≡ map (λ k. pos (credit_term net.now k)) (movement_numbers net.now) }
    requires root { root ≤ 2 ^ 64 }
    ensures { IfOk result (λ bounds. bounds.items ≡ map (λ k. pos (queue_bound net.now root k)) (movement_numbers net.now)) }
{
    let unit = unit(net);
    let mut bounds = Vec::new(alloc);
    for number in 0..net.movements() {
        bounds.push(((root + credit_of(net, k, number + 1)) / unit) as i128)?;
    }
    Ok(bounds)
}

/// Whether each bound is at most 2^62.
pub fn has_room(bounds: &[i128]) -> bool
    ensures { IsTrue result ↔ All (λ b. b ≤ℤ pos (2 ^ 62)) bounds.now }
{
    bounds.iter().all(|bound| *bound <= MOST)
}

/// The bound of every queue under a slack above 0, from the constants of the network.
///
/// `Overflow(Place::Bound)` comes exactly where the stated calculation exceeds 128 bits, and `Overflow(Place::Room)` exactly where it doesn't and a bound is above 2^62.
pub fn bounds(
    alloc: Global,
    net: &Net,
    constants: &DriftNumbers,
    slack: &Frac,
) -> Result<QueueBounds, CalcFault>
    requires constants { AreConstants net.now constants.now }
    requires above { pos 1 ≤ℤ slack.now.num }
    ensures total { IfOk result (λ found. found.total ≡ pos (queue_threshold net.now (numerator slack.now) (denominator slack.now))) }
    ensures greatest { IfOk result (λ found. found.vmax ≡ pos (greatest_drift net.now (numerator slack.now) (denominator slack.now))) }
    ensures bounds { IfOk result (λ found. HoldsBounds net.now (numerator slack.now) (denominator slack.now) found.bound) }
    ensures calculation { EndsAs net.now (numerator slack.now) (denominator slack.now) result }
{
    let Some(found) = greatest_of(net, constants, slack) else {
        return Err(CalcFault::Overflow(Place::Bound));
    };
    let k = constants.k.as_slice();
    let Ok(bound) = bound_list(alloc, net, k, isqrt(found.vmax)) else {
        return Err(CalcFault::NoMemory);
    };
    if !has_room(&bound) {
        return Err(CalcFault::Overflow(Place::Room));
    }
    Ok(QueueBounds {
        total: signed(found.total),
        vmax: signed(found.vmax),
        bound: Numbers::new(bound),
    })
}
