//! The bound of every queue by frames, under a slack of the frame network.
ghost use Rattle.std.specs.Prelude.{◌≡◌, ◌+◌, ◌-◌, ◌*◌, ◌/◌, ◌<◌, ◌≤◌, ◌≤ℤ◌, ◌^◌, length, map, sum_by, IfOk, IfSome, IfNone, None, pos};
ghost use Rattle.mp_model.specs.Network.{movement_numbers, flow_of};
ghost use Rattle.mp_model.specs.Bounds.{credit_term, step_term};
ghost use Rattle.mp_model.specs.Frames.{frame_constant, frame_threshold, greatest_frame_drift, frame_bound};
ghost use Rattle.mp_num.specs.Fraction.{numerator, denominator};
ghost use Rattle.mp_drift.specs.Constants.{AreConstants};
ghost use Rattle.mp_frame.specs.FrameBounds.{frame_factor, stated_frame_greatest, IsFrameFound, HoldsFrameBounds, EndsAsFrames};

use mp_drift::{
    DriftNumbers, QueueBounds, Reached, constants, credit_of, greatest_under, has_room, products,
    signed, squares, step_of, unit,
};
use mp_flow::{CalcFault, Place};
use mp_net::{MovementNo, Net};
use mp_num::{Frac, Numbers, isqrt};
use std::alloc::{AllocError, Global};

/// The sum of the quarters of the squares of what the flows pass in f − 1 periods, each rounded down.
#[tactic(auto, using(mp_drift::proofs::Loops::counting))]
fn quarters(net: &Net, f: u32) -> u128
    requires { (2 ≤ f) × (f ≤ 60) }
    ensures value { result ≡ sum_by (λ k. (f - 1) * flow_of net.now k * ((f - 1) * flow_of net.now k) / 4) (movement_numbers net.now) }
    ensures few { result ≤ 2 ^ 39 }
{
    let _shares = net.shares();
    let mut sum: u128 = 0;
    for k in 0..net.movements() {
        let passed = u128::from(f - 1) * u128::from(net.movement(k + 1).flow);
        sum += passed * passed / 4;
    }
    sum
}

/// The drift constant of a frame, from both lists of terms.
fn frame_constant(net: &Net, f: u32, k: &[i128], m: &[i128]) -> u128
    requires f { (2 ≤ f) × (f ≤ 60) }
    requires credits { k.now ≡ map (λ k. pos (credit_term net.now k)) (movement_numbers net.now) }
    requires steps { m.now ≡ map (λ k. pos (step_term net.now k)) (movement_numbers net.now) }
    ensures value { result ≡ frame_constant net.now f }
    ensures few { result < 2 ^ 104 }
{
    let unit = unit(net);
    let periods = u128::from(f);
    2 * (unit * unit) * quarters(net, f)
        + 2 * periods * products(net, k, m)
        + periods * periods * squares(net, m)
}

/// The factor of frames, by which a slack says how fast the drift value falls for each vehicle.
fn frame_factor(net: &Net, f: u32) -> u128
    requires { (2 ≤ f) × (f ≤ 60) }
    ensures value { result ≡ frame_factor net.now f }
    ensures some { 1 ≤ result }
    ensures few { result < 2 ^ 51 }
{
    let unit = unit(net);
    2 * (unit * unit) * u128::from(f - 1)
}

/// The queue threshold and the greatest drift value of frames by the constants of the network.
#[tactic(auto, using(crate::proofs::Bounding::found))]
fn greatest_of(net: &Net, f: u32, constants: &DriftNumbers, slack: &Frac) -> Option<Reached>
    requires f { (2 ≤ f) × (f ≤ 60) }
    requires constants { AreConstants net.now constants.now }
    requires above { pos 1 ≤ℤ slack.now.num }
    ensures found { IfSome result (λ g. IsFrameFound net.now f (numerator slack.now) (denominator slack.now) g.total g.vmax) }
    ensures fits { IfSome result (λ g. (g.total < 2 ^ 127) × (g.vmax < 2 ^ 127)) }
    ensures none { IfNone result (stated_frame_greatest net.now f (numerator slack.now) (denominator slack.now) ≡ None) }
{
    let k = constants.k.as_slice();
    let drift = frame_constant(net, f, k, constants.m.as_slice());
    greatest_under(net, k, drift, frame_factor(net, f), slack)
}

/// The bound of movement `number`, where `root` is the whole root of the greatest drift value.
fn bound_of(net: &Net, f: u32, k: &[i128], m: &[i128], root: u128, number: MovementNo) -> i128
    requires f { (2 ≤ f) × (f ≤ 60) }
    requires known { (1 ≤ number) × (number ≤ length net.now.movements) }
    requires credits { k.now ≡ map (λ k. pos (credit_term net.now k)) (movement_numbers net.now) }
    requires steps { m.now ≡ map (λ k. pos (step_term net.now k)) (movement_numbers net.now) }
    requires root { root ≤ 2 ^ 64 }
    ensures { result ≡ pos (frame_bound net.now f root number) }
{
    let steps = u128::from(f - 1) * step_of(net, m, number);
    signed((root + credit_of(net, k, number) + steps) / unit(net))
}

/// The bounds, one per movement in movement order, where `root` is the whole root of the greatest drift value.
#[tactic(auto, using(mp_drift::proofs::Loops::listing))]
fn bound_list(
    alloc: Global,
    net: &Net,
    f: u32,
    constants: &DriftNumbers,
    root: u128,
) -> Result<Vec<i128>, AllocError>
    requires f { (2 ≤ f) × (f ≤ 60) }
    requires constants { AreConstants net.now constants.now }
    requires root { root ≤ 2 ^ 64 }
    ensures { IfOk result (λ bounds. bounds.items ≡ map (λ k. pos (frame_bound net.now f root k)) (movement_numbers net.now)) }
{
    let k = constants.k.as_slice();
    let m = constants.m.as_slice();
    let mut bounds = Vec::new(alloc);
    for number in 0..net.movements() {
        bounds.push(bound_of(net, f, k, m, root, number + 1))?;
    }
    Ok(bounds)
}

/// The bound of every queue by frames of `f` periods, under a slack above 0 of the frame network.
///
/// In the result `total` is the queue threshold, in vehicles, and `vmax` the greatest drift value at the beginning of
/// a frame. `bound` is the most vehicles that a movement ever has queued, within a frame too, one per movement in
/// movement order. `Overflow(Place::Bound)` comes exactly where the stated calculation exceeds 128 bits, and
/// `Overflow(Place::Room)` exactly where it doesn't and a bound is above 2^62. `NoMemory` says nothing of the network.
pub fn frame_bounds(
    alloc: Global,
    net: &Net,
    f: u32,
    slack: &Frac,
) -> Result<QueueBounds, CalcFault>
    requires f { (2 ≤ f) × (f ≤ 60) }
    requires above { pos 1 ≤ℤ slack.now.num }
    ensures total { IfOk result (λ found. found.total ≡ pos (frame_threshold net.now f (numerator slack.now) (denominator slack.now))) }
    ensures greatest { IfOk result (λ found. found.vmax ≡ pos (greatest_frame_drift net.now f (numerator slack.now) (denominator slack.now))) }
    ensures bounds { IfOk result (λ found. HoldsFrameBounds net.now f (numerator slack.now) (denominator slack.now) found.bound) }
    ensures calculation { EndsAsFrames net.now f (numerator slack.now) (denominator slack.now) result }
{
    let Ok(constants) = constants(alloc, net) else {
        return Err(CalcFault::NoMemory);
    };
    let Some(found) = greatest_of(net, f, &constants, slack) else {
        return Err(CalcFault::Overflow(Place::Bound));
    };
    let Ok(bound) = bound_list(alloc, net, f, &constants, isqrt(found.vmax)) else {
        return Err(CalcFault::NoMemory);
    };
    if !has_room(&bound) {
        return Err(CalcFault::Overflow(Place::Room));
    }
    Ok(QueueBounds {
        total: signed(found.total),
        vmax: signed(found.vmax),
        bound: Numbers::new(bound),
    })
}
