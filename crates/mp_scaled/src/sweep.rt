//! The sweeps of a trial: rates over a denominator grow from 0 until each movement has what comes to it and an excess beside.
ghost use Rattle.std.specs.Prelude.{◌≡◌, ◌==◌, ◌&&◌, ◌+◌, ◌*◌, ◌≤◌, ◌<◌, ◌^◌, All, false, length, map, nat_lt, sum_by};
ghost use Rattle.mp_model.specs.Network.{entry, flow_of, into_link, link_numbers};
ghost use Rattle.mp_model.specs.NetworkRules.{IsAcceptable};
ghost use Rattle.mp_trial.specs.Sweeps.{brought_to, is_above, is_stable, rounded_up, swept, sweeps_before_last};
ghost use Rattle.mp_scaled.specs.Sweeping.{carried, EndsSweep, IfNotAbove, EndsSweeps};

use mp_net::{LinkNo, MovementNo, Net};

/// The limit of sweeps of a trial.
const SWEEPS: u32 = 131_072;

/// What a sweep comes to.
#[derive(Clone, Copy, PartialEq, Eq, Debug)]
pub enum Swept {
    /// It brings some rate above its flow.
    Above,
    /// It leaves the rates as they are.
    Stable,
    /// It changes some rate, and brings none above its flow.
    Moving,
}

/// The sum of the rates of the movements into the link.
fn joining(net: &Net, rates: &[u64], l: LinkNo) -> u64
    requires acceptable { IsAcceptable net.now }
    requires known { (1 ≤ l) × (l ≤ length net.now.links) }
    requires size { length rates.now ≡ length net.now.movements }
    requires each { All (λ rate. rate ≤ 10 ^ 12) rates.now }
    ensures value { result ≡ sum_by (entry rates.now) (into_link net.now l) }
    ensures few { result ≤ 512 * 10 ^ 12 }
{
    let mut sum = 0;
    for k in net.into_link(l) {
        sum += rates[usize::from(*k) - 1];
    }
    sum
}

/// What comes to the link, in vehicles per rate length.
fn coming(net: &Net, d: u64, rates: &[u64], l: LinkNo) -> u64
    requires acceptable { IsAcceptable net.now }
    requires denominator { d ≤ 10 ^ 9 }
    requires known { (1 ≤ l) × (l ≤ length net.now.links) }
    requires size { length rates.now ≡ length net.now.movements }
    requires each { All (λ rate. rate ≤ 10 ^ 12) rates.now }
    ensures value { result ≡ brought_to net.now d rates.now l }
    ensures few { result ≤ 2 ^ 61 }
{
    d * u64::from(net.link(l).rate) + u64::from(net.per()) * joining(net, rates, l)
}

/// Writes what comes to each link.
#[tactic(auto, using(crate::proofs::Sweeping::bringing))]
fn bring(net: &Net, d: u64, rates: &[u64], brought: &mut [u64])
    requires acceptable { IsAcceptable net.now }
    requires denominator { d ≤ 10 ^ 9 }
    requires size { length rates.now ≡ length net.now.movements }
    requires each { All (λ rate. rate ≤ 10 ^ 12) rates.now }
    requires room { length brought.old ≡ length net.now.links }
    ensures value { brought.new ≡ map (brought_to net.now d rates.now) (link_numbers net.now) }
    ensures few { All (λ b. b ≤ 2 ^ 61) brought.new }
{
    for i in 0..net.links() {
        brought[usize::from(i)] = coming(net, d, rates, i + 1);
    }
}

/// The share of a number with `e` times the unit beside, over the unit and rounded up. The number is divided first, so
/// that nothing exceeds 64 bits.
#[tactic(auto, using(crate::proofs::Rounding::split_round, crate::proofs::Rounding::product_few, crate::proofs::Rounding::quotient_few))]
fn round_up(share: u64, came: u64, unit: u64, e: u64) -> u64
    requires share { (share ≤ 1000) × (share ≤ unit) }
    requires unit { (1 ≤ unit) × (unit ≤ 10 ^ 7) }
    requires few { (came ≤ 2 ^ 61) × (e ≤ 10 ^ 12) }
    ensures { result ≡ rounded_up (share * came + unit * e) unit }
{
    let rest = share * (came % unit);
    e + share * (came / unit) + (rest + (unit - 1)) / unit
}

/// The rate of movement `k` after a sweep.
fn carry(net: &Net, e: u64, brought: &[u64], k: MovementNo) -> u64
    requires acceptable { IsAcceptable net.now }
    requires excess { e ≤ 10 ^ 12 }
    requires known { (1 ≤ k) × (k ≤ length net.now.movements) }
    requires room { length brought.now ≡ length net.now.links }
    requires few { All (λ b. b ≤ 2 ^ 61) brought.now }
    ensures { result ≡ carried net.now e brought.now k }
{
    let unit = u64::from(net.shares()) * u64::from(net.per());
    let movement = net.movement(k);
    let came = brought[usize::from(movement.from) - 1];
    round_up(u64::from(movement.share), came, unit, e)
}

/// Whether the rate is above the flow of movement `k`.
fn is_above_flow(net: &Net, d: u64, k: MovementNo, rate: u64) -> bool
    requires acceptable { IsAcceptable net.now }
    requires denominator { d ≤ 10 ^ 9 }
    requires known { (1 ≤ k) × (k ≤ length net.now.movements) }
    ensures { result ≡ nat_lt (flow_of net.now k * d) rate }
{
    rate > u64::from(net.movement(k).flow) * d
}

/// Whether the rates have stayed so far, and this one stays too.
fn is_kept(stable: bool, before: u64, after: u64) -> bool
    ensures { result ≡ (stable && (after == before)) }
{
    stable && after == before
}

/// Writes the rates after a sweep, up to the first that is above its flow.
#[tactic(auto, using(crate::proofs::Sweeping::settling))]
fn settle(net: &Net, d: u64, e: u64, brought: &[u64], rates: &mut [u64]) -> Swept
    requires acceptable { IsAcceptable net.now }
    requires denominator { d ≤ 10 ^ 9 }
    requires excess { e ≤ 10 ^ 12 }
    requires size { length rates.old ≡ length net.now.movements }
    requires room { length brought.now ≡ length net.now.links }
    requires few { All (λ b. b ≤ 2 ^ 61) brought.now }
    requires value { brought.now ≡ map (brought_to net.now d rates.old) (link_numbers net.now) }
    ensures ends { EndsSweep result (is_above net.now d (swept net.now d e rates.old)) (is_stable net.now d e rates.old) }
    ensures rates { IfNotAbove result (rates.new ≡ swept net.now d e rates.old) }
{
    let mut stable = true;
    for i in 0..net.movements() {
        let rate = carry(net, e, brought, i + 1);
        if is_above_flow(net, d, i + 1, rate) {
            return Swept::Above;
        }
        let at = usize::from(i);
        stable = is_kept(stable, rates[at], rate);
        rates[at] = rate;
    }
    if stable { Swept::Stable } else { Swept::Moving }
}

/// Writes the rates after so many sweeps that the next one leaves them as they are, unless some rate comes above its flow
/// first, or the limit of sweeps does.
#[tactic(auto, using(crate::proofs::Sweeping::sweeping))]
pub fn sweep_all(net: &Net, d: u64, e: u64, rates: &mut [u64], brought: &mut [u64]) -> Swept
    requires acceptable { IsAcceptable net.now }
    requires denominator { d ≤ 10 ^ 9 }
    requires excess { e ≤ 10 ^ 12 }
    requires size { length rates.old ≡ length net.now.movements }
    requires room { length brought.old ≡ length net.now.links }
    ensures { EndsSweeps net.now d e result (sweeps_before_last net.now d e) rates.new }
{
    rates.fill(0);
    for _i in 0..SWEEPS {
        bring(net, d, rates, brought);
        match settle(net, d, e, brought, rates) {
            Swept::Above => return Swept::Above,
            Swept::Stable => return Swept::Stable,
            Swept::Moving => {}
        }
    }
    Swept::Moving
}
