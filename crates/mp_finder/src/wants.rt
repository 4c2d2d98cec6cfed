//! What the movements want of a cycle.
ghost use Rattle.std.specs.Prelude.{◌≡◌, ◌≤◌, ◌<◌, ◌^◌, All, IfOk, length};
ghost use Rattle.mp_model.specs.NetworkRules.{IsAcceptable};
ghost use Rattle.mp_trial.specs.Sweeps.{rounded_up};
ghost use Rattle.mp_finder.specs.Greens.{all_wanted, wanted};

use mp_guard::greens::is_always_green;
use mp_net::{MovementNo, Net};
use std::alloc::{AllocError, Global};

/// The first number over the second, rounded up.
pub fn round_up(over: u128, under: u128) -> u128
    requires under { (1 ≤ under) × (under ≤ 2 ^ 127) }
    requires over { over ≤ 2 ^ 127 }
    ensures { result ≡ rounded_up over under }
{
    (over + (under - 1)) / under
}

/// What the movement wants of a cycle.
fn want(net: &Net, cycle: u32, d: u32, rates: &[u128], k: MovementNo) -> u128
    requires acceptable { IsAcceptable net.now }
    requires cycle { cycle ≤ 3600 }
    requires denominator { (1 ≤ d) × (d < 10 ^ 9) }
    requires size { length rates.now ≡ length net.now.movements }
    requires few { All (λ rate. rate ≤ 10 ^ 12) rates.now }
    requires movement { (1 ≤ k) × (k ≤ length net.now.movements) }
    ensures value { result ≡ wanted net.now cycle d rates.now k }
    ensures few { result ≤ 10 ^ 20 }
{
    let movement = net.movement(k);
    if is_always_green(net, net.junction_of(movement.from), k) {
        return 0;
    }
    let over = u128::from(cycle) * rates[usize::from(k) - 1];
    round_up(over, u128::from(d) * u128::from(movement.flow)).max(1)
}

/// What all movements want of a cycle.
#[tactic(auto, using(crate::proofs::Lists::mapping))]
pub fn all_wants(
    alloc: Global,
    net: &Net,
    cycle: u32,
    d: u32,
    rates: &[u128],
) -> Result<Vec<u128>, AllocError>
    requires acceptable { IsAcceptable net.now }
    requires cycle { cycle ≤ 3600 }
    requires denominator { (1 ≤ d) × (d < 10 ^ 9) }
    requires size { length rates.now ≡ length net.now.movements }
    requires few { All (λ rate. rate ≤ 10 ^ 12) rates.now }
    ensures wants { IfOk result (λ wants. wants.items ≡ all_wanted net.now cycle d rates.now) }
    ensures size { IfOk result (λ wants. length wants.items ≡ length net.now.movements) }
    ensures few { IfOk result (λ wants. All (λ n. n ≤ 10 ^ 20) wants.items) }
{
    let mut wants = Vec::new(alloc);
    for i in 0..net.movements() {
        wants.push(want(net, cycle, d, rates, i + 1))?;
    }
    Ok(wants)
}
