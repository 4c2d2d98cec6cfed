//! The rules of a certificate: each compares two calculations, and has no answer where one of them exceeds 128 bits.
ghost use Rattle.std.specs.Prelude.{◌≡◌, ◌≤◌, ◌*◌, pos, length, Some};
ghost use Rattle.mp_model.specs.Network.{junction_at};
ghost use Rattle.mp_model.specs.NetworkRules.{IsAcceptable};
ghost use Rattle.mp_model.specs.Certificate.{int_entry, rate_of, mix_at, HasLengths};
ghost use Rattle.mp_num.specs.Operations.{summed};
ghost use Rattle.mp_cert.specs.Rules.{at_least, mass_holds, part_added, parts_for, served_at, serve_holds, inflow, coming, need, balance_holds};
ghost use Rattle.mp_cert.specs.Views.{mix_of, cert_of};

use crate::places::{from, junction_of};
use crate::{Cert, Mix};
use mp_net::{JunctionNo, MovementNo, Net, StageNo};
use mp_num::{add, mul};

/// The rate of the movement.
pub fn rate(cert: &Cert, k: MovementNo) -> i128
    requires { (1 ≤ k) × (k ≤ length cert.now.h) }
    ensures { result ≡ rate_of (cert_of cert.now) k }
{
    cert.h.as_slice()[usize::from(k) - 1]
}

/// The mix of the junction.
pub fn mix_at(cert: &Cert, j: JunctionNo) -> &Mix
    requires { (1 ≤ j) × (j ≤ length cert.now.mix) }
    ensures mix { mix_of result.now ≡ mix_at (cert_of cert.now) j }
    ensures whole { result.now.whole ≡ (mix_at (cert_of cert.now) j).whole }
    ensures parts { result.now.parts ≡ (mix_at (cert_of cert.now) j).parts }
{
    &cert.mix.as_slice()[usize::from(j) - 1]
}

/// The sum of the numbers.
#[tactic(auto, using(crate::proofs::RunLemmas::running), unfolding(mp_num::specs::Operations::plus))]
fn sum_of(numbers: &[i128]) -> Option<i128>
    ensures { result ≡ summed (λ part. Some part) numbers.now }
{
    let mut sum = 0;
    for number in numbers {
        let Some(next) = add(sum, *number) else {
            return None;
        };
        sum = next;
    }
    Some(sum)
}

/// Whether the parts of the junction sum to at most its whole times the denominator.
#[tactic(auto, using(crate::proofs::RunLemmas::terms), unfolding(mp_num::specs::Operations::times, crate::specs::Rules::at_most, crate::specs::Rules::mass_holds))]
pub fn mass_holds(cert: &Cert, j: JunctionNo) -> Option<bool>
    requires { (1 ≤ j) × (j ≤ length cert.now.mix) }
    ensures { result ≡ mass_holds (cert_of cert.now) j }
{
    let mix = mix_at(cert, j);
    let sum = sum_of(mix.parts.as_slice())?;
    let most = mul(mix.whole, cert.d)?;
    Some(sum <= most)
}

/// The part of stage `s` of the junction.
pub fn part(net: &Net, cert: &Cert, j: JunctionNo, s: StageNo) -> i128
    requires lengths { HasLengths net.now (cert_of cert.now) }
    requires junction { (1 ≤ j) × (j ≤ length net.now.junctions) }
    requires stage { (1 ≤ s) × (s ≤ length (junction_at net.now j).stages) }
    ensures { result ≡ int_entry (mix_at (cert_of cert.now) j).parts s }
{
    mix_at(cert, j).parts.as_slice()[usize::from(s) - 1]
}

/// The sum with the part of stage `s` of the junction, where the stage holds the movement.
#[tactic(auto, using(crate::proofs::RunLemmas::terms), unfolding(mp_num::specs::Operations::plus, crate::specs::Rules::part_added))]
fn add_part(
    net: &Net,
    cert: &Cert,
    j: JunctionNo,
    k: MovementNo,
    sum: i128,
    s: StageNo,
) -> Option<i128>
    requires lengths { HasLengths net.now (cert_of cert.now) }
    requires junction { (1 ≤ j) × (j ≤ length net.now.junctions) }
    requires stage { (1 ≤ s) × (s ≤ length (junction_at net.now j).stages) }
    ensures { result ≡ part_added net.now (cert_of cert.now) j k sum s }
{
    let part = part(net, cert, j, s);
    if net.stage(j, s).contains(&k) {
        add(sum, part)
    } else {
        Some(sum)
    }
}

/// The sum of the parts of the junction's stages that hold the movement.
#[tactic(auto, using(crate::proofs::RunLemmas::counting), unfolding(crate::specs::Rules::parts_for))]
fn parts_for(net: &Net, cert: &Cert, j: JunctionNo, k: MovementNo) -> Option<i128>
    requires lengths { HasLengths net.now (cert_of cert.now) }
    requires junction { (1 ≤ j) × (j ≤ length net.now.junctions) }
    ensures { result ≡ parts_for net.now (cert_of cert.now) j k }
{
    let mut sum = 0;
    for s in 0..net.stages(j) {
        let Some(next) = add_part(net, cert, j, k, sum, s + 1) else {
            return None;
        };
        sum = next;
    }
    Some(sum)
}

/// Whether the parts of the junction's stages that hold the movement serve its rate.
#[tactic(auto, using(crate::proofs::RunLemmas::terms), unfolding(mp_num::specs::Operations::times, crate::specs::Rules::at_most, crate::specs::Rules::served_at))]
fn served_at(net: &Net, cert: &Cert, j: JunctionNo, k: MovementNo) -> Option<bool>
    requires lengths { HasLengths net.now (cert_of cert.now) }
    requires junction { (1 ≤ j) × (j ≤ length net.now.junctions) }
    requires movement { (1 ≤ k) × (k ≤ length net.now.movements) }
    ensures { result ≡ served_at net.now (cert_of cert.now) j k }
{
    let needed = mul(mix_at(cert, j).whole, rate(cert, k))?;
    let parts = parts_for(net, cert, j, k)?;
    let given = mul(i128::from(net.movement(k).flow), parts)?;
    Some(needed <= given)
}

/// Whether the movement is served at its junction.
pub fn serve_holds(net: &Net, cert: &Cert, k: MovementNo) -> Option<bool>
    requires acceptable { IsAcceptable net.now }
    requires lengths { HasLengths net.now (cert_of cert.now) }
    requires movement { (1 ≤ k) × (k ≤ length net.now.movements) }
    ensures { result ≡ serve_holds net.now (cert_of cert.now) k }
{
    served_at(net, cert, junction_of(net, k), k)
}

/// The sum of the rates of the movements into the link that the movement leaves.
#[tactic(auto, using(crate::proofs::RunLemmas::running), unfolding(mp_num::specs::Operations::plus, crate::specs::Rules::inflow))]
fn inflow(net: &Net, cert: &Cert, k: MovementNo) -> Option<i128>
    requires acceptable { IsAcceptable net.now }
    requires lengths { HasLengths net.now (cert_of cert.now) }
    requires movement { (1 ≤ k) × (k ≤ length net.now.movements) }
    ensures { result ≡ inflow net.now (cert_of cert.now) k }
{
    let mut sum = 0;
    for j in net.into_link(from(net, k)) {
        let Some(next) = add(sum, rate(cert, *j)) else {
            return None;
        };
        sum = next;
    }
    Some(sum)
}

/// What comes to the link that the movement leaves.
#[tactic(auto, using(crate::proofs::RunLemmas::terms), unfolding(mp_num::specs::Operations::times, mp_num::specs::Operations::plus, crate::specs::Rules::coming))]
fn coming(net: &Net, cert: &Cert, k: MovementNo) -> Option<i128>
    requires acceptable { IsAcceptable net.now }
    requires lengths { HasLengths net.now (cert_of cert.now) }
    requires movement { (1 ≤ k) × (k ≤ length net.now.movements) }
    ensures { result ≡ coming net.now (cert_of cert.now) k }
{
    let rates = mul(cert.d, i128::from(net.link(from(net, k)).rate))?;
    let passed = mul(i128::from(net.per()), inflow(net, cert, k)?)?;
    add(rates, passed)
}

/// The share total times the rate length.
fn scale(net: &Net) -> i128
    ensures { result ≡ pos (net.now.shares * net.now.per) }
{
    i128::from(net.shares()) * i128::from(net.per())
}

/// What the movement needs: its share of what comes, and the excess.
#[tactic(auto, using(crate::proofs::RunLemmas::terms), unfolding(mp_num::specs::Operations::times, mp_num::specs::Operations::plus, crate::specs::Rules::need))]
fn need(net: &Net, cert: &Cert, k: MovementNo) -> Option<i128>
    requires acceptable { IsAcceptable net.now }
    requires lengths { HasLengths net.now (cert_of cert.now) }
    requires movement { (1 ≤ k) × (k ≤ length net.now.movements) }
    ensures { result ≡ need net.now (cert_of cert.now) k }
{
    let share = mul(i128::from(net.movement(k).share), coming(net, cert, k)?)?;
    let excess = mul(scale(net), cert.e)?;
    add(share, excess)
}

/// Whether the movement's rate is at least what it needs.
#[tactic(auto, using(crate::proofs::RunLemmas::terms), unfolding(mp_num::specs::Operations::times, crate::specs::Rules::at_most, crate::specs::Rules::balance_holds))]
pub fn balance_holds(net: &Net, cert: &Cert, k: MovementNo) -> Option<bool>
    requires acceptable { IsAcceptable net.now }
    requires lengths { HasLengths net.now (cert_of cert.now) }
    requires movement { (1 ≤ k) × (k ≤ length net.now.movements) }
    ensures { result ≡ balance_holds net.now (cert_of cert.now) k }
{
    let needed = need(net, cert, k)?;
    let given = mul(scale(net), rate(cert, k))?;
    Some(needed <= given)
}
