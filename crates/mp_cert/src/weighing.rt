//! The two sums of a vector against a network.
ghost use Rattle.std.specs.Prelude.{◌≡◌, ◌≤◌, ◌*◌, ◌≤ℤ◌, pos, length, All, IfOk};
ghost use Rattle.mp_model.specs.Network.{junction_at, junction_numbers, stage_at, out_of, entry};
ghost use Rattle.mp_model.specs.NetworkRules.{IsAcceptable};
ghost use Rattle.mp_model.specs.Certificate.{int_entry};
ghost use Rattle.mp_model.specs.Load.{load, capacity};
ghost use Rattle.mp_num.specs.Operations.{added, summed};
ghost use Rattle.mp_cert.specs.Weighing.{brought, load_formed, counted, behind_formed, weight_formed, press_added, pressed, pressure_formed, stage_taken, junction_formed, served_formed, weighed, WeighsTo};
ghost use Rattle.mp_cert.specs.Views.{vector_of};

use crate::places::{from, target};
use crate::{Against, Overflow, Weighed};
use mp_net::{JunctionNo, LinkNo, MovementNo, Net, StageNo};
use mp_num::{add, mul, sub};

/// The number of the movement.
fn number(p: &[i128], k: MovementNo) -> i128
    requires { (1 ≤ k) × (k ≤ length p.now) }
    ensures { result ≡ int_entry p.now k }
{
    p[usize::from(k) - 1]
}

/// What the movement brings.
#[tactic(auto, using(crate::proofs::RunLemmas::terms), unfolding(mp_num::specs::Operations::times, crate::specs::Weighing::brought))]
fn brought(net: &Net, p: &[i128], k: MovementNo) -> Option<i128>
    requires acceptable { IsAcceptable net.now }
    requires lengths { length p.now ≡ length net.now.movements }
    requires movement { (1 ≤ k) × (k ≤ length net.now.movements) }
    ensures { result ≡ brought net.now p.now k }
{
    let shared = mul(number(p, k), i128::from(net.movement(k).share))?;
    mul(shared, i128::from(net.link(from(net, k)).rate))
}

/// The sum with what the movement brings.
#[tactic(auto, using(crate::proofs::RunLemmas::terms), unfolding(mp_num::specs::Operations::plus))]
fn add_brought(net: &Net, p: &[i128], sum: i128, k: MovementNo) -> Option<i128>
    requires acceptable { IsAcceptable net.now }
    requires lengths { length p.now ≡ length net.now.movements }
    requires movement { (1 ≤ k) × (k ≤ length net.now.movements) }
    ensures { result ≡ added (brought net.now p.now) sum k }
{
    add(sum, brought(net, p, k)?)
}

/// The load: the sum of what the movements bring.
#[tactic(auto, using(crate::proofs::RunLemmas::counting), unfolding(mp_num::specs::Operations::summed, crate::specs::Weighing::load_formed))]
fn load(net: &Net, p: &[i128]) -> Option<i128>
    requires acceptable { IsAcceptable net.now }
    requires lengths { length p.now ≡ length net.now.movements }
    ensures { result ≡ load_formed net.now p.now }
{
    let mut sum = 0;
    for k in 0..net.movements() {
        let Some(next) = add_brought(net, p, sum, k + 1) else {
            return None;
        };
        sum = next;
    }
    Some(sum)
}

/// The sum with what the movement counts behind others.
#[tactic(auto, using(crate::proofs::RunLemmas::terms), unfolding(mp_num::specs::Operations::times, mp_num::specs::Operations::plus, crate::specs::Weighing::counted))]
fn add_counted(net: &Net, p: &[i128], sum: i128, j: MovementNo) -> Option<i128>
    requires lengths { length p.now ≡ length net.now.movements }
    requires movement { (1 ≤ j) × (j ≤ length net.now.movements) }
    ensures { result ≡ added (counted net.now p.now) sum j }
{
    add(sum, mul(i128::from(net.movement(j).share), number(p, j))?)
}

/// What the movements out of the link count behind others.
#[tactic(auto, using(crate::proofs::RunLemmas::running))]
fn counted_on(net: &Net, p: &[i128], l: LinkNo) -> Option<i128>
    requires lengths { length p.now ≡ length net.now.movements }
    requires link { (1 ≤ l) × (l ≤ length net.now.links) }
    ensures { result ≡ summed (counted net.now p.now) (out_of net.now l) }
{
    let mut sum = 0;
    for j in net.out_of(l) {
        let Some(next) = add_counted(net, p, sum, *j) else {
            return None;
        };
        sum = next;
    }
    Some(sum)
}

/// What is counted behind the movement, and nothing outside.
fn behind(net: &Net, p: &[i128], k: MovementNo) -> Option<i128>
    requires acceptable { IsAcceptable net.now }
    requires lengths { length p.now ≡ length net.now.movements }
    requires movement { (1 ≤ k) × (k ≤ length net.now.movements) }
    ensures { result ≡ behind_formed net.now p.now k }
{
    match target(net, k) {
        None => Some(0),
        Some(l) => counted_on(net, p, l),
    }
}

/// The weight of the movement, with the vector in place of the queues.
#[tactic(auto, using(crate::proofs::RunLemmas::terms), unfolding(mp_num::specs::Operations::times, mp_num::specs::Operations::less, crate::specs::Weighing::weight_formed))]
fn weight(net: &Net, p: &[i128], k: MovementNo) -> Option<i128>
    requires acceptable { IsAcceptable net.now }
    requires lengths { length p.now ≡ length net.now.movements }
    requires movement { (1 ≤ k) × (k ≤ length net.now.movements) }
    ensures { result ≡ weight_formed net.now p.now k }
{
    let own = mul(i128::from(net.shares()), number(p, k))?;
    sub(own, behind(net, p, k)?)
}

/// The sum with the movement's flow times its weight, where the weight is above 0.
#[tactic(auto, using(crate::proofs::RunLemmas::terms), unfolding(mp_num::specs::Operations::times, mp_num::specs::Operations::plus, crate::specs::Weighing::press_added))]
fn add_press(net: &Net, k: MovementNo, sum: i128, weight: i128) -> Option<i128>
    requires { (1 ≤ k) × (k ≤ length net.now.movements) }
    ensures { result ≡ press_added net.now k sum weight }
{
    if weight > 0 {
        add(sum, mul(i128::from(net.movement(k).flow), weight)?)
    } else {
        Some(sum)
    }
}

/// The sum with the movement of a stage.
#[tactic(auto, using(crate::proofs::RunLemmas::terms), unfolding(crate::specs::Weighing::pressed))]
fn add_pressed(net: &Net, p: &[i128], sum: i128, k: MovementNo) -> Option<i128>
    requires acceptable { IsAcceptable net.now }
    requires lengths { length p.now ≡ length net.now.movements }
    requires movement { (1 ≤ k) × (k ≤ length net.now.movements) }
    ensures { result ≡ pressed net.now p.now sum k }
{
    let weight = weight(net, p, k)?;
    add_press(net, k, sum, weight)
}

/// The pressure of the stage, with the vector in place of the queues.
#[tactic(auto, using(crate::proofs::RunLemmas::running), unfolding(crate::specs::Weighing::pressure_formed))]
fn pressure(net: &Net, p: &[i128], j: JunctionNo, s: StageNo) -> Option<i128>
    requires acceptable { IsAcceptable net.now }
    requires lengths { length p.now ≡ length net.now.movements }
    requires junction { (1 ≤ j) × (j ≤ length net.now.junctions) }
    requires stage { (1 ≤ s) × (s ≤ length (junction_at net.now j).stages) }
    ensures { result ≡ pressure_formed net.now p.now (stage_at (junction_at net.now j) s) }
{
    let mut sum = 0;
    for k in net.stage(j, s) {
        let Some(next) = add_pressed(net, p, sum, *k) else {
            return None;
        };
        sum = next;
    }
    Some(sum)
}

/// The greatest pressure so far, with the stage.
#[tactic(auto, using(crate::proofs::RunLemmas::terms), unfolding(crate::specs::Weighing::stage_taken))]
fn take_stage(net: &Net, p: &[i128], j: JunctionNo, most: i128, s: StageNo) -> Option<i128>
    requires acceptable { IsAcceptable net.now }
    requires lengths { length p.now ≡ length net.now.movements }
    requires junction { (1 ≤ j) × (j ≤ length net.now.junctions) }
    requires stage { (1 ≤ s) × (s ≤ length (junction_at net.now j).stages) }
    ensures { result ≡ stage_taken net.now p.now j most s }
{
    let here = pressure(net, p, j, s)?;
    Some(if most < here { here } else { most })
}

/// The capacity of the junction: the greatest pressure of its stages.
#[tactic(auto, using(crate::proofs::RunLemmas::counting), unfolding(crate::specs::Weighing::junction_formed))]
fn capacity_at(net: &Net, p: &[i128], j: JunctionNo) -> Option<i128>
    requires acceptable { IsAcceptable net.now }
    requires lengths { length p.now ≡ length net.now.movements }
    requires junction { (1 ≤ j) × (j ≤ length net.now.junctions) }
    ensures { result ≡ junction_formed net.now p.now j }
{
    let mut most = 0;
    for s in 0..net.stages(j) {
        let Some(next) = take_stage(net, p, j, most, s + 1) else {
            return None;
        };
        most = next;
    }
    Some(most)
}

/// The sum with the capacity of the junction.
#[tactic(auto, using(crate::proofs::RunLemmas::terms), unfolding(mp_num::specs::Operations::plus))]
fn add_capacity(net: &Net, p: &[i128], sum: i128, j: JunctionNo) -> Option<i128>
    requires acceptable { IsAcceptable net.now }
    requires lengths { length p.now ≡ length net.now.movements }
    requires junction { (1 ≤ j) × (j ≤ length net.now.junctions) }
    ensures { result ≡ added (junction_formed net.now p.now) sum j }
{
    add(sum, capacity_at(net, p, j)?)
}

/// The sum of the capacities of the junctions.
#[tactic(auto, using(crate::proofs::RunLemmas::counting), unfolding(mp_num::specs::Operations::summed))]
fn capacity(net: &Net, p: &[i128]) -> Option<i128>
    requires acceptable { IsAcceptable net.now }
    requires lengths { length p.now ≡ length net.now.movements }
    ensures { result ≡ summed (junction_formed net.now p.now) (junction_numbers net.now) }
{
    let mut sum = 0;
    for j in 0..net.junctions() {
        let Some(next) = add_capacity(net, p, sum, j + 1) else {
            return None;
        };
        sum = next;
    }
    Some(sum)
}

/// What the junctions serve: their capacities times the rate length.
#[tactic(auto, using(crate::proofs::RunLemmas::terms), unfolding(mp_num::specs::Operations::times, crate::specs::Weighing::served_formed))]
fn served(net: &Net, p: &[i128]) -> Option<i128>
    requires acceptable { IsAcceptable net.now }
    requires lengths { length p.now ≡ length net.now.movements }
    ensures { result ≡ served_formed net.now p.now }
{
    mul(capacity(net, p)?, i128::from(net.per()))
}

/// Both sums.
#[tactic(auto, unfolding(crate::specs::Weighing::weighed))]
fn sums(net: &Net, p: &[i128]) -> Option<Weighed>
    requires acceptable { IsAcceptable net.now }
    requires lengths { length p.now ≡ length net.now.movements }
    ensures { result ≡ weighed net.now p.now }
{
    let load = load(net, p)?;
    let served = served(net, p)?;
    Some(Weighed { load, served })
}

/// Weighs a vector with one number of at least 0 per movement: its load, and its capacity times the rate length.
///
/// The overflow comes exactly where a calculation exceeds 128 bits.
pub fn weigh(net: &Net, against: &Against) -> Result<Weighed, Overflow>
    requires lengths { length against.now.p ≡ length net.now.movements }
    requires signs { All (λ x. pos 0 ≤ℤ x) against.now.p }
    ensures calculation { WeighsTo result (weighed net.now against.now.p) }
    ensures load { IfOk result (λ sums. sums.load ≡ pos (load net.now (entry (vector_of against.now)))) }
    ensures served { IfOk result (λ sums. sums.served ≡ pos (net.now.per * capacity net.now (entry (vector_of against.now)))) }
{
    let _shares = net.shares();
    match sums(net, against.p.as_slice()) {
        Some(sums) => Ok(sums),
        None => Err(Overflow),
    }
}
