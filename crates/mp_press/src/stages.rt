// The stages of greatest pressure.
ghost use Rattle.std.specs.Prelude.{◌≡◌, ◌≤◌, ◌<◌, ◌*◌, ◌-◌, ◌^◌, ℕ, [], All, length, sum_by, slice_set};
ghost use Rattle.mp_model.specs.Network.{to_of, junction_at, entry};
ghost use Rattle.mp_model.specs.NetworkRules.{IsAcceptable};
ghost use Rattle.mp_model.specs.Pressure.{greatest_stage_by, IsGreatestStageBy, AllGreatest};
ghost use Rattle.mp_model.specs.Step.{AreStages};
ghost use Rattle.mp_model.specs.Run.{greatest_stages};
ghost use Rattle.mp_press.specs.Queues.{naturals, AreCounts};
ghost use Rattle.mp_press.specs.LinkSums.{AreSums};
ghost use Rattle.mp_press.specs.Written.{IsAmong, HasEach, entry_at, written};
ghost use Rattle.mp_press.specs.Presses.{press_by, own_of, own_queue, next_queue, greatest_in, CanWeigh};

use crate::queues::{behind_among, queue_at, queue_of, queued_on};
use crate::weights::press;
use arrayvec::ArrayVec;
use mp_net::{JunctionNo, MovementNo, Net, StageNo};

// The sum of the presses of a stage.
fn pressure_of(presses: &[u128], stage: &[MovementNo]) -> u128
    requires known { All (IsAmong (length presses.now)) stage.now }
    requires few { All (λ p. p ≤ 2 ^ 110) presses.now }
    requires limit { length stage.now ≤ 512 }
    ensures { result ≡ sum_by (entry presses.now) stage.now }
{
    let mut sum = 0u128;
    for k in stage {
        sum += presses[usize::from(*k) - 1];
    }
    sum
}

// The stage of a junction whose movements press most.
fn greatest(net: &Net, j: JunctionNo, presses: &[u128]) -> StageNo
    requires acceptable { IsAcceptable net.now }
    requires junction { (1 ≤ j) × (j ≤ length net.now.junctions) }
    requires size { length net.now.movements ≤ length presses.now }
    requires few { All (λ p. p ≤ 2 ^ 110) presses.now }
    ensures { result ≡ greatest_in (junction_at net.now j) presses.now }
{
    let mut best = 1;
    let mut most = pressure_of(presses, net.stage(j, 1));
    for i in 1..net.stages(j) {
        let here = pressure_of(presses, net.stage(j, i + 1));
        if most < here {
            best = i + 1;
            most = here;
        }
    }
    best
}

fn put_press(presses: &mut [u128], k: MovementNo, press: u128)
    requires known { (1 ≤ k) × (k ≤ length presses.old) }
    requires small { press ≤ 2 ^ 110 }
    requires few { All (λ p. p ≤ 2 ^ 110) presses.old }
    ensures value { presses.new ≡ slice_set presses.old (k - 1) press }
    ensures few { All (λ p. p ≤ 2 ^ 110) presses.new }
{
    presses[usize::from(k) - 1] = press;
}

// Writes the presses of the movements of a junction.
fn press_own(net: &Net, j: JunctionNo, own: &[i128], next: &[i128], presses: &mut [u128])
    requires acceptable { IsAcceptable net.now }
    requires junction { (1 ≤ j) × (j ≤ length net.now.junctions) }
    requires counts { CanWeigh net.now j own.now next.now }
    requires size { length presses.old ≡ 512 }
    requires few { All (λ p. p ≤ 2 ^ 110) presses.old }
    ensures value { presses.new ≡ written (press_by net.now (own_queue net.now j (naturals own.now)) (next_queue net.now j (naturals next.now))) (own_of net.now j) presses.old }
    ensures few { All (λ p. p ≤ 2 ^ 110) presses.new }
{
    let ks = net.own(j);
    for i in 0..ks.len() {
        let k = ks[i];
        let behind = behind_among(net, j, next, k);
        put_press(presses, k, press(net, k, queue_at(own, i), behind));
    }
}

/// The stage of greatest pressure, and the lowest one on ties.
///
/// The queues of the junction's movements are read from `own`, and those that are subtracted from
/// `next`, as `weight` reads them.
pub fn choose(net: &Net, j: JunctionNo, own: &[i128], next: &[i128]) -> StageNo
    requires junction { (1 ≤ j) × (j ≤ length net.now.junctions) }
    requires counts { CanWeigh net.now j own.now next.now }
    ensures value { result ≡ greatest_stage_by net.now (own_queue net.now j (naturals own.now)) (next_queue net.now j (naturals next.now)) (junction_at net.now j) }
    ensures greatest { IsGreatestStageBy net.now (own_queue net.now j (naturals own.now)) (next_queue net.now j (naturals next.now)) (junction_at net.now j) result }
{
    let _ = net.shares();
    let mut presses = [0u128; 512];
    press_own(net, j, own, next, &mut presses);
    greatest(net, j, &presses)
}

// Puts what is queued on each link.
fn queue_links(net: &Net, queues: &[i128], queued: &mut ArrayVec<u128, 128>)
    requires acceptable { IsAcceptable net.now }
    requires len { length queues.now ≡ length net.now.movements }
    requires counts { AreCounts queues.now }
    requires empty { queued.old.items ≡ [] }
    ensures { AreSums net.now (entry (naturals queues.now)) queued.new.items }
{
    for i in 0..net.links() {
        queued.push(queued_on(net, queues, i + 1));
    }
}

/// What is queued on the link that a movement goes to.
pub fn behind_in(net: &Net, queued: &[u128], k: MovementNo) -> u128
    requires acceptable { IsAcceptable net.now }
    requires known { (1 ≤ k) × (k ≤ length net.now.movements) }
    requires size { length net.now.links ≤ length queued.now }
    ensures { result ≡ entry_at queued.now (to_of net.now k) }
{
    match net.turn(k).to {
        None => 0,
        Some(l) => queued[usize::from(l) - 1],
    }
}

// Puts the press of each movement.
fn press_all(net: &Net, queues: &[i128], queued: &[u128], presses: &mut ArrayVec<u128, 512>)
    requires acceptable { IsAcceptable net.now }
    requires len { length queues.now ≡ length net.now.movements }
    requires counts { AreCounts queues.now }
    requires queued { AreSums net.now (entry (naturals queues.now)) queued.now }
    requires empty { presses.old.items ≡ [] }
    ensures size { length presses.new.items ≡ length net.now.movements }
    ensures each { HasEach (press_by net.now (entry (naturals queues.now)) (entry (naturals queues.now))) (length net.now.movements) presses.new.items }
    ensures few { All (λ p. p ≤ 2 ^ 110) presses.new.items }
{
    for i in 0..net.movements() {
        let k = i + 1;
        let behind = behind_in(net, queued, k);
        presses.push(press(net, k, queue_of(queues, k), behind));
    }
}

/// Makes `into` the stages of greatest pressure, one per junction, from one queue per movement. It
/// takes no memory.
pub fn choose_all(net: &Net, queues: &[i128], into: &mut ArrayVec<StageNo, 64>)
    requires len { length queues.now ≡ length net.now.movements }
    requires counts { AreCounts queues.now }
    ensures value { into.new.items ≡ greatest_stages net.now (entry (naturals queues.now)) }
    ensures greatest { AllGreatest net.now (entry (naturals queues.now)) net.now.junctions into.new.items }
    ensures stages { AreStages net.now.junctions into.new.items }
{
    let _ = net.shares();
    let mut queued = ArrayVec::new();
    queue_links(net, queues, &mut queued);
    let mut presses = ArrayVec::new();
    press_all(net, queues, &queued, &mut presses);
    let presses = presses.as_slice();
    into.clear();
    for i in 0..net.junctions() {
        into.push(greatest(net, i + 1, presses));
    }
}
