// The stages of greatest pressure in 64 bits, while each count is below 2^31.
ghost use Rattle.std.specs.Prelude.{◌≡◌, ◌≤◌, ◌<◌, ◌*◌, ◌-◌, ◌^◌, ℕ, All, length, sum_by, slice_set};
ghost use Rattle.mp_model.specs.Network.{to_of, flow_of, junction_at, entry};
ghost use Rattle.mp_model.specs.NetworkRules.{IsAcceptable};
ghost use Rattle.mp_model.specs.Pressure.{greatest_stage};
ghost use Rattle.mp_model.specs.Run.{greatest_stages};
ghost use Rattle.mp_press.specs.Queues.{naturals};
ghost use Rattle.mp_press.specs.LinkSums.{AreSums};
ghost use Rattle.mp_press.specs.Written.{IsAmong, entry_at, written};
ghost use Rattle.mp_press.specs.Presses.{press_by, own_of, greatest_in};

use crate::queues::queue_of;
use crate::stages::behind_in;
use arrayvec::ArrayVec;
use mp_net::{JunctionNo, MovementNo, Net, StageNo};

fn small_queue(queues: &[i128], k: MovementNo) -> u64
    requires known { (1 ≤ k) × (k ≤ length queues.now) }
    requires small { entry (naturals queues.now) k < 2 ^ 31 }
    ensures { result ≡ entry (naturals queues.now) k }
{
    queue_of(queues, k) as u64
}

// What is queued on the link that a movement goes to, which fits where each count is below 2^31.
fn small_behind(net: &Net, queued: &[u128], k: MovementNo) -> u64
    requires acceptable { IsAcceptable net.now }
    requires known { (1 ≤ k) × (k ≤ length net.now.movements) }
    requires size { length net.now.links ≤ length queued.now }
    requires small { entry_at queued.now (to_of net.now k) < 2 ^ 64 }
    ensures { result ≡ entry_at queued.now (to_of net.now k) }
{
    behind_in(net, queued, k) as u64
}

// The press of a movement.
fn small_press(net: &Net, k: MovementNo, queue: u64, behind: u64) -> u64
    requires acceptable { IsAcceptable net.now }
    requires known { (1 ≤ k) × (k ≤ length net.now.movements) }
    requires small { queue < 2 ^ 31 }
    ensures value { result ≡ flow_of net.now k * (net.now.shares * queue - behind) }
    ensures few { result ≤ 2 ^ 51 }
{
    let weight = (u64::from(net.shares()) * queue).saturating_sub(behind);
    u64::from(net.turn(k).flow) * weight
}

fn put_small(presses: &mut [u64], k: MovementNo, press: u64)
    requires known { (1 ≤ k) × (k ≤ length presses.old) }
    requires small { press ≤ 2 ^ 51 }
    requires few { All (λ p. p ≤ 2 ^ 51) presses.old }
    ensures value { presses.new ≡ slice_set presses.old (k - 1) press }
    ensures few { All (λ p. p ≤ 2 ^ 51) presses.new }
{
    presses[usize::from(k) - 1] = press;
}

// Writes the presses of the movements of a junction.
fn press_junction(net: &Net, j: JunctionNo, queues: &[i128], queued: &[u128], presses: &mut [u64])
    requires acceptable { IsAcceptable net.now }
    requires junction { (1 ≤ j) × (j ≤ length net.now.junctions) }
    requires len { length queues.now ≡ length net.now.movements }
    requires small { All (λ q. q < 2 ^ 31) (naturals queues.now) }
    requires queued { AreSums net.now (entry (naturals queues.now)) queued.now }
    requires size { length presses.old ≡ length net.now.movements }
    requires few { All (λ p. p ≤ 2 ^ 51) presses.old }
    ensures value { presses.new ≡ written (press_by net.now (entry (naturals queues.now)) (entry (naturals queues.now))) (own_of net.now j) presses.old }
    ensures few { All (λ p. p ≤ 2 ^ 51) presses.new }
{
    for k in net.own(j) {
        let behind = small_behind(net, queued, *k);
        put_small(
            presses,
            *k,
            small_press(net, *k, small_queue(queues, *k), behind),
        );
    }
}

// The sum of the presses of a stage.
fn small_pressure(presses: &[u64], stage: &[MovementNo]) -> u64
    requires known { All (IsAmong (length presses.now)) stage.now }
    requires few { All (λ p. p ≤ 2 ^ 51) presses.now }
    requires limit { length stage.now ≤ 512 }
    ensures { result ≡ sum_by (entry presses.now) stage.now }
{
    let mut sum = 0u64;
    for k in stage {
        sum += presses[usize::from(*k) - 1];
    }
    sum
}

// The stage of a junction whose movements press most.
fn small_greatest(net: &Net, j: JunctionNo, presses: &[u64]) -> StageNo
    requires acceptable { IsAcceptable net.now }
    requires junction { (1 ≤ j) × (j ≤ length net.now.junctions) }
    requires size { length presses.now ≡ length net.now.movements }
    requires few { All (λ p. p ≤ 2 ^ 51) presses.now }
    ensures { result ≡ greatest_in (junction_at net.now j) presses.now }
{
    let mut best = 1;
    let mut most = small_pressure(presses, net.stage(j, 1));
    for i in 1..net.stages(j) {
        let here = small_pressure(presses, net.stage(j, i + 1));
        if most < here {
            best = i + 1;
            most = here;
        }
    }
    best
}

/// The stage of greatest pressure of a junction, where each queue is below 2^31.
pub fn choose_small(
    net: &Net,
    j: JunctionNo,
    queues: &[i128],
    queued: &[u128],
    presses: &mut [u64],
) -> StageNo
    requires acceptable { IsAcceptable net.now }
    requires junction { (1 ≤ j) × (j ≤ length net.now.junctions) }
    requires len { length queues.now ≡ length net.now.movements }
    requires small { All (λ q. q < 2 ^ 31) (naturals queues.now) }
    requires queued { AreSums net.now (entry (naturals queues.now)) queued.now }
    requires size { length presses.old ≡ length net.now.movements }
    requires few { All (λ p. p ≤ 2 ^ 51) presses.old }
    ensures value { result ≡ greatest_stage net.now (entry (naturals queues.now)) (junction_at net.now j) }
    ensures few { All (λ p. p ≤ 2 ^ 51) presses.new }
{
    press_junction(net, j, queues, queued, presses);
    small_greatest(net, j, presses)
}

/// Makes `into` the stages of greatest pressure, one per junction, where each queue is below 2^31.
pub fn choose_all_small(
    net: &Net,
    queues: &[i128],
    queued: &[u128],
    presses: &mut [u64],
    into: &mut ArrayVec<StageNo, 64>,
)
    requires acceptable { IsAcceptable net.now }
    requires len { length queues.now ≡ length net.now.movements }
    requires small { All (λ q. q < 2 ^ 31) (naturals queues.now) }
    requires queued { AreSums net.now (entry (naturals queues.now)) queued.now }
    requires size { length presses.old ≡ length net.now.movements }
    requires few { All (λ p. p ≤ 2 ^ 51) presses.old }
    ensures value { into.new.items ≡ greatest_stages net.now (entry (naturals queues.now)) }
    ensures few { All (λ p. p ≤ 2 ^ 51) presses.new }
{
    into.clear();
    for i in 0..net.junctions() {
        into.push(choose_small(net, i + 1, queues, queued, presses));
    }
}
