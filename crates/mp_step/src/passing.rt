// What the movements pass in a period.
ghost use Rattle.std.specs.Prelude.{◌≡◌, ◌≤◌, ◌<◌, ◌+◌, ◌*◌, ◌-◌, ◌^◌, ℕ, All, IfSome, is_none, cond, length, map, min, sum_by};
ghost use Rattle.mp_model.specs.Network.{movement_numbers, to_of, flow_of, goes_out, entry};
ghost use Rattle.mp_model.specs.NetworkRules.{IsAcceptable};
ghost use Rattle.mp_model.specs.Pressure.{queued_downstream};
ghost use Rattle.mp_model.specs.Step.{AreStages, passed, departing_by};
ghost use Rattle.mp_press.specs.Queues.{naturals, AreCounts};
ghost use Rattle.mp_press.specs.Written.{IsAmong, written};
ghost use Rattle.mp_press.specs.LinkSums.{AreSums};
ghost use Rattle.mp_step.specs.OpenStep.{passed_open};
ghost use Rattle.mp_step.specs.Standing.{served};

use mp_net::{MovementNo, Net, StageNo};
use mp_press::{behind, queue_of};

// The lesser of the flow and the queue of a movement.
fn lesser(net: &Net, queues: &[i128], k: MovementNo) -> u32
    requires known { (1 ≤ k) × (k ≤ length net.now.movements) }
    requires len { length queues.now ≡ length net.now.movements }
    ensures { result ≡ min (flow_of net.now k) (entry (naturals queues.now) k) }
{
    queue_of(queues, k).min(u128::from(net.turn(k).flow)) as u32
}

// What is queued downstream of a movement, off the sums of the links where they are handed in.
fn behind_by(net: &Net, queued: Option<&[u128]>, queues: &[i128], k: MovementNo) -> u128
    requires acceptable { IsAcceptable net.now }
    requires known { (1 ≤ k) × (k ≤ length net.now.movements) }
    requires len { length queues.now ≡ length net.now.movements }
    requires counts { AreCounts queues.now }
    requires queued { IfSome queued (λ sums. AreSums net.now (entry (naturals queues.now)) sums.now) }
    ensures { result ≡ queued_downstream net.now (entry (naturals queues.now)) k }
{
    let Some(queued) = queued else {
        return behind(net, queues, k);
    };
    match net.turn(k).to {
        None => 0,
        Some(l) => queued[usize::from(l) - 1],
    }
}

// What a movement passes where it has green: with a positive weight the lesser of its flow and its
// queue. Where none is queued, what is behind doesn't matter, and need not be summed.
fn serve(net: &Net, queued: Option<&[u128]>, queues: &[i128], k: MovementNo) -> u32
    requires acceptable { IsAcceptable net.now }
    requires known { (1 ≤ k) × (k ≤ length net.now.movements) }
    requires len { length queues.now ≡ length net.now.movements }
    requires counts { AreCounts queues.now }
    requires queued { IfSome queued (λ sums. AreSums net.now (entry (naturals queues.now)) sums.now) }
    ensures { result ≡ served net.now (entry (naturals queues.now)) k }
{
    let queue = queue_of(queues, k);
    if queue == 0 {
        return 0;
    }
    if u128::from(net.shares()) * queue > behind_by(net, queued, queues, k) {
        lesser(net, queues, k)
    } else {
        0
    }
}

// How many of those that a movement passes leave the network.
fn leaving(net: &Net, k: MovementNo, pass: u32) -> u64
    requires known { (1 ≤ k) × (k ≤ length net.now.movements) }
    ensures { result ≡ cond (goes_out net.now k) pass 0 }
{
    match net.turn(k).to {
        None => u64::from(pass),
        Some(_) => 0,
    }
}

// Writes what the movements of a stage pass, and answers how many vehicles leave the network by it.
fn serve_stage(
    net: &Net,
    stage: &[MovementNo],
    queued: Option<&[u128]>,
    queues: &[i128],
    passes: &mut [u32],
) -> u64
    requires acceptable { IsAcceptable net.now }
    requires known { All (IsAmong (length net.now.movements)) stage.now }
    requires limit { length stage.now ≤ 512 }
    requires len { length queues.now ≡ length net.now.movements }
    requires counts { AreCounts queues.now }
    requires queued { IfSome queued (λ sums. AreSums net.now (entry (naturals queues.now)) sums.now) }
    requires size { length passes.old ≡ length net.now.movements }
    ensures value { passes.new ≡ written (served net.now (entry (naturals queues.now))) stage.now passes.old }
    ensures left { result ≡ sum_by (λ k. cond (goes_out net.now k) (served net.now (entry (naturals queues.now)) k) 0) stage.now }
    ensures few { result ≤ 2 ^ 32 }
{
    let mut left = 0;
    for k in stage {
        let pass = serve(net, queued, queues, *k);
        passes[usize::from(*k) - 1] = pass;
        left += leaving(net, *k, pass);
    }
    left
}

/// Writes what each movement passes, by the queues before the period, and answers how many vehicles
/// leave the network.
///
/// What is queued on each link may be handed in, one sum per link.
pub fn serve_all(
    net: &Net,
    stages: &[StageNo],
    queued: Option<&[u128]>,
    queues: &[i128],
    passes: &mut [u32],
) -> u64
    requires acceptable { IsAcceptable net.now }
    requires stages { AreStages net.now.junctions stages.now }
    requires len { length queues.now ≡ length net.now.movements }
    requires counts { AreCounts queues.now }
    requires queued { IfSome queued (λ sums. AreSums net.now (entry (naturals queues.now)) sums.now) }
    requires size { length passes.old ≡ length net.now.movements }
    ensures each { All (λ y. y ≤ 1000) passes.new }
    ensures value { passes.new ≡ map (passed net.now stages.now (entry (naturals queues.now))) (movement_numbers net.now) }
    ensures left { result ≡ departing_by net.now (entry passes.new) }
{
    passes.fill(0);
    let mut left = 0;
    for i in 0..net.junctions() {
        let stage = net.stage(i + 1, stages[usize::from(i)]);
        left += serve_stage(net, stage, queued, queues, passes);
    }
    left
}

// What a movement passes where its flag says whether it does.
fn passing_by(net: &Net, passing: &[bool], queues: &[i128], k: MovementNo) -> u32
    requires known { (1 ≤ k) × (k ≤ length net.now.movements) }
    requires flags { length passing.now ≡ length net.now.movements }
    requires len { length queues.now ≡ length net.now.movements }
    ensures { result ≡ passed_open net.now passing.now (entry (naturals queues.now)) k }
{
    if passing[usize::from(k) - 1] {
        lesser(net, queues, k)
    } else {
        0
    }
}

/// Writes what each movement passes where its flag says whether it does, by the queues before the
/// period, and answers how many vehicles leave the network.
pub fn serve_open(net: &Net, passing: &[bool], queues: &[i128], passes: &mut [u32]) -> u64
    requires flags { length passing.now ≡ length net.now.movements }
    requires len { length queues.now ≡ length net.now.movements }
    requires size { length passes.old ≡ length net.now.movements }
    ensures each { All (λ y. y ≤ 1000) passes.new }
    ensures value { passes.new ≡ map (passed_open net.now passing.now (entry (naturals queues.now))) (movement_numbers net.now) }
    ensures left { result ≡ departing_by net.now (entry passes.new) }
{
    let _ = net.shares();
    let mut left = 0;
    for i in 0..net.movements() {
        let pass = passing_by(net, passing, queues, i + 1);
        passes[usize::from(i)] = pass;
        left += leaving(net, i + 1, pass);
    }
    left
}
