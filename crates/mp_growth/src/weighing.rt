//! What a vector weighs of the queues.
ghost use Rattle.std.specs.Prelude.{◌≡◌, ◌≤◌, ◌*◌, ◌<◌, ◌^◌, pos, length};
ghost use Rattle.mp_model.specs.Network.{entry, movement_numbers};
ghost use Rattle.mp_model.specs.NetworkRules.{IsAcceptable};
ghost use Rattle.mp_num.specs.Operations.{added, summed};
ghost use Rattle.mp_press.specs.Queues.{naturals, AreCounts};
ghost use Rattle.mp_overload.specs.Forming.{weighed, queues_formed};

use crate::places::number;
use mp_net::{MovementNo, Net};
use mp_num::{add, mul};
use mp_press::queue_of;

// The queue of the movement.
fn queue(queues: &[i128], k: MovementNo) -> i128
    requires counts { AreCounts queues.now }
    requires known { (1 ≤ k) × (k ≤ length queues.now) }
    ensures { result ≡ pos (entry (naturals queues.now) k) }
{
    queue_of(queues, k) as i128
}

// The number of the movement times its queue.
#[tactic(auto, using(mp_cert::proofs::RunLemmas::terms), unfolding(mp_num::specs::Operations::times, mp_overload::specs::Forming::weighed))]
fn weighed(net: &Net, p: &[i128], queues: &[i128], k: MovementNo) -> Option<i128>
    requires lengths { length p.now ≡ length net.now.movements }
    requires size { length queues.now ≡ length net.now.movements }
    requires counts { AreCounts queues.now }
    requires movement { (1 ≤ k) × (k ≤ length net.now.movements) }
    ensures { result ≡ weighed net.now p.now (entry (naturals queues.now)) k }
{
    let _ = net;
    mul(number(p, k), queue(queues, k))
}

// The sum with that of the movement.
#[tactic(auto, using(mp_cert::proofs::RunLemmas::terms), unfolding(mp_num::specs::Operations::plus))]
fn add_weighed(net: &Net, p: &[i128], queues: &[i128], sum: i128, k: MovementNo) -> Option<i128>
    requires lengths { length p.now ≡ length net.now.movements }
    requires size { length queues.now ≡ length net.now.movements }
    requires counts { AreCounts queues.now }
    requires movement { (1 ≤ k) × (k ≤ length net.now.movements) }
    ensures { result ≡ added (weighed net.now p.now (entry (naturals queues.now))) sum k }
{
    add(sum, weighed(net, p, queues, k)?)
}

// The sum over all movements.
#[tactic(auto, using(mp_cert::proofs::RunLemmas::counting), unfolding(mp_num::specs::Operations::summed))]
fn sum_weighed(net: &Net, p: &[i128], queues: &[i128]) -> Option<i128>
    requires lengths { length p.now ≡ length net.now.movements }
    requires size { length queues.now ≡ length net.now.movements }
    requires counts { AreCounts queues.now }
    ensures { result ≡ summed (weighed net.now p.now (entry (naturals queues.now))) (movement_numbers net.now) }
{
    let mut sum = 0;
    for k in 0..net.movements() {
        let Some(next) = add_weighed(net, p, queues, sum, k + 1) else {
            return None;
        };
        sum = next;
    }
    Some(sum)
}

/// The share total times the rate length, times the sum of the vector times the queues.
#[tactic(auto, using(mp_cert::proofs::RunLemmas::terms), unfolding(mp_num::specs::Operations::times, mp_overload::specs::Forming::queues_formed))]
pub fn weigh_queues(net: &Net, p: &[i128], queues: &[i128]) -> Option<i128>
    requires acceptable { IsAcceptable net.now }
    requires lengths { length p.now ≡ length net.now.movements }
    requires size { length queues.now ≡ length net.now.movements }
    requires counts { AreCounts queues.now }
    ensures { result ≡ queues_formed net.now p.now (entry (naturals queues.now)) }
{
    let sum = sum_weighed(net, p, queues)?;
    mul(i128::from(net.shares() * net.per()), sum)
}
