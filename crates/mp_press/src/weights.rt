// The weight of a movement.
ghost use Rattle.std.specs.Prelude.{◌≡◌, ◌≤◌, ◌<◌, ◌*◌, ◌-◌, ◌^◌, ℕ, length, slice_index, pos, ◌-ℤ◌};
ghost use Rattle.mp_model.specs.Network.{flow_of, entry};
ghost use Rattle.mp_model.specs.NetworkRules.{IsAcceptable};
ghost use Rattle.mp_model.specs.Pressure.{weight_by};
ghost use Rattle.mp_press.specs.Queues.{naturals};
ghost use Rattle.mp_press.specs.Presses.{own_of, own_queue, next_queue, CanWeigh};

use crate::queues::{behind_among, queue_at};
use mp_net::{JunctionNo, MovementNo, Net};

/// The weight of the i-th movement of the junction, from 0, in vehicles times shares.
///
/// The queue of the movement is read from `own`, one per movement of the junction, and those that are
/// subtracted from `next`, one per movement behind it, both in ascending order of the movements; so
/// it is also for a movement that stands in both.
pub fn weight(net: &Net, j: JunctionNo, own: &[i128], next: &[i128], i: usize) -> i128
    requires junction { (1 ≤ j) × (j ≤ length net.now.junctions) }
    requires counts { CanWeigh net.now j own.now next.now }
    requires within { i < length own.now }
    ensures { result ≡ weight_by net.now (own_queue net.now j (naturals own.now)) (next_queue net.now j (naturals next.now)) (slice_index (own_of net.now j) i) }
{
    let shares = net.shares();
    let k = net.own(j)[i];
    difference(
        u128::from(shares) * queue_at(own, i),
        behind_among(net, j, next, k),
    )
}

pub fn difference(a: u128, b: u128) -> i128
    requires { (a < 2 ^ 126) × (b < 2 ^ 126) }
    ensures { result ≡ pos a -ℤ pos b }
{
    a as i128 - b as i128
}

/// The press of a movement: its flow times the greater of 0 and its weight.
pub fn press(net: &Net, k: MovementNo, queue: u128, behind: u128) -> u128
    requires acceptable { IsAcceptable net.now }
    requires known { (1 ≤ k) × (k ≤ length net.now.movements) }
    requires few { queue ≤ 2 ^ 90 }
    ensures value { result ≡ flow_of net.now k * (net.now.shares * queue - behind) }
    ensures few { result ≤ 2 ^ 110 }
{
    let weight = (u128::from(net.shares()) * queue).saturating_sub(behind);
    u128::from(net.turn(k).flow) * weight
}
