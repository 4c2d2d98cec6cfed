// Queues, and what is queued downstream.
ghost use Rattle.std.specs.Prelude.{◌≡◌, ◌≤◌, ◌<◌, ◌+◌, ◌*◌, ◌^◌, ◌==◌, ℕ, length, slice_index};
ghost use Rattle.std.specs.List.{IsDistinct};
ghost use Rattle.std.specs.List.Sorted.{IsStrictlyIncreasing};
ghost use Rattle.mp_model.specs.Network.{share_of, out_of, entry};
ghost use Rattle.mp_model.specs.NetworkRules.{IsAcceptable};
ghost use Rattle.mp_model.specs.Arrivals.{count_in};
ghost use Rattle.mp_model.specs.Pressure.{queued_downstream};
ghost use Rattle.mp_press.specs.Queues.{naturals, AreCounts};
ghost use Rattle.mp_press.specs.Presses.{queued_on, next_of, next_queue};

use mp_net::{JunctionNo, LinkNo, MovementNo, Net};

/// The queue at a place, from 0.
pub fn queue_at(queues: &[i128], i: usize) -> u128
    requires { i < length queues.now }
    ensures { result ≡ slice_index (naturals queues.now) i }
{
    queues[i].unsigned_abs()
}

/// The queue of a movement, from a list of one queue per movement.
pub fn queue_of(queues: &[i128], k: MovementNo) -> u128
    requires { (1 ≤ k) × (k ≤ length queues.now) }
    ensures { result ≡ entry (naturals queues.now) k }
{
    queue_at(queues, usize::from(k) - 1)
}

// The queue of a movement, where one is given for each of these movements, and 0 for another.
fn queue_among(ks: &[MovementNo], queues: &[i128], k: MovementNo) -> u128
    requires ascending { IsStrictlyIncreasing ks.now }
    requires distinct { IsDistinct ◌==◌ ks.now }
    requires len { length queues.now ≡ length ks.now }
    ensures { result ≡ count_in ks.now (naturals queues.now) k }
{
    match ks.binary_search(&k) {
        Ok(i) => queue_at(queues, i),
        Err(_) => 0,
    }
}

/// What is queued on a link: the queues of the movements out of it, each times its share.
pub fn queued_on(net: &Net, queues: &[i128], l: LinkNo) -> u128
    requires acceptable { IsAcceptable net.now }
    requires known { (1 ≤ l) × (l ≤ length net.now.links) }
    requires len { length queues.now ≡ length net.now.movements }
    requires counts { AreCounts queues.now }
    ensures value { result ≡ queued_on net.now (entry (naturals queues.now)) l }
    ensures few { result ≤ 512 * (1000 * 2 ^ 90) }
{
    let mut sum = 0u128;
    for k in net.out_of(l) {
        sum += u128::from(net.turn(*k).share) * queue_of(queues, *k);
    }
    sum
}

// The same, where a queue is given for each movement behind a junction.
fn queued_among(net: &Net, j: JunctionNo, queues: &[i128], l: LinkNo) -> u128
    requires acceptable { IsAcceptable net.now }
    requires junction { (1 ≤ j) × (j ≤ length net.now.junctions) }
    requires known { (1 ≤ l) × (l ≤ length net.now.links) }
    requires len { length queues.now ≡ length (next_of net.now j) }
    requires counts { AreCounts queues.now }
    ensures value { result ≡ queued_on net.now (next_queue net.now j (naturals queues.now)) l }
    ensures few { result ≤ 512 * (1000 * 2 ^ 90) }
{
    let next = net.next(j);
    let mut sum = 0u128;
    for k in net.out_of(l) {
        sum += u128::from(net.turn(*k).share) * queue_among(next, queues, *k);
    }
    sum
}

/// What is queued downstream of a movement: on the link that it goes to, and nothing outside.
pub fn behind(net: &Net, queues: &[i128], k: MovementNo) -> u128
    requires acceptable { IsAcceptable net.now }
    requires known { (1 ≤ k) × (k ≤ length net.now.movements) }
    requires len { length queues.now ≡ length net.now.movements }
    requires counts { AreCounts queues.now }
    ensures { result ≡ queued_downstream net.now (entry (naturals queues.now)) k }
{
    match net.turn(k).to {
        None => 0,
        Some(l) => queued_on(net, queues, l),
    }
}

/// The same, where a queue is given for each movement behind a junction.
pub fn behind_among(net: &Net, j: JunctionNo, queues: &[i128], k: MovementNo) -> u128
    requires acceptable { IsAcceptable net.now }
    requires junction { (1 ≤ j) × (j ≤ length net.now.junctions) }
    requires known { (1 ≤ k) × (k ≤ length net.now.movements) }
    requires len { length queues.now ≡ length (next_of net.now j) }
    requires counts { AreCounts queues.now }
    ensures value { result ≡ queued_downstream net.now (next_queue net.now j (naturals queues.now)) k }
    ensures few { result ≤ 512 * (1000 * 2 ^ 90) }
{
    match net.turn(k).to {
        None => 0,
        Some(l) => queued_among(net, j, queues, l),
    }
}
