//! Presses of movements and pressures of stages, by any counts.
ghost use Rattle.std.specs.Prelude.{◌≡◌, ◌≤◌, ◌-◌, ◌*◌, ◌^◌, All, [], length, sum_by};
ghost use Rattle.mp_model.specs.Network.{flow_of, junction_at, to_of, entry};
ghost use Rattle.mp_model.specs.NetworkRules.{IsAcceptable};
ghost use Rattle.mp_press.specs.LinkSums.{AreSums};
ghost use Rattle.mp_press.specs.Presses.{queued_on};
ghost use Rattle.mp_press.specs.Queues.{naturals, AreCounts};
ghost use Rattle.mp_press.specs.Written.{IsAmong, entry_at};
ghost use Rattle.mp_guard_run.specs.Choosing.{ArePresses, pressed};

use arrayvec::ArrayVec;
use mp_net::{JunctionNo, LinkNo, MovementNo, Net, StageNo};
use mp_press::queue_of;

// What is queued on a link: the counts of the movements out of it, each times its share.
fn queued_on(net: &Net, counts: &[i128], l: LinkNo) -> u128
    requires acceptable { IsAcceptable net.now }
    requires known { (1 ≤ l) × (l ≤ length net.now.links) }
    requires len { length counts.now ≡ length net.now.movements }
    requires counts { AreCounts counts.now }
    ensures value { result ≡ queued_on net.now (entry (naturals counts.now)) l }
    ensures few { result ≤ 512 * (1000 * 2 ^ 90) }
{
    let mut sum = 0u128;
    for k in net.out_of(l) {
        sum += u128::from(net.turn(*k).share) * queue_of(counts, *k);
    }
    sum
}

/// Puts what is queued on each link: one sum, whatever number of movements goes to it.
pub fn queue_links(net: &Net, counts: &[i128], into: &mut ArrayVec<u128, 128>)
    requires acceptable { IsAcceptable net.now }
    requires len { length counts.now ≡ length net.now.movements }
    requires counts { AreCounts counts.now }
    requires empty { into.old.items ≡ [] }
    ensures { AreSums net.now (entry (naturals counts.now)) into.new.items }
{
    for i in 0..net.links() {
        into.push(queued_on(net, counts, i + 1));
    }
}

// What is queued on the link that a movement goes to, and nothing outside.
fn behind_in(net: &Net, queued: &[u128], k: MovementNo) -> u128
    requires acceptable { IsAcceptable net.now }
    requires known { (1 ≤ k) × (k ≤ length net.now.movements) }
    requires size { length net.now.links ≤ length queued.now }
    ensures { result ≡ entry_at queued.now (to_of net.now k) }
{
    match net.turn(k).to {
        None => 0,
        Some(l) => queued[usize::from(l) - 1],
    }
}

// The press of a movement: its flow times the greater of 0 and its weight.
fn press(net: &Net, k: MovementNo, queue: u128, behind: u128) -> u128
    requires acceptable { IsAcceptable net.now }
    requires known { (1 ≤ k) × (k ≤ length net.now.movements) }
    requires few { queue ≤ 2 ^ 90 }
    ensures value { result ≡ flow_of net.now k * (net.now.shares * queue - behind) }
    ensures few { result ≤ 2 ^ 110 }
{
    let weight = (u128::from(net.shares()) * queue).saturating_sub(behind);
    u128::from(net.turn(k).flow) * weight
}

/// Puts the press of each movement, from what is queued on each link.
pub fn press_all(net: &Net, counts: &[i128], queued: &[u128], into: &mut ArrayVec<u128, 512>)
    requires acceptable { IsAcceptable net.now }
    requires len { length counts.now ≡ length net.now.movements }
    requires counts { AreCounts counts.now }
    requires queued { AreSums net.now (entry (naturals counts.now)) queued.now }
    requires empty { into.old.items ≡ [] }
    ensures { ArePresses net.now (entry (naturals counts.now)) into.new.items }
{
    for i in 0..net.movements() {
        let behind = behind_in(net, queued, i + 1);
        into.push(press(net, i + 1, queue_of(counts, i + 1), behind));
    }
}

// The sum of the presses of some movements.
fn sum_of(presses: &[u128], stage: &[MovementNo]) -> u128
    requires known { All (IsAmong (length presses.now)) stage.now }
    requires few { All (λ p. p ≤ 2 ^ 110) presses.now }
    requires limit { length stage.now ≤ 512 }
    ensures value { result ≡ sum_by (entry presses.now) stage.now }
    ensures few { result ≤ 512 * 2 ^ 110 }
{
    let mut sum = 0u128;
    for k in stage {
        sum += presses[usize::from(*k) - 1];
    }
    sum
}

/// The pressure of a stage, from the presses of all movements.
pub fn pressure(net: &Net, j: JunctionNo, presses: &[u128], s: StageNo) -> u128
    requires acceptable { IsAcceptable net.now }
    requires junction { (1 ≤ j) × (j ≤ length net.now.junctions) }
    requires size { length presses.now ≡ length net.now.movements }
    requires few { All (λ p. p ≤ 2 ^ 110) presses.now }
    requires stage { (1 ≤ s) × (s ≤ length (junction_at net.now j).stages) }
    ensures value { result ≡ pressed (junction_at net.now j) presses.now s }
    ensures few { result ≤ 512 * 2 ^ 110 }
{
    sum_of(presses, net.stage(j, s))
}
