// What the links receive, and where their movements then stand.
ghost use Rattle.std.specs.Prelude.{◌≡◌, ◌≤◌, ◌<◌, ◌+◌, ◌*◌, ◌-◌, ◌%◌, ◌^◌, ℕ, All, length, map, sum, sum_by, slice_set};
ghost use Rattle.mp_model.specs.Network.{movement_numbers, link_numbers, out_of, into_link, entry};
ghost use Rattle.mp_model.specs.NetworkRules.{IsAcceptable};
ghost use Rattle.mp_model.specs.Arrivals.{arrivals_of, HasCounts};
ghost use Rattle.mp_model.specs.Step.{joined};
ghost use Rattle.mp_press.specs.Queues.{naturals, NoneNegative, AreCounts};
ghost use Rattle.mp_press.specs.Written.{IsAmong, written};
ghost use Rattle.mp_step.specs.Settled.{settled};
ghost use Rattle.mp_step.specs.Standing.{moved, received, splits_of, shares_in};

use crate::cells::{phase_of, put_number};
use mp_feed::Splitter;
use mp_net::{LinkNo, MovementNo, Net};
use mp_press::queue_of;

/// The arrivals on a link.
pub fn arrivals_on(net: &Net, arrivals: &[u64], l: LinkNo) -> u64
    requires known { (1 ≤ l) × (l ≤ length net.now.links) }
    requires counts { HasCounts net.now arrivals.now }
    ensures { result ≡ arrivals_of net.now arrivals.now l }
{
    match net.fed_place(l) {
        Some(i) => arrivals[i],
        None => 0,
    }
}

// What a link receives: its arrivals, and what passes into it.
fn gather(net: &Net, passes: &[u32], came: u64, l: LinkNo) -> u64
    requires acceptable { IsAcceptable net.now }
    requires known { (1 ≤ l) × (l ≤ length net.now.links) }
    requires size { length passes.now ≡ length net.now.movements }
    requires each { All (λ y. y ≤ 1000) passes.now }
    requires digits { came < 10 ^ 9 }
    ensures value { result ≡ came + sum_by (entry passes.now) (into_link net.now l) }
    ensures few { result ≤ 2 ^ 32 }
{
    let mut sum = 0;
    for k in net.into_link(l) {
        sum += u64::from(passes[usize::from(*k) - 1]);
    }
    came + sum
}

// What is left in the queue of a movement once it has passed.
fn staying(queues: &[i128], passes: &[u32], k: MovementNo) -> u128
    requires known { (1 ≤ k) × (k ≤ length queues.now) }
    requires counts { AreCounts queues.now }
    requires size { length passes.now ≡ length queues.now }
    ensures value { result ≡ entry (naturals queues.now) k - entry passes.now k }
    ensures few { result ≤ 2 ^ 90 }
{
    queue_of(queues, k).saturating_sub(u128::from(passes[usize::from(k) - 1]))
}

// Carries the queues of the movements out of a link over, less what passes.
fn carry(queues: &[i128], passes: &[u32], ks: &[MovementNo], next: &mut [i128])
    requires known { All (IsAmong (length queues.now)) ks.now }
    requires counts { AreCounts queues.now }
    requires size { length passes.now ≡ length queues.now }
    requires next_size { length next.old ≡ length queues.now }
    ensures value { naturals next.new ≡ written (λ k. entry (naturals queues.now) k - entry passes.now k) ks.now (naturals next.old) }
    ensures some { NoneNegative next.old → NoneNegative next.new }
{
    for k in ks {
        put_number(next, *k, staying(queues, passes, *k));
    }
}

// Writes the next queues of the movements out of one link, with the parts of what it received.
fn settle(queues: &[i128], passes: &[u32], ks: &[MovementNo], parts: &[u64], next: &mut [i128])
    requires known { All (IsAmong (length queues.now)) ks.now }
    requires counts { AreCounts queues.now }
    requires size { length passes.now ≡ length queues.now }
    requires next_size { length next.old ≡ length queues.now }
    requires parts { length parts.now ≡ length ks.now }
    ensures value { naturals next.new ≡ settled (naturals queues.now) passes.now ks.now parts.now (naturals next.old) }
    ensures some { NoneNegative next.old → NoneNegative next.new }
{
    for i in 0..ks.len() {
        let k = ks[i];
        put_number(next, k, staying(queues, passes, k) + u128::from(parts[i]));
    }
}

// One link: writes the next queues of its movements, and answers its next phase. Most links receive
// nothing in most periods.
fn move_link(
    net: &Net,
    split: &Splitter,
    l: LinkNo,
    came: u64,
    phase: u32,
    queues: &[i128],
    passes: &[u32],
    parts: &mut [u64],
    next: &mut [i128],
) -> u32
    requires acceptable { IsAcceptable net.now }
    requires known { (1 ≤ l) × (l ≤ length net.now.links) }
    requires split { split.now.shares ≡ shares_in net.now l }
    requires digits { came < 10 ^ 9 }
    requires phase { phase < net.now.shares }
    requires len { length queues.now ≡ length net.now.movements }
    requires counts { AreCounts queues.now }
    requires size { length passes.now ≡ length net.now.movements }
    requires each { All (λ y. y ≤ 1000) passes.now }
    requires next_size { length next.old ≡ length net.now.movements }
    requires room { length parts.old ≡ length net.now.movements }
    ensures phase { result ≡ (phase + (came + sum_by (entry passes.now) (into_link net.now l))) % net.now.shares }
    ensures value { naturals next.new ≡ written (λ k. entry (naturals queues.now) k - entry passes.now k + (joined net.now l (phase + (came + sum_by (entry passes.now) (into_link net.now l))) k - joined net.now l phase k)) (out_of net.now l) (naturals next.old) }
    ensures some { NoneNegative next.old → NoneNegative next.new }
{
    let received = gather(net, passes, came, l);
    let ks = net.out_of(l);
    if received == 0 {
        carry(queues, passes, ks, next);
        return phase;
    }
    let part = &mut parts[..ks.len()];
    let after = split.take_from(phase, received, part);
    settle(queues, passes, ks, part, next);
    after
}

/// Writes the next queues and phases, and answers the sum of the arrivals.
pub fn move_all(
    net: &Net,
    splits: &[Splitter],
    arrivals: &[u64],
    phases: &[i128],
    queues: &[i128],
    passes: &[u32],
    parts: &mut [u64],
    next: &mut [i128],
    next_phases: &mut [i128],
) -> u64
    requires acceptable { IsAcceptable net.now }
    requires splits { map (λ split. split.shares) splits.now ≡ splits_of net.now }
    requires arrivals { HasCounts net.now arrivals.now }
    requires digits { All (λ a. a < 10 ^ 9) arrivals.now }
    requires phases { length phases.now ≡ length net.now.links }
    requires phase_in { All (λ phase. phase < net.now.shares) (naturals phases.now) }
    requires phase_fits { All (λ phase. phase < 2 ^ 32) (naturals phases.now) }
    requires len { length queues.now ≡ length net.now.movements }
    requires counts { AreCounts queues.now }
    requires size { length passes.now ≡ length net.now.movements }
    requires each { All (λ y. y ≤ 1000) passes.now }
    requires next_size { length next.old ≡ length net.now.movements }
    requires next_phases_size { length next_phases.old ≡ length net.now.links }
    requires room { length parts.old ≡ length net.now.movements }
    ensures value { result ≡ sum_by (arrivals_of net.now arrivals.now) (link_numbers net.now) }
    ensures limit { result ≤ 2 ^ 37 }
    ensures queues { naturals next.new ≡ map (moved net.now arrivals.now (entry (naturals phases.now)) (entry (naturals queues.now)) (entry passes.now)) (movement_numbers net.now) }
    ensures some { NoneNegative next.old → NoneNegative next.new }
    ensures phases { naturals next_phases.new ≡ map (λ l. (entry (naturals phases.now) l + received net.now arrivals.now (entry passes.now) l) % net.now.shares) (link_numbers net.now) }
{
    let mut sum = 0;
    for i in 0..net.links() {
        let at = usize::from(i);
        let came = arrivals_on(net, arrivals, i + 1);
        sum += came;
        let phase = phase_of(phases, i + 1);
        let after = move_link(
            net,
            &splits[at],
            i + 1,
            came,
            phase,
            queues,
            passes,
            parts,
            next,
        );
        put_number(next_phases, i + 1, u128::from(after));
    }
    sum
}
