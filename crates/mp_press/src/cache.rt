// Counts whose weights are kept up to date.
ghost use Rattle.std.specs.Prelude.{◌≡◌, ◌≤◌, ◌<◌, ◌+◌, ◌*◌, ◌-◌, ◌^◌, ◌≤ℤ◌, ℕ, All, IfOk, length, map, pos, slice_set, slice_index, unsigned_abs};
ghost use Rattle.mp_model.specs.Network.{Network, movement_numbers, start_of, from_of, share_of, junction_at, entry};
ghost use Rattle.mp_model.specs.NetworkRules.{IsAcceptable};
ghost use Rattle.mp_model.specs.Pressure.{weight, greatest_stage, IsGreatestStage, AllGreatest};
ghost use Rattle.mp_model.specs.Step.{AreStages};
ghost use Rattle.mp_model.specs.Run.{greatest_stages};
ghost use Rattle.mp_press.specs.Queues.{naturals, AreCounts};
ghost use Rattle.mp_press.specs.LinkSums.{AreSums};
ghost use Rattle.mp_press.specs.Weighed.{IsCacheOf, one_if_large, large_in};

use crate::memory::NoMemory;
use crate::queues::queue_of;
use crate::small::{choose_all_small, choose_small};
use crate::stages::{behind_in, choose_all};
use crate::weights::difference;
use arrayvec::ArrayVec;
use mp_net::{JunctionNo, MovementNo, Net, StageNo};
use std::alloc::Global;
use std::marker::Model;

// 1 for a count that is too large for presses in 64 bits, and 0 for another.
fn one_if_large(count: u128) -> u16
    ensures { result ≡ one_if_large count }
{
    if count < 1 << 31 { 0 } else { 1 }
}

fn put_count(counts: &mut [i128], k: MovementNo, count: u128)
    requires known { (1 ≤ k) × (k ≤ length counts.old) }
    requires fits { count ≤ 2 ^ 90 }
    requires counts { AreCounts counts.old }
    ensures value { naturals counts.new ≡ slice_set (naturals counts.old) (k - 1) count }
    ensures counts { AreCounts counts.new }
{
    counts[usize::from(k) - 1] = count as i128;
}

// A share times a count, in 64 bits where the count is not large, as nearly none is.
fn share_times(share: u32, count: u128) -> u128
    requires { (share ≤ 1000) × (count ≤ 2 ^ 90) }
    ensures { result ≡ share * count }
{
    if count < 1 << 31 {
        u128::from(u64::from(share) * count as u64)
    } else {
        u128::from(share) * count
    }
}

// Takes a count that was summed on the link that its movement leaves for another.
fn add_count(net: &Net, queued: &mut [u128], k: MovementNo, before: u128, after: u128)
    requires acceptable { IsAcceptable net.now }
    requires known { (1 ≤ k) × (k ≤ length net.now.movements) }
    requires len { length queued.old ≡ length net.now.links }
    requires there { share_of net.now k * before ≤ entry queued.old (from_of net.now k) }
    requires few { entry queued.old (from_of net.now k) ≤ 2 ^ 110 }
    requires fits { (before ≤ 2 ^ 90) × (after ≤ 2 ^ 90) }
    ensures { queued.new ≡ slice_set queued.old (from_of net.now k - 1) (entry queued.old (from_of net.now k) + share_of net.now k * after - share_of net.now k * before) }
{
    let turn = net.turn(k);
    let at = usize::from(turn.from) - 1;
    queued[at] = queued[at] + share_times(turn.share, after) - share_times(turn.share, before);
}

// Makes one count another, with what is queued on the link that its movement leaves, and answers how
// many counts are large.
fn change(
    net: &Net,
    counts: &mut [i128],
    queued: &mut [u128],
    large: u16,
    k: MovementNo,
    before: u128,
    after: u128,
) -> u16
    requires acceptable { IsAcceptable net.now }
    requires known { (1 ≤ k) × (k ≤ length net.now.movements) }
    requires len { length counts.old ≡ length net.now.movements }
    requires counts { AreCounts counts.old }
    requires queued { AreSums net.now (entry (naturals counts.old)) queued.old }
    requires large { large ≡ large_in (naturals counts.old) }
    requires before { before ≡ entry (naturals counts.old) k }
    requires fits { after ≤ 2 ^ 90 }
    ensures value { naturals counts.new ≡ slice_set (naturals counts.old) (k - 1) after }
    ensures counts { AreCounts counts.new }
    ensures queued { AreSums net.now (entry (naturals counts.new)) queued.new }
    ensures large { result ≡ large_in (naturals counts.new) }
{
    add_count(net, queued, k, before, after);
    put_count(counts, k, after);
    large + one_if_large(after) - one_if_large(before)
}

// Sums what is queued on each link, and answers how many counts are large.
fn sum_all(net: &Net, counts: &[i128], queued: &mut [u128]) -> u16
    requires acceptable { IsAcceptable net.now }
    requires len { length counts.now ≡ length net.now.movements }
    requires counts { AreCounts counts.now }
    requires links { length queued.old ≡ length net.now.links }
    ensures queued { AreSums net.now (entry (naturals counts.now)) queued.new }
    ensures large { result ≡ large_in (naturals counts.now) }
{
    queued.fill(0);
    let mut large = 0;
    for i in 0..net.movements() {
        let count = queue_of(counts, i + 1);
        add_count(net, queued, i + 1, 0, count);
        large += one_if_large(count);
    }
    large
}

// Makes each count the start queue of its movement.
fn put_starts(net: &Net, counts: &mut [i128])
    requires len { length counts.old ≡ length net.now.movements }
    requires counts { AreCounts counts.old }
    ensures value { naturals counts.new ≡ map (start_of net.now) (movement_numbers net.now) }
    ensures counts { AreCounts counts.new }
{
    for i in 0..net.movements() {
        let start = u128::from(net.movement(i + 1).start);
        put_count(counts, i + 1, start);
    }
}

// The stage of a junction, where each count is below 2^31 in 64 bits, else in 128.
fn choose_by(
    net: &Net,
    j: JunctionNo,
    counts: &[i128],
    queued: &[u128],
    large: u16,
    presses: &mut [u64],
) -> StageNo
    requires acceptable { IsAcceptable net.now }
    requires junction { (1 ≤ j) × (j ≤ length net.now.junctions) }
    requires len { length counts.now ≡ length net.now.movements }
    requires counts { AreCounts counts.now }
    requires queued { AreSums net.now (entry (naturals counts.now)) queued.now }
    requires large { large ≡ large_in (naturals counts.now) }
    requires size { length presses.old ≡ length net.now.movements }
    requires few { All (λ p. p ≤ 2 ^ 51) presses.old }
    ensures value { result ≡ greatest_stage net.now (entry (naturals counts.now)) (junction_at net.now j) }
    ensures few { All (λ p. p ≤ 2 ^ 51) presses.new }
{
    if large == 0 {
        return choose_small(net, j, counts, queued, presses);
    }
    let mut stages: ArrayVec<StageNo, 64> = ArrayVec::new();
    choose_all(net, counts, &mut stages);
    stages[usize::from(j) - 1]
}

// The stages of all junctions, in 64 bits or in 128.
fn choose_all_by(
    net: &Net,
    counts: &[i128],
    queued: &[u128],
    large: u16,
    presses: &mut [u64],
    into: &mut ArrayVec<StageNo, 64>,
)
    requires acceptable { IsAcceptable net.now }
    requires len { length counts.now ≡ length net.now.movements }
    requires counts { AreCounts counts.now }
    requires queued { AreSums net.now (entry (naturals counts.now)) queued.now }
    requires large { large ≡ large_in (naturals counts.now) }
    requires size { length presses.old ≡ length net.now.movements }
    requires few { All (λ p. p ≤ 2 ^ 51) presses.old }
    ensures value { into.new.items ≡ greatest_stages net.now (entry (naturals counts.now)) }
    ensures few { All (λ p. p ≤ 2 ^ 51) presses.new }
{
    if large == 0 {
        choose_all_small(net, counts, queued, presses, into);
    } else {
        choose_all(net, counts, into);
    }
}

/// Counts of the movements of a network, with what is then queued on each link, so that a change costs
/// one sum. It is used with the network that it was made on.
///
/// While each count is below 2^31, presses are formed in 64 bits, else in 128.
#[derive(Drop)]
pub struct Cache {
    counts: Vec<i128>,
    queued: Vec<u128>,
    large: u16,
    // Room for the presses.
    presses: Vec<u64>,
}

impl Model for Cache {
    ghost use Rattle.mp_press.specs.Weighed.{Weighed};
    ghost use Rattle.mp_press.specs.CacheView.{weighed_of, IsKept};

    ghost Value = { Weighed };

    ghost view = { weighed_of };

    ghost invariant = { IsKept };
}

impl Cache {
    /// A cache that stands for the start queues. `NoMemory` comes only where memory runs out.
    pub fn new(alloc: Global, net: &Net) -> Result<Cache, NoMemory>
        ensures is { IfOk result (λ cache. IsCacheOf net.now cache) }
        ensures starts { IfOk result (λ cache. cache.counts ≡ map (start_of net.now) (movement_numbers net.now)) }
    {
        let _ = net.shares();
        let movements = usize::from(net.movements());
        let mut counts = vec![in alloc; 0i128; movements]?;
        let mut queued = vec![in alloc; 0u128; usize::from(net.links())]?;
        let presses = vec![in alloc; 0u64; movements]?;
        put_starts(net, &mut counts);
        let large = sum_all(net, &counts, &mut queued);
        Ok(Cache {
            counts,
            queued,
            large,
            presses,
        })
    }

    /// What is queued on each link: the counts of the movements out of it, each times its share.
    pub fn queued(&self) -> &[u128]
        ensures { result.now ≡ self.now.sums }
    {
        &self.queued
    }

    /// The count of the movement changes.
    pub fn changed(&mut self, net: &Net, k: MovementNo, before: i128, after: i128)
        requires is { IsCacheOf net.now self.old }
        requires known { (1 ≤ k) × (k ≤ length net.now.movements) }
        requires before { before ≡ pos (entry self.old.counts k) }
        requires some { pos 0 ≤ℤ after }
        requires fits { unsigned_abs after ≤ 2 ^ 90 }
        ensures is { IsCacheOf net.now self.new }
        ensures value { self.new.counts ≡ slice_set self.old.counts (k - 1) (unsigned_abs after) }
    {
        let _ = net.shares();
        self.large = change(
            net,
            &mut self.counts,
            &mut self.queued,
            self.large,
            k,
            before.unsigned_abs(),
            after.unsigned_abs(),
        );
    }

    /// The counts change to these, one per movement. Each sum is formed anew, since in a period most
    /// counts change.
    pub fn renew(&mut self, net: &Net, after: &[i128])
        requires is { IsCacheOf net.now self.old }
        requires len { length after.now ≡ length net.now.movements }
        requires counts { AreCounts after.now }
        ensures is { IsCacheOf net.now self.new }
        ensures value { self.new.counts ≡ naturals after.now }
    {
        let _ = net.shares();
        self.counts.copy_from_slice(after);
        self.large = sum_all(net, &self.counts, &mut self.queued);
    }

    /// The weight of the movement, in vehicles times shares.
    pub fn weight(&self, net: &Net, k: MovementNo) -> i128
        requires is { IsCacheOf net.now self.now }
        requires known { (1 ≤ k) × (k ≤ length net.now.movements) }
        ensures { result ≡ weight net.now (entry self.now.counts) k }
    {
        difference(
            u128::from(net.shares()) * queue_of(&self.counts, k),
            behind_in(net, &self.queued, k),
        )
    }

    /// The stage of greatest pressure, and the lowest one on ties.
    pub fn choose(&mut self, net: &Net, j: JunctionNo) -> StageNo
        requires is { IsCacheOf net.now self.old }
        requires junction { (1 ≤ j) × (j ≤ length net.now.junctions) }
        ensures value { result ≡ greatest_stage net.now (entry self.old.counts) (junction_at net.now j) }
        ensures greatest { IsGreatestStage net.now (entry self.old.counts) (junction_at net.now j) result }
        ensures same { self.new ≡ self.old }
    {
        let _ = net.shares();
        choose_by(
            net,
            j,
            &self.counts,
            &self.queued,
            self.large,
            &mut self.presses,
        )
    }

    /// Makes `into` the stages of greatest pressure, one per junction. It takes no memory.
    pub fn choose_all(&mut self, net: &Net, into: &mut ArrayVec<StageNo, 64>)
        requires is { IsCacheOf net.now self.old }
        ensures value { into.new.items ≡ greatest_stages net.now (entry self.old.counts) }
        ensures greatest { AllGreatest net.now (entry self.old.counts) net.now.junctions into.new.items }
        ensures stages { AreStages net.now.junctions into.new.items }
        ensures same { self.new ≡ self.old }
    {
        let _ = net.shares();
        choose_all_by(
            net,
            &self.counts,
            &self.queued,
            self.large,
            &mut self.presses,
            into,
        );
    }
}
