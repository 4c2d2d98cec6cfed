// The bucket levels after a period.
ghost use Rattle.std.specs.Prelude.{◌≡◌, ◌≤◌, ◌<◌, ◌+◌, ◌*◌, ◌^◌, All, IsNone, IfSome, IfOk, OnOk, [], ◌∷◌, ◌++◌, length, map};
ghost use Rattle.std.specs.List.{AllByRecursion};
ghost use Rattle.mp_model.specs.Network.{Network, link_numbers, link_at, entry};
ghost use Rattle.mp_model.specs.Arrivals.{HasCounts, next_level};
ghost use Rattle.mp_press.specs.Queues.{naturals};
ghost use Rattle.mp_step.specs.BucketLevels.{buckets_of, level_then, first_above, AreWithin, IsRoom};

use crate::cells::{level_of, put_number};
use mp_feed::{Above, Bucket, NoMemory};
use mp_net::{LinkNo, Net};
use std::alloc::{AllocError, Global};

// The level after so many arrivals, or none where it would be above the bucket.
fn level_after(bucket: &Bucket, level: u64, came: u64) -> Option<u64>
    requires level { level ≤ bucket.now.per * bucket.now.burst }
    requires digits { came < 10 ^ 9 }
    ensures some { IfSome result (λ next. (next ≡ next_level bucket.now.per bucket.now.rate level came) × (next ≤ bucket.now.per * bucket.now.burst)) }
    ensures none { IsNone result → bucket.now.per * bucket.now.burst < next_level bucket.now.per bucket.now.rate level came }
{
    let mut bucket = bucket.at_level(level);
    match bucket.offer(came) {
        Ok(()) => Some(bucket.level()),
        Err(Above) => None,
    }
}

/// Writes the next levels of the fed links, or answers the least of them that would be above its bucket.
/// The level of any other link is 0 before and after.
pub fn levels_after(
    net: &Net,
    buckets: &[Bucket],
    levels: &[i128],
    arrivals: &[u64],
    next: &mut [i128],
) -> Option<LinkNo>
    requires counts { HasCounts net.now arrivals.now }
    requires digits { All (λ a. a < 10 ^ 9) arrivals.now }
    requires buckets { buckets.now ≡ buckets_of net.now }
    requires levels { length levels.now ≡ length net.now.links }
    requires fits { All (λ level. level < 2 ^ 64) (naturals levels.now) }
    requires within { AllByRecursion (λ l. entry (naturals levels.now) l ≤ net.now.per * (link_at net.now l).burst) (link_numbers net.now) }
    requires next_within { AreWithin buckets.now (naturals next.old) }
    ensures next_within { AreWithin buckets.now (naturals next.new) }
    ensures above { result ≡ first_above net.now (entry (naturals levels.now)) arrivals.now }
    ensures value { IsNone result → naturals next.new ≡ map (level_then net.now (entry (naturals levels.now)) arrivals.now) (link_numbers net.now) }
{
    let fed = net.fed();
    for i in 0..fed.len() {
        let at = usize::from(fed[i]) - 1;
        let before = level_of(levels, fed[i]);
        let Some(level) = level_after(&buckets[at], before, arrivals[i]) else {
            return Some(fed[i]);
        };
        put_number(next, fed[i], u128::from(level));
    }
    None
}

/// The greatest count of arrivals that the bucket of a link takes.
pub fn room_of(buckets: &[Bucket], levels: &[i128], l: LinkNo) -> u64
    requires within { AreWithin buckets.now (naturals levels.now) }
    requires fits { All (λ level. level < 2 ^ 64) (naturals levels.now) }
    requires known { (1 ≤ l) × (l ≤ length buckets.now) }
    ensures { (net : Network) → buckets.now ≡ buckets_of net → IsRoom net (entry (naturals levels.now)) l result }
{
    buckets[usize::from(l) - 1]
        .at_level(level_of(levels, l))
        .room()
}

fn add_bucket(buckets: &mut Vec<Bucket>, bucket: Bucket) -> Result<(), AllocError>
    ensures { OnOk result (buckets.new.items ≡ buckets.old.items ++ bucket ∷ []) }
{
    buckets.push(bucket)?;
    Ok(())
}

/// The empty bucket of each link.
pub fn make_buckets(alloc: Global, net: &Net) -> Result<Vec<Bucket>, NoMemory>
    ensures { IfOk result (λ v. v.items ≡ buckets_of net.now) }
{
    let _ = net.shares();
    let mut buckets = Vec::with_capacity(alloc, usize::from(net.links()))?;
    for i in 0..net.links() {
        let link = net.link(i + 1);
        let bucket = Bucket::new(net.per(), link.burst, link.rate);
        add_bucket(&mut buckets, bucket)?;
    }
    Ok(buckets)
}
