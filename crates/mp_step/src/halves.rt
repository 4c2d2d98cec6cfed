//! One half of the cells of a run, from the other.
ghost use Rattle.std.specs.Prelude.{◌≡◌, ◌≤◌, ◌<◌, ◌+◌, ◌*◌, ◌%◌, ◌^◌, All, None, Some, IfOk, IfErr, OnOk, length, map, sum_by};
ghost use Rattle.std.specs.List.{AllByRecursion};
ghost use Rattle.mp_model.specs.Network.{movement_numbers, link_numbers, link_at, entry};
ghost use Rattle.mp_model.specs.NetworkRules.{IsAcceptable};
ghost use Rattle.mp_model.specs.Arrivals.{arrivals_of, HasCounts};
ghost use Rattle.mp_press.specs.Queues.{naturals, NoneNegative, AreCounts};
ghost use Rattle.mp_step.specs.BucketLevels.{buckets_of, level_then, first_above, AreWithin};
ghost use Rattle.mp_step.specs.Halves.{queues_in, phases_in, levels_in, half_of};
ghost use Rattle.mp_step.specs.Standing.{moved, received, splits_of};

use crate::levels::levels_after;
use crate::moving::move_all;
use mp_feed::{Bucket, Splitter};
use mp_net::{LinkNo, Net};

/// Writes the levels, queues and phases after the period into the other half, and answers the sum of
/// the arrivals, or the least link that would be above its bucket.
pub fn write_half(
    net: &Net,
    splits: &[Splitter],
    buckets: &[Bucket],
    arrivals: &[u64],
    passes: &[u32],
    parts: &mut [u64],
    now: &[i128],
    next: &mut [i128],
) -> Result<u64, LinkNo>
    requires acceptable { IsAcceptable net.now }
    requires splits { map (λ split. split.shares) splits.now ≡ splits_of net.now }
    requires buckets { buckets.now ≡ buckets_of net.now }
    requires arrivals { HasCounts net.now arrivals.now }
    requires digits { All (λ a. a < 10 ^ 9) arrivals.now }
    requires size { length passes.now ≡ length net.now.movements }
    requires each { All (λ y. y ≤ 1000) passes.now }
    requires room { length parts.old ≡ length net.now.movements }
    requires now_size { length now.now ≡ half_of (length net.now.movements) (length net.now.links) }
    requires next_size { length next.old ≡ half_of (length net.now.movements) (length net.now.links) }
    requires counts { AreCounts (queues_in (length net.now.movements) now.now) }
    requires phase_in { All (λ phase. phase < net.now.shares) (naturals (phases_in (length net.now.movements) (length net.now.links) now.now)) }
    requires phase_fits { All (λ phase. phase < 2 ^ 32) (naturals (phases_in (length net.now.movements) (length net.now.links) now.now)) }
    requires level_fits { All (λ level. level < 2 ^ 64) (naturals (levels_in (length net.now.movements) (length net.now.links) now.now)) }
    requires within { AllByRecursion (λ l. entry (naturals (levels_in (length net.now.movements) (length net.now.links) now.now)) l ≤ net.now.per * (link_at net.now l).burst) (link_numbers net.now) }
    requires next_within { AreWithin buckets.now (naturals (levels_in (length net.now.movements) (length net.now.links) next.old)) }
    ensures above { IfErr result (λ link. first_above net.now (entry (naturals (levels_in (length net.now.movements) (length net.now.links) now.now))) arrivals.now ≡ Some link) }
    ensures within { OnOk result (first_above net.now (entry (naturals (levels_in (length net.now.movements) (length net.now.links) now.now))) arrivals.now ≡ None) }
    ensures came { IfOk result (λ came. came ≡ sum_by (arrivals_of net.now arrivals.now) (link_numbers net.now)) }
    ensures few { IfOk result (λ came. came ≤ 2 ^ 37) }
    ensures next_within { AreWithin buckets.now (naturals (levels_in (length net.now.movements) (length net.now.links) next.new)) }
    ensures some { NoneNegative (queues_in (length net.now.movements) next.old) → NoneNegative (queues_in (length net.now.movements) next.new) }
    ensures queues { OnOk result (naturals (queues_in (length net.now.movements) next.new) ≡ map (moved net.now arrivals.now (entry (naturals (phases_in (length net.now.movements) (length net.now.links) now.now))) (entry (naturals (queues_in (length net.now.movements) now.now))) (entry passes.now)) (movement_numbers net.now)) }
    ensures phases { OnOk result (naturals (phases_in (length net.now.movements) (length net.now.links) next.new) ≡ map (λ l. (entry (naturals (phases_in (length net.now.movements) (length net.now.links) now.now)) l + received net.now arrivals.now (entry passes.now) l) % net.now.shares) (link_numbers net.now)) }
    ensures levels { OnOk result (naturals (levels_in (length net.now.movements) (length net.now.links) next.new) ≡ map (level_then net.now (entry (naturals (levels_in (length net.now.movements) (length net.now.links) now.now))) arrivals.now) (link_numbers net.now)) }
{
    let movements = usize::from(net.movements());
    let links = usize::from(net.links());
    let (queues, rest) = now.split_at(movements);
    let (phases, levels) = rest.split_at(links);
    let (next_queues, rest) = next.split_at_mut(movements);
    let (next_phases, next_levels) = rest.split_at_mut(links);
    if let Some(link) = levels_after(net, buckets, levels, arrivals, next_levels) {
        return Err(link);
    }
    Ok(move_all(
        net,
        splits,
        arrivals,
        phases,
        queues,
        passes,
        parts,
        next_queues,
        next_phases,
    ))
}
