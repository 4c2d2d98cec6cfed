//! The cells of a run.
ghost use Rattle.std.specs.Prelude.{◌≡◌, ◌≤◌, ◌<◌, ◌+◌, ◌*◌, ◌%◌, ◌^◌, ℕ, All, None, Some, IfOk, IfErr, OnOk, length, map, sum_by};
ghost use Rattle.std.specs.List.{AllByRecursion};
ghost use Rattle.mp_model.specs.Network.{movement_numbers, link_numbers, link_at, entry};
ghost use Rattle.mp_model.specs.NetworkRules.{IsAcceptable};
ghost use Rattle.mp_model.specs.Arrivals.{arrivals_of, HasCounts};
ghost use Rattle.mp_press.specs.Queues.{naturals, NoneNegative, AreCounts};
ghost use Rattle.mp_step.specs.BucketLevels.{buckets_of, level_then, first_above, AreWithin};
ghost use Rattle.mp_step.specs.Held.{opening_cells, flipped};
ghost use Rattle.mp_step.specs.Standing.{moved, received, splits_of};

use crate::halves::write_half;
use crate::starts::start_queues;
use mp_feed::{Bucket, NoMemory, Splitter};
use mp_net::{LinkNo, Net};
use mp_region::{Region, Span};
use std::alloc::Global;
use std::marker::Model;

/// The queue of each movement, and the phase and the bucket level of each link, of now and after the
/// period: six spans of one region, first the three of one side and then those of the other.
#[derive(Drop)]
pub struct Spans {
    region: Region,
    queues: Span,
    phases: Span,
    levels: Span,
    next_queues: Span,
    next_phases: Span,
    next_levels: Span,
}

impl Model for Spans {
    ghost use Rattle.mp_step.specs.Held.{Held};
    ghost use Rattle.mp_step.specs.SpansView.{held_in, IsLaid};

    ghost Value = { Held };

    ghost view = { held_in };

    ghost invariant = { IsLaid };
}

impl Spans {
    /// The cells of the opening: the start queues, and 0 in all others.
    pub fn open(alloc: Global, net: &Net) -> Result<Spans, NoMemory>
        ensures { IfOk result (λ s. s ≡ opening_cells net.now) }
    {
        let _ = net.shares();
        let movements = usize::from(net.movements());
        let links = usize::from(net.links());
        let Ok(mut region) = Region::new(alloc, 2 * movements + 4 * links) else {
            return Err(NoMemory);
        };
        let (queues, _) = region.cells_mut().split_at_mut(movements);
        start_queues(net, queues);
        Ok(Spans {
            queues: carve(&mut region, movements),
            phases: carve(&mut region, links),
            levels: carve(&mut region, links),
            next_queues: carve(&mut region, movements),
            next_phases: carve(&mut region, links),
            next_levels: carve(&mut region, links),
            region,
        })
    }

    /// The queues of now.
    pub fn queues(&self) -> &[i128]
        ensures value { result.now ≡ self.now.queues }
    {
        self.region.part(&self.queues)
    }

    /// The phases of now.
    pub fn phases(&self) -> &[i128]
        ensures value { result.now ≡ self.now.phases }
    {
        self.region.part(&self.phases)
    }

    /// The levels of now.
    pub fn levels(&self) -> &[i128]
        ensures value { result.now ≡ self.now.levels }
    {
        self.region.part(&self.levels)
    }

    /// Writes what is after the period, and answers the sum of the arrivals, or the least link that would
    /// be above its bucket. What is now stays.
    pub fn write_next(
        &mut self,
        net: &Net,
        splits: &[Splitter],
        buckets: &[Bucket],
        arrivals: &[u64],
        passes: &[u32],
        parts: &mut [u64],
    ) -> Result<u64, LinkNo>
        requires acceptable { IsAcceptable net.now }
        requires splits { map (λ split. split.shares) splits.now ≡ splits_of net.now }
        requires buckets { buckets.now ≡ buckets_of net.now }
        requires arrivals { HasCounts net.now arrivals.now }
        requires digits { All (λ a. a < 10 ^ 9) arrivals.now }
        requires size { length passes.now ≡ length net.now.movements }
        requires each { All (λ y. y ≤ 1000) passes.now }
        requires room { length parts.old ≡ length net.now.movements }
        requires movements { length self.old.queues ≡ length net.now.movements }
        requires links { length self.old.phases ≡ length net.now.links }
        requires counts { AreCounts self.old.queues }
        requires phase_in { All (λ phase. phase < net.now.shares) (naturals self.old.phases) }
        requires phase_fits { All (λ phase. phase < 2 ^ 32) (naturals self.old.phases) }
        requires level_fits { All (λ level. level < 2 ^ 64) (naturals self.old.levels) }
        requires within { AllByRecursion (λ l. entry (naturals self.old.levels) l ≤ net.now.per * (link_at net.now l).burst) (link_numbers net.now) }
        requires next_within { AreWithin buckets.now (naturals self.old.next_levels) }
        ensures now { (self.new.queues ≡ self.old.queues) × (self.new.phases ≡ self.old.phases) × (self.new.levels ≡ self.old.levels) }
        ensures above { IfErr result (λ link. first_above net.now (entry (naturals self.old.levels)) arrivals.now ≡ Some link) }
        ensures within { OnOk result (first_above net.now (entry (naturals self.old.levels)) arrivals.now ≡ None) }
        ensures came { IfOk result (λ came. came ≡ sum_by (arrivals_of net.now arrivals.now) (link_numbers net.now)) }
        ensures few { IfOk result (λ came. came ≤ 2 ^ 37) }
        ensures next_within { AreWithin buckets.now (naturals self.new.next_levels) }
        ensures some { NoneNegative self.old.next_queues → NoneNegative self.new.next_queues }
        ensures queues { OnOk result (naturals self.new.next_queues ≡ map (moved net.now arrivals.now (entry (naturals self.old.phases)) (entry (naturals self.old.queues)) (entry passes.now)) (movement_numbers net.now)) }
        ensures phases { OnOk result (naturals self.new.next_phases ≡ map (λ l. (entry (naturals self.old.phases) l + received net.now arrivals.now (entry passes.now) l) % net.now.shares) (link_numbers net.now)) }
        ensures levels { OnOk result (naturals self.new.next_levels ≡ map (level_then net.now (entry (naturals self.old.levels)) arrivals.now) (link_numbers net.now)) }
    {
        let half = self.queues.len() + 2 * self.phases.len();
        let is_first = self.queues.at() == 0;
        let (first, second) = self.region.cells_mut().split_at_mut(half);
        if is_first {
            return write_half(net, splits, buckets, arrivals, passes, parts, first, second);
        }
        write_half(net, splits, buckets, arrivals, passes, parts, second, first)
    }

    /// Makes what is after the period what is now. No cell is touched.
    pub fn flip(&mut self)
        ensures { self.new ≡ flipped self.old }
    {
        self.region.flip(&mut self.queues, &mut self.next_queues);
        self.region.flip(&mut self.phases, &mut self.next_phases);
        self.region.flip(&mut self.levels, &mut self.next_levels);
    }
}

// The span of the next cells of a region that has as many.
fn carve(region: &mut Region, n: usize) -> Span
    requires { region.old.used + n ≤ length region.old.cells }
    ensures span { result ≡ record { at = region.old.used; len = n } }
    ensures used { region.new ≡ record region.old { used = region.old.used + n } }
{
    match region.carve(n) {
        Some(span) => span,
        None => unreachable!(),
    }
}
