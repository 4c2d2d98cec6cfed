//! What a junction heard of a link.
ghost use Rattle.std.specs.Prelude.{◌≡◌, ◌≤◌, ◌^◌, ◌∷◌, ◌++◌, [], All, pos, length, map, not, is_none, slice_index_or};
ghost use Rattle.mp_model.specs.Network.{entry, out_of};
ghost use Rattle.mp_model.specs.Arrivals.{count_in};
ghost use Rattle.mp_model.specs.EventCore.{accepted, counts_in};
ghost use Rattle.mp_press.specs.Queues.{AreCounts};
ghost use Rattle.mp_press.specs.Written.{IsAmong};
ghost use Rattle.mp_step.specs.Standing.{IsOn};

use crate::places::place_in;
use arrayvec::ArrayVec;
use mp_net::{LinkNo, MovementNo, Net};
use mp_step::State;
use std::marker::Model;

/// The counts of some movements of one junction, which has at most 24.
pub type Counts = ArrayVec<i128, 24>;

/// What a junction heard of a link: the period in which it did so, and the counts of the movements out of
/// the link then.
#[derive(Drop)]
pub struct Report {
    period: u64,
    counts: Counts,
}

impl Model for Report {
    ghost use Rattle.mp_model.specs.EventCore.{Copy};
    ghost use Rattle.mp_round.specs.Reporting.{report_of, HasReport};

    ghost Value = { Copy };

    ghost view = { report_of };

    ghost invariant = { HasReport };
}

impl Report {
    /// The counts of now of the movements out of the link.
    pub fn of(net: &Net, state: &State, l: LinkNo) -> Report
        requires on { IsOn net.now state.now }
        requires known { (1 ≤ l) × (l ≤ length net.now.links) }
        ensures { result ≡ record { period = state.now.period; counts = map (entry state.now.queues) (out_of net.now l) } }
    {
        let _ = net.shares();
        Report {
            period: state.period(),
            counts: counts_of(state, net.out_of(l)),
        }
    }

    /// A decision of this period accepts it: it is at most the delay old.
    pub fn is_fresh(&self, delay: u32, period: u64) -> bool
        ensures { result ≡ not (is_none (accepted delay period (Some self.now))) }
    {
        period.saturating_sub(u64::from(delay)) <= self.period
    }

    /// The count of a movement, where these are the movements out of the link, and 0 of another.
    pub fn count(&self, ks: &[MovementNo], k: MovementNo) -> i128
        ensures value { result ≡ pos (count_in ks.now self.now.counts k) }
        ensures few { count_in ks.now self.now.counts k ≤ 2 ^ 90 }
    {
        match place_in(ks, k) {
            Some(i) => count_at(&self.counts, i),
            None => 0,
        }
    }
}

// The count at a place, and 0 past the end.
fn count_at(counts: &[i128], i: usize) -> i128
    ensures { result ≡ slice_index_or counts.now i (pos 0) }
{
    match counts.get(i) {
        Some(count) => *count,
        None => 0,
    }
}

/// The counts of now of these movements.
pub fn counts_of(state: &State, ks: &[MovementNo]) -> Counts
    requires known { All (IsAmong (length state.now.queues)) ks.now }
    requires limit { length ks.now ≤ 24 }
    ensures items { result.items ≡ map (λ k. pos (entry state.now.queues k)) ks.now }
    ensures counts { AreCounts result.items }
{
    let _ = state.queues();
    let mut counts = Counts::new();
    for k in ks {
        counts.push(state.queue(*k));
    }
    counts
}
