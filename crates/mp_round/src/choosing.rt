//! How a junction decides by its own queues and its copies.
ghost use Rattle.std.specs.Prelude.{◌≡◌, ◌≤◌, ◌-◌, ◌==◌, ◌^◌, [], map, length, pos, find, position, not};
ghost use Rattle.mp_model.specs.Network.{entry, junction_at, next, targets};
ghost use Rattle.mp_model.specs.Arrivals.{count_in};
ghost use Rattle.mp_model.specs.EventCore.{counts_in};
ghost use Rattle.mp_model.specs.Pressure.{greatest_stage_by};
ghost use Rattle.mp_press.specs.Queues.{AreCounts};
ghost use Rattle.mp_step.specs.Standing.{IsOn};
ghost use Rattle.mp_round.specs.Deciding.{is_lacking, seen_in};
ghost use Rattle.mp_round.specs.RoundView.{HasPlaces};

use crate::copies::{Copies, is_accepted};
use crate::places::place_in;
use crate::report::{Report, counts_of};
use arrayvec::ArrayVec;
use mp_net::{JunctionNo, LinkNo, MovementNo, Net, StageNo};
use mp_press::choose;
use mp_step::State;

/// The place of a link among those that the junction feeds, from 0.
pub fn place_of(net: &Net, j: JunctionNo, l: LinkNo) -> Option<usize>
    requires junction { (1 ≤ j) × (j ≤ length net.now.junctions) }
    ensures { result ≡ position (λ target. target == l) (targets net.now (junction_at net.now j)) }
{
    place_in(net.targets(j), l)
}

/// The junction has a copy of the link that a decision of this period accepts.
pub fn has_copy(net: &Net, copies: &Copies, j: JunctionNo, l: LinkNo, period: u64) -> bool
    requires junction { (1 ≤ j) × (j ≤ length net.now.junctions) }
    requires places { HasPlaces net.now copies.now }
    ensures { result ≡ not (is_lacking net.now period copies.now j l) }
{
    match place_of(net, j, l) {
        Some(place) => is_accepted(copies.at(j, place), net.delay(), period),
        None => false,
    }
}

/// The least link that the junction feeds without a copy that a decision of this period accepts.
pub fn first_stale(net: &Net, copies: &Copies, j: JunctionNo, period: u64) -> Option<LinkNo>
    requires junction { (1 ≤ j) × (j ≤ length net.now.junctions) }
    requires places { HasPlaces net.now copies.now }
    ensures { result ≡ find (is_lacking net.now period copies.now j) (targets net.now (junction_at net.now j)) }
{
    for l in net.targets(j) {
        if !has_copy(net, copies, j, *l, period) {
            return Some(*l);
        }
    }
    None
}

// The queue of a movement by the copy that the junction has of its link.
fn seen(net: &Net, copies: &Copies, j: JunctionNo, k: MovementNo) -> i128
    requires junction { (1 ≤ j) × (j ≤ length net.now.junctions) }
    requires movement { (1 ≤ k) × (k ≤ length net.now.movements) }
    requires places { HasPlaces net.now copies.now }
    ensures value { result ≡ pos (seen_in net.now copies.now j k) }
    ensures few { seen_in net.now copies.now j k ≤ 2 ^ 90 }
{
    let _ = net.shares();
    let l = net.turn(k).from;
    match place_of(net, j, l) {
        Some(place) => count_by(copies.at(j, place), net.out_of(l), k),
        None => 0,
    }
}

// The count of a movement by a copy of these movements.
fn count_by(copy: &Option<Report>, ks: &[MovementNo], k: MovementNo) -> i128
    ensures value { result ≡ pos (count_in ks.now (counts_in copy.now) k) }
    ensures few { count_in ks.now (counts_in copy.now) k ≤ 2 ^ 90 }
{
    match copy {
        Some(report) => report.count(ks, k),
        None => 0,
    }
}

// The queues of the movements behind the junction by its copies.
fn seen_next(net: &Net, copies: &Copies, j: JunctionNo) -> ArrayVec<i128, 512>
    requires junction { (1 ≤ j) × (j ≤ length net.now.junctions) }
    requires places { HasPlaces net.now copies.now }
    ensures items { result.items ≡ map (λ k. pos (seen_in net.now copies.now j k)) (next net.now (junction_at net.now j)) }
    ensures counts { AreCounts result.items }
{
    let _ = net.shares();
    let mut counts = ArrayVec::new();
    for k in net.next(j) {
        counts.push(seen(net, copies, j, *k));
    }
    counts
}

/// The stage of greatest pressure, and the lowest one on ties, by the junction's own queues of now and its
/// copies of those behind it.
pub fn choose_by(net: &Net, state: &State, copies: &Copies, j: JunctionNo) -> StageNo
    requires on { IsOn net.now state.now }
    requires junction { (1 ≤ j) × (j ≤ length net.now.junctions) }
    requires places { HasPlaces net.now copies.now }
    ensures value { result ≡ greatest_stage_by net.now (entry state.now.queues) (seen_in net.now copies.now j) (junction_at net.now j) }
    ensures stage { (1 ≤ result) × (result ≤ length (junction_at net.now j).stages) }
{
    let _ = net.shares();
    let own = counts_of(state, net.own(j));
    choose(net, j, &own, &seen_next(net, copies, j))
}
