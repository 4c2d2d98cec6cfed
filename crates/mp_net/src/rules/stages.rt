//! The rules on junctions and their stages.
ghost use Rattle.std.specs.Prelude.{◌≡◌, ◌≤◌, ◌<◌, ◌-◌, not, length, map};
ghost use Rattle.std.specs.List.{find, list_any};
ghost use Rattle.mp_model.specs.Network.{junction_at, link_numbers, movement_numbers, junction_numbers, numbers_to, has, own, stands_in};
ghost use Rattle.mp_net.specs.Parts.{network_of};
ghost use Rattle.mp_net.specs.Small.{IsSmall};
ghost use Rattle.mp_net.specs.RepeatRules.{movement_is_there};
ghost use Rattle.mp_net.specs.StageRules.{names_unknown_movement, leaves_link, serves_link, is_served_twice, has_bad_stage, bad_stage, is_unserved, unserved};

use crate::rules::repeats::movement_is_there;
use crate::rules::spot::first_spot;
use crate::{LinkNo, MovementNo, NetParts, Spot};

pub fn any_has(stages: &[Vec<MovementNo>], k: MovementNo) -> bool
    ensures { result ≡ list_any (λ stage. has stage k) (map (λ stage. stage.items) stages.now) }
{
    for stage in stages {
        if stage.contains(&k) {
            return true;
        }
    }
    false
}

fn stands_in(parts: &NetParts, j: u32, k: MovementNo) -> bool
    requires { (1 ≤ j) × (j ≤ length parts.now.junctions.items) }
    ensures { result ≡ stands_in (junction_at (network_of parts.now) j) k }
{
    any_has(&parts.junctions[j as usize - 1].stages, k)
}

fn is_unknown_in(parts: &NetParts, stage: &[MovementNo]) -> bool
    ensures { result ≡ list_any (λ k. not (movement_is_there (network_of parts.now) k)) stage.now }
{
    stage.iter().any(|k| !movement_is_there(parts, *k))
}

fn names_unknown_movement(parts: &NetParts, j: u32) -> bool
    requires { (1 ≤ j) × (j ≤ length parts.now.junctions.items) }
    ensures { result ≡ names_unknown_movement (network_of parts.now) (junction_at (network_of parts.now) j) }
{
    any_is_unknown(parts, &parts.junctions[j as usize - 1].stages)
}

fn any_is_unknown(parts: &NetParts, stages: &[Vec<MovementNo>]) -> bool
    ensures { result ≡ list_any (list_any (λ k. not (movement_is_there (network_of parts.now) k))) (map (λ stage. stage.items) stages.now) }
{
    for stage in stages {
        if is_unknown_in(parts, stage) {
            return true;
        }
    }
    false
}

fn leaves_link(parts: &NetParts, l: LinkNo, k: MovementNo) -> bool
    ensures { result ≡ leaves_link (network_of parts.now) l k }
{
    movement_is_there(parts, k) && parts.movements[usize::from(k) - 1].from == l
}

fn leaves_in(parts: &NetParts, l: LinkNo, stage: &[MovementNo]) -> bool
    ensures { result ≡ list_any (leaves_link (network_of parts.now) l) stage.now }
{
    stage.iter().any(|k| leaves_link(parts, l, *k))
}

fn any_leaves(parts: &NetParts, l: LinkNo, stages: &[Vec<MovementNo>]) -> bool
    ensures { result ≡ list_any (list_any (leaves_link (network_of parts.now) l)) (map (λ stage. stage.items) stages.now) }
{
    for stage in stages {
        if leaves_in(parts, l, stage) {
            return true;
        }
    }
    false
}

fn serves_link(parts: &NetParts, l: LinkNo, j: u32) -> bool
    requires { (1 ≤ j) × (j ≤ length parts.now.junctions.items) }
    ensures { result ≡ serves_link (network_of parts.now) l (junction_at (network_of parts.now) j) }
{
    any_leaves(parts, l, &parts.junctions[j as usize - 1].stages)
}

fn is_served_before(parts: &NetParts, l: LinkNo, j: u32) -> bool
    requires { (1 ≤ j) × (j ≤ length parts.now.junctions.items) }
    ensures { result ≡ list_any (λ i. serves_link (network_of parts.now) l (junction_at (network_of parts.now) i)) (numbers_to (j - 1)) }
{
    (1..j).any(|i| serves_link(parts, l, i))
}

fn is_served_twice(parts: &NetParts, j: u32, l: LinkNo) -> bool
    requires { (1 ≤ j) × (j ≤ length parts.now.junctions.items) }
    ensures { result ≡ is_served_twice (network_of parts.now) j l }
{
    serves_link(parts, l, j) && is_served_before(parts, l, j)
}

fn any_is_served_twice(parts: &NetParts, j: u32) -> bool
    requires small { IsSmall parts.now }
    requires junction { (1 ≤ j) × (j ≤ length parts.now.junctions.items) }
    ensures { result ≡ list_any (is_served_twice (network_of parts.now) j) (link_numbers (network_of parts.now)) }
{
    (1..parts.links.len() as LinkNo + 1).any(|l| is_served_twice(parts, j, l))
}

fn count_own(parts: &NetParts, j: u32) -> usize
    requires small { IsSmall parts.now }
    requires junction { (1 ≤ j) × (j ≤ length parts.now.junctions.items) }
    ensures { result ≡ length (own (network_of parts.now) (junction_at (network_of parts.now) j)) }
{
    (1..parts.movements.len() as MovementNo + 1)
        .filter(|k| stands_in(parts, j, *k))
        .count()
}

fn has_bad_stage(parts: &NetParts, j: u32) -> bool
    requires small { IsSmall parts.now }
    requires junction { (1 ≤ j) × (j ≤ length parts.now.junctions.items) }
    ensures { result ≡ has_bad_stage (network_of parts.now) j }
{
    names_unknown_movement(parts, j) || any_is_served_twice(parts, j) || count_own(parts, j) > 24
}

fn first_with_bad_stage(parts: &NetParts) -> Option<u32>
    requires { IsSmall parts.now }
    ensures { result ≡ find (has_bad_stage (network_of parts.now)) (junction_numbers (network_of parts.now)) }
{
    (1..parts.junctions.len() as u32 + 1).find(|j| has_bad_stage(parts, *j))
}

/// The first junction with a stage that is not right.
pub fn bad_stage(parts: &NetParts) -> Option<Spot>
    requires { IsSmall parts.now }
    ensures { result ≡ bad_stage (network_of parts.now) }
{
    first_spot(false, None, None, first_with_bad_stage(parts))
}

fn is_served(parts: &NetParts, k: u32) -> bool
    requires small { IsSmall parts.now }
    requires movement { (1 ≤ k) × (k ≤ length parts.now.movements.items) }
    ensures { result ≡ list_any (λ j. stands_in (junction_at (network_of parts.now) j) k) (junction_numbers (network_of parts.now)) }
{
    (1..parts.junctions.len() as u32 + 1).any(|j| stands_in(parts, j, k as MovementNo))
}

fn first_unserved(parts: &NetParts) -> Option<u32>
    requires { IsSmall parts.now }
    ensures { result ≡ find (is_unserved (network_of parts.now)) (movement_numbers (network_of parts.now)) }
{
    (1..parts.movements.len() as u32 + 1).find(|k| !is_served(parts, *k))
}

/// The first movement that stands in no stage.
pub fn unserved(parts: &NetParts) -> Option<Spot>
    requires { IsSmall parts.now }
    ensures { result ≡ unserved (network_of parts.now) }
{
    first_spot(false, None, first_unserved(parts), None)
}
