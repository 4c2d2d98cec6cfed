//! The rules on what stands twice.
ghost use Rattle.std.specs.Prelude.{◌≡◌, ◌≤◌, ◌<◌, ◌-◌, length, map};
ghost use Rattle.std.specs.Str.{bytes_eq};
ghost use Rattle.std.specs.List.{find, list_any};
ghost use Rattle.mp_model.specs.Network.{link_at, movement_at, junction_at, link_numbers, movement_numbers, junction_numbers};
ghost use Rattle.mp_net.specs.Parts.{network_of};
ghost use Rattle.mp_net.specs.Small.{IsSmall};
ghost use Rattle.mp_net.specs.RepeatRules.{link_is_repeated, movement_is_repeated, junction_is_repeated, junction_name_is_repeated, movement_is_there, repeats_movement, repeated};

use crate::rules::spot::first_spot;
use crate::{MovementNo, NetParts, Spot};

fn same_link_name(parts: &NetParts, i: u32, l: u32) -> bool
    requires { (1 ≤ i) × (i < l) × (l ≤ length parts.now.links.items) }
    ensures { result ≡ bytes_eq (link_at (network_of parts.now) i).name (link_at (network_of parts.now) l).name }
{
    parts.links[i as usize - 1].name.bytes() == parts.links[l as usize - 1].name.bytes()
}

fn same_movement_name(parts: &NetParts, i: u32, k: u32) -> bool
    requires { (1 ≤ i) × (i < k) × (k ≤ length parts.now.movements.items) }
    ensures { result ≡ bytes_eq (movement_at (network_of parts.now) i).name (movement_at (network_of parts.now) k).name }
{
    parts.movements[i as usize - 1].name.bytes() == parts.movements[k as usize - 1].name.bytes()
}

fn same_junction_name(parts: &NetParts, i: u32, j: u32) -> bool
    requires { (1 ≤ i) × (i < j) × (j ≤ length parts.now.junctions.items) }
    ensures { result ≡ bytes_eq (junction_at (network_of parts.now) i).name (junction_at (network_of parts.now) j).name }
{
    parts.junctions[i as usize - 1].name.bytes() == parts.junctions[j as usize - 1].name.bytes()
}

fn link_is_repeated(parts: &NetParts, l: u32) -> bool
    requires { (1 ≤ l) × (l ≤ length parts.now.links.items) }
    ensures { result ≡ link_is_repeated (network_of parts.now) l }
{
    (1..l).any(|i| same_link_name(parts, i, l))
}

fn movement_is_repeated(parts: &NetParts, k: u32) -> bool
    requires { (1 ≤ k) × (k ≤ length parts.now.movements.items) }
    ensures { result ≡ movement_is_repeated (network_of parts.now) k }
{
    (1..k).any(|i| same_movement_name(parts, i, k))
}

fn junction_name_is_repeated(parts: &NetParts, j: u32) -> bool
    requires { (1 ≤ j) × (j ≤ length parts.now.junctions.items) }
    ensures { result ≡ junction_name_is_repeated (network_of parts.now) j }
{
    (1..j).any(|i| same_junction_name(parts, i, j))
}

/// The number is that of a movement.
pub fn movement_is_there(parts: &NetParts, k: MovementNo) -> bool
    ensures { result ≡ movement_is_there (network_of parts.now) k }
{
    k >= 1 && usize::from(k) <= parts.movements.len()
}

fn repeats_movement(parts: &NetParts, stage: &[MovementNo]) -> bool
    ensures { result ≡ repeats_movement (network_of parts.now) stage.now }
{
    for i in 0..stage.len() {
        let k = stage[i];
        if movement_is_there(parts, k) && stage[i + 1..].contains(&k) {
            return true;
        }
    }
    false
}

fn any_repeats(parts: &NetParts, stages: &[Vec<MovementNo>]) -> bool
    ensures { result ≡ list_any (repeats_movement (network_of parts.now)) (map (λ stage. stage.items) stages.now) }
{
    for stage in stages {
        if repeats_movement(parts, stage) {
            return true;
        }
    }
    false
}

fn junction_is_repeated(parts: &NetParts, j: u32) -> bool
    requires { (1 ≤ j) × (j ≤ length parts.now.junctions.items) }
    ensures { result ≡ junction_is_repeated (network_of parts.now) j }
{
    junction_name_is_repeated(parts, j)
        || any_repeats(parts, &parts.junctions[j as usize - 1].stages)
}

fn first_repeated_link(parts: &NetParts) -> Option<u32>
    requires { IsSmall parts.now }
    ensures { result ≡ find (link_is_repeated (network_of parts.now)) (link_numbers (network_of parts.now)) }
{
    (1..parts.links.len() as u32 + 1).find(|l| link_is_repeated(parts, *l))
}

fn first_repeated_movement(parts: &NetParts) -> Option<u32>
    requires { IsSmall parts.now }
    ensures { result ≡ find (movement_is_repeated (network_of parts.now)) (movement_numbers (network_of parts.now)) }
{
    (1..parts.movements.len() as u32 + 1).find(|k| movement_is_repeated(parts, *k))
}

fn first_repeated_junction(parts: &NetParts) -> Option<u32>
    requires { IsSmall parts.now }
    ensures { result ≡ find (junction_is_repeated (network_of parts.now)) (junction_numbers (network_of parts.now)) }
{
    (1..parts.junctions.len() as u32 + 1).find(|j| junction_is_repeated(parts, *j))
}

/// The first spot that repeats a name, or a movement in a stage.
pub fn repeated(parts: &NetParts) -> Option<Spot>
    requires { IsSmall parts.now }
    ensures { result ≡ repeated (network_of parts.now) }
{
    first_spot(
        false,
        first_repeated_link(parts),
        first_repeated_movement(parts),
        first_repeated_junction(parts),
    )
}
