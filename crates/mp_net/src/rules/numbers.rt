//! The rules on numbers.
ghost use Rattle.std.specs.Prelude.{◌≡◌, ◌≤◌, length, IfNone, false};
ghost use Rattle.std.specs.List.{find};
ghost use Rattle.mp_model.specs.Network.{link_numbers, movement_numbers, junction_numbers};
ghost use Rattle.mp_net.specs.Parts.{network_of};
ghost use Rattle.mp_net.specs.Small.{IsSmall};
ghost use Rattle.mp_net.specs.NumberRules.{outside, top_has_bad_number, link_has_bad_number, movement_has_bad_number, junction_has_bad_number, bad_number};

use crate::rules::spot::first_spot;
use crate::{NetParts, Spot};

fn outside(low: usize, high: usize, n: usize) -> bool
    ensures { result ≡ outside low high n }
{
    n < low || high < n
}

fn top_has_bad_number(parts: &NetParts) -> bool
    ensures { result ≡ top_has_bad_number (network_of parts.now) }
{
    outside(1, 1000, parts.shares as usize)
        || outside(1, 3600, parts.per as usize)
        || outside(0, 60, parts.delay as usize)
        || outside(1, 128, parts.links.len())
        || outside(1, 512, parts.movements.len())
        || outside(1, 64, parts.junctions.len())
}

fn link_has_bad_number(parts: &NetParts, l: u32) -> bool
    requires { (1 ≤ l) × (l ≤ length parts.now.links.items) }
    ensures { result ≡ link_has_bad_number (network_of parts.now) l }
{
    let link = &parts.links[l as usize - 1];
    outside(0, 10000, link.burst as usize)
        || outside(0, 1000 * parts.per as usize, link.rate as usize)
}

fn movement_has_bad_number(parts: &NetParts, k: u32) -> bool
    requires { (1 ≤ k) × (k ≤ length parts.now.movements.items) }
    ensures { result ≡ movement_has_bad_number (network_of parts.now) k }
{
    let movement = &parts.movements[k as usize - 1];
    outside(1, parts.shares as usize, movement.share as usize)
        || outside(1, 1000, movement.flow as usize)
        || outside(0, 1000000, movement.start as usize)
}

fn junction_has_bad_number(parts: &NetParts, j: u32) -> bool
    requires { (1 ≤ j) × (j ≤ length parts.now.junctions.items) }
    ensures { result ≡ junction_has_bad_number (network_of parts.now) j }
{
    outside(1, 16, parts.junctions[j as usize - 1].stages.len())
}

fn first_bad_link(parts: &NetParts) -> Option<u32>
    requires { IsSmall parts.now }
    ensures { result ≡ find (link_has_bad_number (network_of parts.now)) (link_numbers (network_of parts.now)) }
{
    (1..parts.links.len() as u32 + 1).find(|l| link_has_bad_number(parts, *l))
}

fn first_bad_movement(parts: &NetParts) -> Option<u32>
    requires { IsSmall parts.now }
    ensures { result ≡ find (movement_has_bad_number (network_of parts.now)) (movement_numbers (network_of parts.now)) }
{
    (1..parts.movements.len() as u32 + 1).find(|k| movement_has_bad_number(parts, *k))
}

fn first_bad_junction(parts: &NetParts) -> Option<u32>
    requires { IsSmall parts.now }
    ensures { result ≡ find (junction_has_bad_number (network_of parts.now)) (junction_numbers (network_of parts.now)) }
{
    (1..parts.junctions.len() as u32 + 1).find(|j| junction_has_bad_number(parts, *j))
}

/// The first spot with a number out of range.
pub fn bad_number(parts: &NetParts) -> Option<Spot>
    ensures first { result ≡ bad_number (network_of parts.now) }
    ensures small { IfNone result (IsSmall parts.now) }
{
    if top_has_bad_number(parts) {
        return first_spot(true, None, None, None);
    }
    first_spot(
        false,
        first_bad_link(parts),
        first_bad_movement(parts),
        first_bad_junction(parts),
    )
}
