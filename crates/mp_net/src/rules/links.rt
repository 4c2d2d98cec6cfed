//! The rules on links, and on the movements out of them.
ghost use Rattle.std.specs.Prelude.{◌≡◌, ◌==◌, ◌≤◌, ◌<◌, ◌*◌, ◌^◌, ◌↔◌, not, length, sum_by, IsTrue};
ghost use Rattle.std.specs.List.{find, list_any};
ghost use Rattle.mp_model.specs.Network.{link_at, from_of, share_of, out_of, is_fed, link_numbers, movement_numbers};
ghost use Rattle.mp_net.specs.Parts.{network_of};
ghost use Rattle.mp_net.specs.Small.{IsSmall};
ghost use Rattle.mp_net.specs.Marks.{HasItsLinks};
ghost use Rattle.mp_net.specs.LinkRules.{link_is_there, goes_nowhere, names_unknown_link, unknown_link, has_movement, has_bad_shares, bad_shares, no_movement_out, no_fed_link};

use crate::rules::spot::first_spot;
use crate::{LinkNo, NetParts, Spot};

fn link_is_there(parts: &NetParts, l: LinkNo) -> bool
    ensures { result ≡ link_is_there (network_of parts.now) l }
{
    l >= 1 && usize::from(l) <= parts.links.len()
}

fn goes_nowhere(parts: &NetParts, to: Option<LinkNo>) -> bool
    ensures { result ≡ goes_nowhere (network_of parts.now) to }
{
    match to {
        None => false,
        Some(l) => !link_is_there(parts, l),
    }
}

fn names_unknown_link(parts: &NetParts, k: u32) -> bool
    requires { (1 ≤ k) × (k ≤ length parts.now.movements.items) }
    ensures { result ≡ names_unknown_link (network_of parts.now) k }
{
    let movement = &parts.movements[k as usize - 1];
    !link_is_there(parts, movement.from) || goes_nowhere(parts, movement.to)
}

fn first_with_unknown_link(parts: &NetParts) -> Option<u32>
    requires { length parts.now.movements.items ≤ 512 }
    ensures { result ≡ find (names_unknown_link (network_of parts.now)) (movement_numbers (network_of parts.now)) }
{
    (1..parts.movements.len() as u32 + 1).find(|k| names_unknown_link(parts, *k))
}

/// The first movement that names a link that is not there.
pub fn unknown_link(parts: &NetParts) -> Option<Spot>
    requires { length parts.now.movements.items ≤ 512 }
    ensures { result ≡ unknown_link (network_of parts.now) }
{
    first_spot(false, None, first_with_unknown_link(parts), None)
}

/// Each movement comes from a link that is there, and goes to one or to the outside.
pub fn links_are_there(parts: &NetParts) -> bool
    requires { length parts.now.movements.items ≤ 512 }
    ensures { IsTrue result ↔ HasItsLinks (network_of parts.now) }
{
    unknown_link(parts).is_none()
}

fn leaves(parts: &NetParts, l: u32, k: u32) -> bool
    requires { (1 ≤ k) × (k ≤ length parts.now.movements.items) }
    ensures { result ≡ (from_of (network_of parts.now) k == l) }
{
    u32::from(parts.movements[k as usize - 1].from) == l
}

fn has_movement(parts: &NetParts, l: u32) -> bool
    requires { IsSmall parts.now }
    ensures { result ≡ has_movement (network_of parts.now) l }
{
    (1..parts.movements.len() as u32 + 1).any(|k| leaves(parts, l, k))
}

fn share_of(parts: &NetParts, k: u32) -> u32
    requires { (1 ≤ k) × (k ≤ length parts.now.movements.items) }
    ensures { result ≡ share_of (network_of parts.now) k }
{
    parts.movements[k as usize - 1].share
}

#[tactic(auto, using(crate::proofs::Numbers::summed))]
fn shares_out_of(parts: &NetParts, l: u32) -> u64
    requires { IsSmall parts.now }
    ensures { result ≡ sum_by (share_of (network_of parts.now)) (out_of (network_of parts.now) l) }
{
    let end = parts.movements.len() as u32 + 1;
    let mut sum = 0u64;
    for k in 1..end {
        if leaves(parts, l, k) {
            sum += u64::from(share_of(parts, k));
        }
    }
    sum
}

fn has_bad_shares(parts: &NetParts, l: u32) -> bool
    requires { IsSmall parts.now }
    ensures { result ≡ has_bad_shares (network_of parts.now) l }
{
    has_movement(parts, l) && shares_out_of(parts, l) != u64::from(parts.shares)
}

fn first_with_bad_shares(parts: &NetParts) -> Option<u32>
    requires { IsSmall parts.now }
    ensures { result ≡ find (has_bad_shares (network_of parts.now)) (link_numbers (network_of parts.now)) }
{
    (1..parts.links.len() as u32 + 1).find(|l| has_bad_shares(parts, *l))
}

/// The first link whose shares don't sum to the share total.
pub fn bad_shares(parts: &NetParts) -> Option<Spot>
    requires { IsSmall parts.now }
    ensures { result ≡ bad_shares (network_of parts.now) }
{
    first_spot(false, first_with_bad_shares(parts), None, None)
}

fn first_without_movement(parts: &NetParts) -> Option<u32>
    requires { IsSmall parts.now }
    ensures { result ≡ find (λ l. not (has_movement (network_of parts.now) l)) (link_numbers (network_of parts.now)) }
{
    (1..parts.links.len() as u32 + 1).find(|l| !has_movement(parts, *l))
}

/// The first link without a movement.
pub fn no_movement_out(parts: &NetParts) -> Option<Spot>
    requires { IsSmall parts.now }
    ensures { result ≡ no_movement_out (network_of parts.now) }
{
    first_spot(false, first_without_movement(parts), None, None)
}

fn is_fed(parts: &NetParts, l: u32) -> bool
    requires { (1 ≤ l) × (l ≤ length parts.now.links.items) }
    ensures { result ≡ is_fed (link_at (network_of parts.now) l) }
{
    let link = &parts.links[l as usize - 1];
    link.burst > 0 || link.rate > 0
}

fn any_is_fed(parts: &NetParts) -> bool
    requires { IsSmall parts.now }
    ensures { result ≡ list_any (λ l. is_fed (link_at (network_of parts.now) l)) (link_numbers (network_of parts.now)) }
{
    (1..parts.links.len() as u32 + 1).any(|l| is_fed(parts, l))
}

/// The top, where no link is fed.
pub fn no_fed_link(parts: &NetParts) -> Option<Spot>
    requires { IsSmall parts.now }
    ensures { result ≡ no_fed_link (network_of parts.now) }
{
    first_spot(!any_is_fed(parts), None, None, None)
}
