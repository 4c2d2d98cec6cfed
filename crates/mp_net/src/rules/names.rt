//! The rule on the names of links, and what the type of a name says of all names.
ghost use Rattle.std.specs.Prelude.{◌≡◌, ◌≤◌, length, map, true};
ghost use Rattle.std.specs.List.{find, list_all};
ghost use Rattle.mp_model.specs.Network.{link_numbers};
ghost use Rattle.mp_model.specs.Names.{is_name};
ghost use Rattle.mp_net.specs.Parts.{network_of, link_of, movement_of, junction_of};
ghost use Rattle.mp_net.specs.Small.{IsSmall};
ghost use Rattle.mp_net.specs.Named.{IsNamed};
ghost use Rattle.mp_net.specs.NumberRules.{is_named_out, bad_link_name};

use crate::rules::spot::first_spot;
use crate::{JunctionPart, LinkPart, MovementPart, NetParts, Spot};

fn is_named_out(parts: &NetParts, l: u32) -> bool
    requires { (1 ≤ l) × (l ≤ length parts.now.links.items) }
    ensures { result ≡ is_named_out (network_of parts.now) l }
{
    parts.links[l as usize - 1].name.bytes() == b"out".as_slice()
}

fn first_named_out(parts: &NetParts) -> Option<u32>
    requires { IsSmall parts.now }
    ensures { result ≡ find (is_named_out (network_of parts.now)) (link_numbers (network_of parts.now)) }
{
    (1..parts.links.len() as u32 + 1).find(|l| is_named_out(parts, *l))
}

/// The first link that is named `out`.
pub fn bad_link_name(parts: &NetParts) -> Option<Spot>
    requires { IsSmall parts.now }
    ensures { result ≡ bad_link_name (network_of parts.now) }
{
    first_spot(false, first_named_out(parts), None, None)
}

fn links_have_names(links: &[LinkPart])
    ensures { list_all (λ link. is_name link.name) (map link_of links.now) ≡ true }
{
    for link in links {
        let _name = link.name.bytes();
    }
}

fn movements_have_names(movements: &[MovementPart])
    ensures { list_all (λ movement. is_name movement.name) (map movement_of movements.now) ≡ true }
{
    for movement in movements {
        let _name = movement.name.bytes();
    }
}

fn junctions_have_names(junctions: &[JunctionPart])
    ensures { list_all (λ junction. is_name junction.name) (map junction_of junctions.now) ≡ true }
{
    for junction in junctions {
        let _name = junction.name.bytes();
    }
}

/// Each part has a name, as its type says.
pub fn parts_have_names(parts: &NetParts)
    ensures { IsNamed (network_of parts.now) }
{
    links_have_names(&parts.links);
    movements_have_names(&parts.movements);
    junctions_have_names(&parts.junctions);
}
