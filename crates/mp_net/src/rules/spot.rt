//! The first spot of those where a rule is broken.
ghost use Rattle.std.specs.Prelude.{◌≡◌};
ghost use Rattle.mp_net.specs.Spots.{first_spot};

use crate::{Section, Spot};

fn spot(section: Section, number: u32) -> Option<Spot>
    ensures { result ≡ Some (record { section = section; number = number }) }
{
    Some(Spot { section, number })
}

/// The first spot, in the order top, links, movements, junctions.
pub fn first_spot(
    top: bool,
    link: Option<u32>,
    movement: Option<u32>,
    junction: Option<u32>,
) -> Option<Spot>
    ensures { result ≡ first_spot top link movement junction }
{
    match (top, link, movement, junction) {
        (true, _, _, _) => spot(Section::Top, 0),
        (_, Some(l), _, _) => spot(Section::Link, l),
        (_, _, Some(k), _) => spot(Section::Movement, k),
        (_, _, _, Some(j)) => spot(Section::Junction, j),
        _ => None,
    }
}
