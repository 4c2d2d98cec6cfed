//! Ways out, by marks from the outside inwards.
ghost use Rattle.std.specs.Prelude.{◌≡◌, ◌==◌, ◌&&◌, ◌≤◌, ◌-◌, ◌^◌, not, length, IfOk, true, slice_set};
ghost use Rattle.std.specs.List.{find};
ghost use Rattle.mp_model.specs.Network.{from_of, to_of, link_numbers, numbers_to};
ghost use Rattle.mp_net.specs.Parts.{network_of};
ghost use Rattle.mp_net.specs.WayRules.{goes_on, has_way_out, no_way_out};
ghost use Rattle.mp_net.specs.Marks.{is_marked, HasItsLinks, IsFirstWithoutWay, IsNextRound};

use crate::rules::spot::first_spot;
use crate::{LinkNo, NetParts, NoMemory, Spot};
use std::alloc::Global;

fn is_marked(marks: &[bool], l: LinkNo) -> bool
    ensures { result ≡ is_marked marks.now l }
{
    let i = usize::from(l).saturating_sub(1);
    i < marks.len() && marks[i]
}

fn mark(marks: &mut Vec<bool>, l: LinkNo)
    requires { (1 ≤ l) × (l ≤ length marks.old.items) }
    ensures { marks.new.items ≡ slice_set marks.old.items (l - 1) true }
{
    marks[usize::from(l) - 1] = true;
}

fn goes_on(marks: &[bool], to: Option<LinkNo>) -> bool
    ensures { result ≡ goes_on (is_marked marks.now) to }
{
    match to {
        None => true,
        Some(l) => is_marked(marks, l),
    }
}

fn leads_outside(parts: &NetParts, marks: &[bool], k: usize) -> bool
    requires { (1 ≤ k) × (k ≤ length parts.now.movements.items) }
    ensures { result ≡ goes_on (is_marked marks.now) (to_of (network_of parts.now) k) }
{
    goes_on(marks, parts.movements[k - 1].to)
}

fn from_of(parts: &NetParts, k: usize) -> LinkNo
    requires { (1 ≤ k) × (k ≤ length parts.now.movements.items) }
    ensures { result ≡ from_of (network_of parts.now) k }
{
    parts.movements[k - 1].from
}

/// The marks after one more round.
fn next_marks(alloc: Global, parts: &NetParts, marks: &[bool]) -> Result<Vec<bool>, NoMemory>
    requires { HasItsLinks (network_of parts.now) }
    ensures { IfOk result (λ next. IsNextRound (network_of parts.now) marks.now next.items) }
{
    let mut next = vec![in alloc; false; parts.links.len()]?;
    let end = parts.movements.len() + 1;
    for k in 1..end {
        if leads_outside(parts, marks, k) {
            mark(&mut next, from_of(parts, k));
        }
    }
    Ok(next)
}

fn first_unmarked(marks: &[bool], links: usize) -> Option<LinkNo>
    requires { links ≤ 128 }
    ensures { result ≡ find (λ l. not (is_marked marks.now l)) (numbers_to links) }
{
    (1..links as LinkNo + 1).find(|l| !is_marked(marks, *l))
}

/// Marks each link with a way out, in as many rounds as there are links.
fn first_without_way(alloc: Global, parts: &NetParts) -> Result<Option<LinkNo>, NoMemory>
    requires few { length parts.now.links.items ≤ 128 }
    requires links { HasItsLinks (network_of parts.now) }
    ensures found { IfOk result (λ found. found ≡ find (λ l. not (has_way_out (network_of parts.now) l)) (link_numbers (network_of parts.now))) }
    ensures first { IfOk result (IsFirstWithoutWay (network_of parts.now)) }
{
    let n = parts.links.len();
    let mut marks = Vec::new(alloc);
    for _round in 0..n {
        marks = next_marks(alloc, parts, &marks)?;
    }
    Ok(first_unmarked(&marks, n))
}

/// The least link from which no chain of movements leads to the outside.
/// Refuses only where memory can't be had.
pub fn way_out(alloc: Global, parts: &NetParts) -> Result<Option<LinkNo>, NoMemory>
    requires few { length parts.now.links.items ≤ 128 }
    requires links { HasItsLinks (network_of parts.now) }
    ensures { IfOk result (IsFirstWithoutWay (network_of parts.now)) }
{
    first_without_way(alloc, parts)
}

/// The first link without a way out.
pub(crate) fn no_way_out(alloc: Global, parts: &NetParts) -> Result<Option<Spot>, NoMemory>
    requires few { length parts.now.links.items ≤ 128 }
    requires links { HasItsLinks (network_of parts.now) }
    ensures { IfOk result (λ spot. spot ≡ no_way_out (network_of parts.now)) }
{
    let found = first_without_way(alloc, parts)?;
    Ok(first_spot(false, found.map(u32::from), None, None))
}
