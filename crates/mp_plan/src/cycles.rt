//! Links on cycles of movements, by marks on what is reached.
ghost use Rattle.std.specs.Prelude.{◌≡◌, ◌↔◌, ◌≤◌, ◌-◌, length, IsTrue, slice_set, true, unwrap_or, is_some};
ghost use Rattle.std.specs.List.{find};
ghost use Rattle.mp_model.specs.Network.{movement_numbers, to_of};
ghost use Rattle.mp_model.specs.NetworkRules.{IsAcceptable};
ghost use Rattle.mp_model.specs.Plans.{IsOnCycle};
ghost use Rattle.mp_plan.specs.Made.{IsFirstOnCycle};
ghost use Rattle.mp_plan.specs.Marks.{is_marked, is_open, is_unmarked};

use mp_cert::places::{from, target};
use mp_net::{LinkNo, MovementNo, Net};

/// As many links as a network may have.
const MOST_LINKS: usize = 128;

// Whether the link has a mark.
fn is_marked(marks: &[bool], m: LinkNo) -> bool
    ensures { result ≡ is_marked marks.now m }
{
    let i = usize::from(m).saturating_sub(1);
    i < marks.len() && marks[i]
}

// Whether the target is a link that has no mark.
fn is_unmarked(marks: &[bool], to: Option<LinkNo>) -> bool
    ensures { result ≡ is_unmarked marks.now to }
{
    match to {
        None => false,
        Some(m) => !is_marked(marks, m),
    }
}

// Whether the movement leads from link l, or from one with a mark, to a link that has none.
fn is_open(net: &Net, l: LinkNo, marks: &[bool], k: MovementNo) -> bool
    requires acceptable { IsAcceptable net.now }
    requires known { (1 ≤ k) × (k ≤ length net.now.movements) }
    ensures { result ≡ is_open net.now l marks.now k }
{
    let leaves = from(net, k);
    (leaves == l || is_marked(marks, leaves)) && is_unmarked(marks, target(net, k))
}

// The first movement that leads to a link without a mark.
fn first_open(net: &Net, l: LinkNo, marks: &[bool]) -> Option<MovementNo>
    requires acceptable { IsAcceptable net.now }
    ensures { result ≡ find (is_open net.now l marks.now) (movement_numbers net.now) }
{
    (1..net.movements() + 1).find(|k| is_open(net, l, marks, *k))
}

// Marks the target of the movement.
fn mark(net: &Net, marks: &mut [bool], k: MovementNo)
    requires acceptable { IsAcceptable net.now }
    requires known { (1 ≤ k) × (k ≤ length net.now.movements) }
    requires target { IsTrue (is_some (to_of net.now k)) }
    requires room { length net.now.links ≤ length marks.old }
    ensures { marks.new ≡ slice_set marks.old (unwrap_or (to_of net.now k) 0 - 1) true }
{
    match target(net, k) {
        Some(m) => marks[usize::from(m) - 1] = true,
        None => unreachable!(),
    }
}

// Whether a chain of movements leads from the link back to it.
fn is_on_cycle(net: &Net, l: LinkNo) -> bool
    requires acceptable { IsAcceptable net.now }
    requires known { (1 ≤ l) × (l ≤ length net.now.links) }
    ensures { IsTrue result ↔ IsOnCycle net.now l }
{
    let mut marks = [false; MOST_LINKS];
    while let Some(k) = first_open(net, l, &marks) {
        mark(net, &mut marks, k);
    }
    is_marked(&marks, l)
}

/// The least link from which a chain of movements leads back to it.
pub fn first_on_cycle(net: &Net) -> Option<LinkNo>
    ensures { IsFirstOnCycle net.now result }
{
    let _shares = net.shares();
    for l in 0..net.links() {
        if is_on_cycle(net, l + 1) {
            return Some(l + 1);
        }
    }
    None
}
