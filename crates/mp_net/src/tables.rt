//! The neighbours of each link and of each junction, read off the parts.
ghost use Rattle.std.specs.Prelude.{◌≡◌, ◌==◌, ◌≤◌, filter, length, position, IfOk};
ghost use Rattle.std.specs.List.{list_any};
ghost use Rattle.mp_model.specs.Network.{link_at, link_numbers, movement_numbers, from_of, to_of, goes_to, has, is_fed, out_of, into_link, stands_in, own, fed, junction_at, junction_of_movement, first_junction};
ghost use Rattle.mp_net.specs.Parts.{network_of, junction_of};
ghost use Rattle.mp_net.specs.Small.{IsSmall};
ghost use Rattle.mp_net.specs.Rows.{IsTable, IsLinkRow, IsJunctionRow, IsTurn};

use crate::rules::stages::any_has;
use crate::{JunctionNo, JunctionPart, LinkNo, MovementNo, NetParts};
use std::alloc::{AllocError, Global};

/// The neighbours of a link, each list in ascending order.
#[derive(Drop)]
pub struct LinkRow {
    /// The movements out of the link.
    pub outs: Vec<MovementNo>,
    /// The movements into the link.
    pub intos: Vec<MovementNo>,
    /// The junction that serves the link.
    pub junction: JunctionNo,
    /// The place of the link among the fed links, from 0.
    pub fed_place: Option<usize>,
}

/// The neighbours of a junction, each list in ascending order.
#[derive(Drop)]
pub struct JunctionRow {
    /// The movements of the junction.
    pub own: Vec<MovementNo>,
    /// The links that these go to.
    pub targets: Vec<LinkNo>,
    /// The movements out of those links.
    pub next: Vec<MovementNo>,
}

/// What a period asks of a movement, without its name: the links that it goes from and to, its share in
/// parts of the share total, and its flow in vehicles per period.
#[derive(Clone, Copy)]
pub struct Turn {
    /// The link that it leaves.
    pub from: LinkNo,
    /// The link that it goes to, or none for the outside.
    pub to: Option<LinkNo>,
    /// Its share.
    pub share: u32,
    /// Its saturation flow.
    pub flow: u32,
}

/// The link that the movement leaves, or 0 where there is no such movement.
fn from_of(parts: &NetParts, k: MovementNo) -> LinkNo
    ensures { result ≡ from_of (network_of parts.now) k }
{
    match parts.movements.get(usize::from(k).saturating_sub(1)) {
        Some(movement) => movement.from,
        None => 0,
    }
}

/// The link that the movement goes to, if there is one.
fn to_of(parts: &NetParts, k: MovementNo) -> Option<LinkNo>
    ensures { result ≡ to_of (network_of parts.now) k }
{
    match parts.movements.get(usize::from(k).saturating_sub(1)) {
        Some(movement) => movement.to,
        None => None,
    }
}

fn goes_to(parts: &NetParts, k: MovementNo, l: LinkNo) -> bool
    ensures { result ≡ goes_to (to_of (network_of parts.now) k) l }
{
    match to_of(parts, k) {
        Some(to) => l == to,
        None => false,
    }
}

fn is_fed(parts: &NetParts, l: LinkNo) -> bool
    ensures { result ≡ is_fed (link_at (network_of parts.now) l) }
{
    match parts.links.get(usize::from(l).saturating_sub(1)) {
        Some(link) => link.burst > 0 || link.rate > 0,
        None => false,
    }
}

fn stands_in(junction: &JunctionPart, k: MovementNo) -> bool
    ensures { result ≡ stands_in (junction_of junction.now) k }
{
    any_has(&junction.stages, k)
}

/// The fed links.
pub fn fed(alloc: Global, parts: &NetParts) -> Result<Vec<LinkNo>, AllocError>
    requires { IsSmall parts.now }
    ensures { IfOk result (λ links. links.items ≡ fed (network_of parts.now)) }
{
    let end = parts.links.len() as LinkNo + 1;
    (1..end).filter(|l| is_fed(parts, *l)).collect(alloc)
}

/// The movements out of the link.
fn out_of(alloc: Global, parts: &NetParts, l: LinkNo) -> Result<Vec<MovementNo>, AllocError>
    requires { IsSmall parts.now }
    ensures { IfOk result (λ movements. movements.items ≡ out_of (network_of parts.now) l) }
{
    let end = parts.movements.len() as MovementNo + 1;
    (1..end).filter(|k| from_of(parts, *k) == l).collect(alloc)
}

/// The movements into the link.
fn into_link(alloc: Global, parts: &NetParts, l: LinkNo) -> Result<Vec<MovementNo>, AllocError>
    requires { IsSmall parts.now }
    ensures { IfOk result (λ movements. movements.items ≡ into_link (network_of parts.now) l) }
{
    let end = parts.movements.len() as MovementNo + 1;
    (1..end).filter(|k| goes_to(parts, *k, l)).collect(alloc)
}

/// The movements of the junction.
fn own(
    alloc: Global,
    parts: &NetParts,
    junction: &JunctionPart,
) -> Result<Vec<MovementNo>, AllocError>
    requires { IsSmall parts.now }
    ensures { IfOk result (λ movements. movements.items ≡ own (network_of parts.now) (junction_of junction.now)) }
{
    let end = parts.movements.len() as MovementNo + 1;
    (1..end).filter(|k| stands_in(junction, *k)).collect(alloc)
}

fn is_target(parts: &NetParts, movements: &[MovementNo], l: LinkNo) -> bool
    ensures { result ≡ list_any (λ k. goes_to (to_of (network_of parts.now) k) l) movements.now }
{
    movements.iter().any(|k| goes_to(parts, *k, l))
}

/// The links that some of these movements go to.
fn targets(
    alloc: Global,
    parts: &NetParts,
    movements: &[MovementNo],
) -> Result<Vec<LinkNo>, AllocError>
    requires { IsSmall parts.now }
    ensures { IfOk result (λ links. links.items ≡ filter (λ l. list_any (λ k. goes_to (to_of (network_of parts.now) k) l) movements.now) (link_numbers (network_of parts.now))) }
{
    let end = parts.links.len() as LinkNo + 1;
    (1..end)
        .filter(|l| is_target(parts, movements, *l))
        .collect(alloc)
}

/// The movements out of some of these links.
fn next(alloc: Global, parts: &NetParts, links: &[LinkNo]) -> Result<Vec<MovementNo>, AllocError>
    requires { IsSmall parts.now }
    ensures { IfOk result (λ movements. movements.items ≡ filter (λ k. has links.now (from_of (network_of parts.now) k)) (movement_numbers (network_of parts.now))) }
{
    let end = parts.movements.len() as MovementNo + 1;
    (1..end)
        .filter(|k| links.contains(&from_of(parts, *k)))
        .collect(alloc)
}

/// The first junction in whose stages the movement stands, or 0 where there is none.
#[tactic(auto, using(crate::proofs::Filled::holders))]
fn junction_of_movement(parts: &NetParts, k: MovementNo) -> JunctionNo
    requires { IsSmall parts.now }
    ensures { result ≡ junction_of_movement (network_of parts.now) k }
{
    let end = parts.junctions.len() as JunctionNo + 1;
    for j in 1..end {
        if stands_in(&parts.junctions[usize::from(j) - 1], k) {
            return j;
        }
    }
    0
}

/// The junction of the first of these movements, or 0 of none.
fn first_junction(parts: &NetParts, movements: &[MovementNo]) -> JunctionNo
    requires { IsSmall parts.now }
    ensures { result ≡ first_junction (network_of parts.now) movements.now }
{
    match movements {
        [] => 0,
        [k, ..] => junction_of_movement(parts, *k),
    }
}

fn place_of(links: &[LinkNo], l: LinkNo) -> Option<usize>
    ensures { result ≡ position (λ f. f == l) links.now }
{
    links.iter().position(|f| *f == l)
}

fn link_row(
    alloc: Global,
    parts: &NetParts,
    links: &[LinkNo],
    l: LinkNo,
) -> Result<LinkRow, AllocError>
    requires few { IsSmall parts.now }
    requires fed { links.now ≡ fed (network_of parts.now) }
    ensures { IfOk result (IsLinkRow (network_of parts.now) l) }
{
    let outs = out_of(alloc, parts, l)?;
    let junction = first_junction(parts, &outs);
    Ok(LinkRow {
        intos: into_link(alloc, parts, l)?,
        fed_place: place_of(links, l),
        junction,
        outs,
    })
}

fn junction_row(
    alloc: Global,
    parts: &NetParts,
    junction: &JunctionPart,
) -> Result<JunctionRow, AllocError>
    requires { IsSmall parts.now }
    ensures { IfOk result (IsJunctionRow (network_of parts.now) (junction_of junction.now)) }
{
    let own = own(alloc, parts, junction)?;
    let targets = targets(alloc, parts, &own)?;
    let next = next(alloc, parts, &targets)?;
    Ok(JunctionRow { own, targets, next })
}

/// One row per link, where `links` are the fed links.
#[tactic(auto, using(crate::proofs::Filled::filled))]
pub fn link_rows(
    alloc: Global,
    parts: &NetParts,
    links: &[LinkNo],
) -> Result<Vec<LinkRow>, AllocError>
    requires few { IsSmall parts.now }
    requires fed { links.now ≡ fed (network_of parts.now) }
    ensures { IfOk result (λ rows. IsTable (IsLinkRow (network_of parts.now)) (length (network_of parts.now).links) rows.items) }
{
    let end = parts.links.len() as LinkNo + 1;
    let mut rows = Vec::new(alloc);
    for l in 1..end {
        rows.push(link_row(alloc, parts, links, l)?)?;
    }
    Ok(rows)
}

/// One row per junction.
#[tactic(auto, using(crate::proofs::Filled::filled))]
pub fn junction_rows(alloc: Global, parts: &NetParts) -> Result<Vec<JunctionRow>, AllocError>
    requires { IsSmall parts.now }
    ensures { IfOk result (λ rows. IsTable (λ j. IsJunctionRow (network_of parts.now) (junction_at (network_of parts.now) j)) (length (network_of parts.now).junctions) rows.items) }
{
    let end = parts.junctions.len() as JunctionNo + 1;
    let mut rows = Vec::new(alloc);
    for j in 1..end {
        rows.push(junction_row(alloc, parts, &parts.junctions[usize::from(j) - 1])?)?;
    }
    Ok(rows)
}

fn turn_of(parts: &NetParts, k: MovementNo) -> Turn
    requires { (1 ≤ k) × (k ≤ length parts.now.movements.items) }
    ensures { IsTurn (network_of parts.now) k result }
{
    let movement = &parts.movements[usize::from(k) - 1];
    Turn {
        from: movement.from,
        to: movement.to,
        share: movement.share,
        flow: movement.flow,
    }
}

/// One short row per movement.
#[tactic(auto, using(crate::proofs::Filled::filled))]
pub fn turns(alloc: Global, parts: &NetParts) -> Result<Vec<Turn>, AllocError>
    requires { IsSmall parts.now }
    ensures { IfOk result (λ rows. IsTable (IsTurn (network_of parts.now)) (length (network_of parts.now).movements) rows.items) }
{
    let end = parts.movements.len() as MovementNo + 1;
    let mut rows = Vec::new(alloc);
    for k in 1..end {
        rows.push(turn_of(parts, k))?;
    }
    Ok(rows)
}
