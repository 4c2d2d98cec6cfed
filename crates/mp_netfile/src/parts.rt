//! The parts of a network from a tree of the right keys, types, numbers and names.
ghost use Rattle.std.specs.Prelude.{◌≡◌, ◌≤◌, ◌<◌, length, codes, IfOk, map};
ghost use Rattle.std.specs.List.{AllByRecursion};
ghost use Rattle.std.specs.Str.{bytes_eq};
ghost use Rattle.toml.specs.View.{view};
ghost use Rattle.mp_tree.specs.Tree.{items};
ghost use Rattle.mp_net.specs.Parts.{link_of, movement_of, junction_of, network_of};
ghost use Rattle.mp_netfile.specs.Meaning.{name_at, number_of, texts_of, link_from, target_from, movement_from, junction_from, network_from};
ghost use Rattle.mp_netfile.specs.Right.{HasName, IsLinkTable, IsMovementTable, HasParts};

use crate::values::{items_at, name_at, number_at, text_or_empty};
use mp_net::{JunctionPart, LinkNo, LinkPart, MovementNo, MovementPart, Name, NetParts, NoMemory};
use mp_tree::{items, section};
use std::alloc::Global;
use toml::Value;

fn name_of(table: &Value) -> Name
    requires { HasName (view table.now) }
    ensures { result ≡ name_at (codes "name") (view table.now) }
{
    match Name::from_bytes(name_at(table, "name").as_bytes()) {
        Some(name) => name,
        None => unreachable!(),
    }
}

fn link_part(table: &Value) -> LinkPart
    requires { IsLinkTable (view table.now) }
    ensures { link_of result ≡ link_from (view table.now) }
{
    LinkPart {
        name: name_of(table),
        burst: number_at(table, "burst"),
        rate: number_at(table, "rate"),
    }
}

fn link_parts(alloc: Global, tables: &[Value]) -> Result<Vec<LinkPart>, NoMemory>
    requires { AllByRecursion IsLinkTable (map view tables.now) }
    ensures { IfOk result (λ parts. map link_of parts.items ≡ map link_from (map view tables.now)) }
{
    let mut parts = Vec::new(alloc);
    for table in tables {
        parts.push(link_part(table))?;
    }
    Ok(parts)
}

fn is_called(name: &Name, text: &str) -> bool
    ensures { result ≡ bytes_eq name.now text.now }
{
    name.bytes() == text.as_bytes()
}

/// The number of the first link of this name, and 0 where none has it.
#[tactic(auto, using(crate::proofs::Found::found))]
fn link_number(links: &[LinkPart], name: &str) -> LinkNo
    requires { length links.now ≤ 128 }
    ensures { result ≡ number_of (map (λ link. link.name) links.now) name.now }
{
    let end = links.len();
    for i in 0..end {
        if is_called(&links[i].name, name) {
            return i as LinkNo + 1;
        }
    }
    0
}

/// The number of the first movement of this name, and 0 where none has it.
#[tactic(auto, using(crate::proofs::Found::found))]
fn movement_number(movements: &[MovementPart], name: &str) -> MovementNo
    requires { length movements.now ≤ 512 }
    ensures { result ≡ number_of (map (λ movement. movement.name) movements.now) name.now }
{
    let end = movements.len();
    for i in 0..end {
        if is_called(&movements[i].name, name) {
            return i as MovementNo + 1;
        }
    }
    0
}

fn target(links: &[LinkPart], to: &str) -> Option<LinkNo>
    requires { length links.now ≤ 128 }
    ensures { result ≡ target_from (map (λ link. link.name) links.now) to.now }
{
    if to == "out" {
        None
    } else {
        Some(link_number(links, to))
    }
}

fn movement_part(links: &[LinkPart], table: &Value) -> MovementPart
    requires links { length links.now ≤ 128 }
    requires table { IsMovementTable (view table.now) }
    ensures { movement_of result ≡ movement_from (map (λ link. link.name) links.now) (view table.now) }
{
    MovementPart {
        name: name_of(table),
        from: link_number(links, name_at(table, "from")),
        to: target(links, name_at(table, "to")),
        share: number_at(table, "share"),
        flow: number_at(table, "flow"),
        start: number_at(table, "start"),
    }
}

fn movement_parts(
    alloc: Global,
    links: &[LinkPart],
    tables: &[Value],
) -> Result<Vec<MovementPart>, NoMemory>
    requires links { length links.now ≤ 128 }
    requires tables { AllByRecursion IsMovementTable (map view tables.now) }
    ensures { IfOk result (λ parts. map movement_of parts.items ≡ map (movement_from (map (λ link. link.name) links.now)) (map view tables.now)) }
{
    let mut parts = Vec::new(alloc);
    for table in tables {
        parts.push(movement_part(links, table))?;
    }
    Ok(parts)
}

fn stage_part(
    alloc: Global,
    movements: &[MovementPart],
    texts: &[Value],
) -> Result<Vec<MovementNo>, NoMemory>
    requires { length movements.now ≤ 512 }
    ensures { IfOk result (λ stage. stage.items ≡ map (number_of (map (λ movement. movement.name) movements.now)) (texts_of (map view texts.now))) }
{
    let mut stage = Vec::new(alloc);
    for text in texts {
        stage.push(movement_number(movements, text_or_empty(text)))?;
    }
    Ok(stage)
}

fn stage_parts(
    alloc: Global,
    movements: &[MovementPart],
    stages: &[Value],
) -> Result<Vec<Vec<MovementNo>>, NoMemory>
    requires { length movements.now ≤ 512 }
    ensures { IfOk result (λ parts. map (λ stage. stage.items) parts.items ≡ map (map (number_of (map (λ movement. movement.name) movements.now))) (map (λ stage. texts_of (items stage)) (map view stages.now))) }
{
    let mut parts = Vec::new(alloc);
    for stage in stages {
        parts.push(stage_part(alloc, movements, items(stage))?)?;
    }
    Ok(parts)
}

fn junction_part(
    alloc: Global,
    movements: &[MovementPart],
    table: &Value,
) -> Result<JunctionPart, NoMemory>
    requires movements { length movements.now ≤ 512 }
    requires name { HasName (view table.now) }
    ensures { IfOk result (λ part. junction_of part ≡ junction_from (map (λ movement. movement.name) movements.now) (view table.now)) }
{
    Ok(JunctionPart {
        name: name_of(table),
        stages: stage_parts(alloc, movements, items_at(table, "stages"))?,
    })
}

fn junction_parts(
    alloc: Global,
    movements: &[MovementPart],
    tables: &[Value],
) -> Result<Vec<JunctionPart>, NoMemory>
    requires movements { length movements.now ≤ 512 }
    requires names { AllByRecursion HasName (map view tables.now) }
    ensures { IfOk result (λ parts. map junction_of parts.items ≡ map (junction_from (map (λ movement. movement.name) movements.now)) (map view tables.now)) }
{
    let mut parts = Vec::new(alloc);
    for table in tables {
        parts.push(junction_part(alloc, movements, table)?)?;
    }
    Ok(parts)
}

/// The parts of a tree.
pub fn net_parts(alloc: Global, tree: &Value) -> Result<NetParts, NoMemory>
    requires { HasParts (view tree.now) }
    ensures { IfOk result (λ parts. network_of parts ≡ network_from (view tree.now)) }
{
    let links = link_parts(alloc, section(tree, "link"))?;
    let movements = movement_parts(alloc, &links, section(tree, "movement"))?;
    let junctions = junction_parts(alloc, &movements, section(tree, "junction"))?;
    Ok(NetParts {
        shares: number_at(tree, "shares"),
        per: number_at(tree, "per"),
        delay: number_at(tree, "delay"),
        links,
        movements,
        junctions,
    })
}
