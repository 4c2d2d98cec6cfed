//! The parts of a frame network: copies of those of the network, with other rates.
ghost use Rattle.std.specs.Prelude.{◌≡◌, ◌≤◌, ◌++◌, ◌∷◌, [], List, length, map, IfOk, OnOk};
ghost use Rattle.mp_model.specs.Frames.{frame_link};
ghost use Rattle.mp_model.specs.Network.{link_at, movement_at, junction_at, stage_at, link_numbers, movement_numbers, junction_numbers};
ghost use Rattle.mp_net.specs.Parts.{link_of, movement_of, junction_of};

use mp_net::{
    JunctionNo, JunctionPart, LinkNo, LinkPart, MovementNo, MovementPart, Name, Net, NoMemory,
};
use std::alloc::Global;

fn same_name(name: &Name) -> Name
    ensures { result ≡ name.now }
{
    match Name::from_bytes(name.bytes()) {
        Some(name) => name,
        None => unreachable!(),
    }
}

// The link with f times its rate.
fn frame_link(net: &Net, f: u32, l: LinkNo) -> LinkPart
    requires known { (1 ≤ l) × (l ≤ length net.now.links) }
    requires few { f ≤ 60 }
    ensures { link_of result ≡ frame_link f (link_at net.now l) }
{
    let _ = net.shares();
    let link = net.link(l);
    LinkPart {
        name: same_name(&link.name),
        burst: link.burst,
        rate: f * link.rate,
    }
}

fn same_movement(net: &Net, k: MovementNo) -> MovementPart
    requires { (1 ≤ k) × (k ≤ length net.now.movements) }
    ensures { movement_of result ≡ movement_at net.now k }
{
    let movement = net.movement(k);
    MovementPart {
        name: same_name(&movement.name),
        from: movement.from,
        to: movement.to,
        share: movement.share,
        flow: movement.flow,
        start: movement.start,
    }
}

// Appends a copy of a stage.
fn add_stage(
    alloc: Global,
    stages: &mut Vec<Vec<MovementNo>>,
    stage: &[MovementNo],
) -> Result<(), NoMemory>
    ensures { OnOk result (map (λ stage. stage.items) stages.new.items ≡ map (λ stage. stage.items) stages.old.items ++ stage.now ∷ []) }
{
    stages.push(Vec::from_slice(alloc, stage)?)?;
    Ok(())
}

fn same_stages(alloc: Global, net: &Net, j: JunctionNo) -> Result<Vec<Vec<MovementNo>>, NoMemory>
    requires { (1 ≤ j) × (j ≤ length net.now.junctions) }
    ensures { IfOk result (λ stages. map (λ stage. stage.items) stages.items ≡ (junction_at net.now j).stages) }
{
    let mut stages = Vec::new(alloc);
    for s in 0..net.stages(j) {
        add_stage(alloc, &mut stages, net.stage(j, s + 1))?;
    }
    Ok(stages)
}

fn same_junction(alloc: Global, net: &Net, j: JunctionNo) -> Result<JunctionPart, NoMemory>
    requires { (1 ≤ j) × (j ≤ length net.now.junctions) }
    ensures { IfOk result (λ part. junction_of part ≡ junction_at net.now j) }
{
    Ok(JunctionPart {
        name: same_name(&net.junction(j).name),
        stages: same_stages(alloc, net, j)?,
    })
}

// Appends the frame link of link l.
fn add_link(links: &mut Vec<LinkPart>, net: &Net, f: u32, l: LinkNo) -> Result<(), NoMemory>
    requires known { (1 ≤ l) × (l ≤ length net.now.links) }
    requires few { f ≤ 60 }
    ensures { OnOk result (map link_of links.new.items ≡ map link_of links.old.items ++ frame_link f (link_at net.now l) ∷ []) }
{
    links.push(frame_link(net, f, l))?;
    Ok(())
}

/// The links with f times their rates.
pub fn frame_links(alloc: Global, net: &Net, f: u32) -> Result<Vec<LinkPart>, NoMemory>
    requires { f ≤ 60 }
    ensures { IfOk result (λ links. map link_of links.items ≡ map (frame_link f) net.now.links) }
{
    let mut links = Vec::new(alloc);
    for l in 0..net.links() {
        add_link(&mut links, net, f, l + 1)?;
    }
    Ok(links)
}

// Appends a copy of movement k.
fn add_movement(movements: &mut Vec<MovementPart>, net: &Net, k: MovementNo) -> Result<(), NoMemory>
    requires { (1 ≤ k) × (k ≤ length net.now.movements) }
    ensures { OnOk result (map movement_of movements.new.items ≡ map movement_of movements.old.items ++ movement_at net.now k ∷ []) }
{
    movements.push(same_movement(net, k))?;
    Ok(())
}

/// Copies of the movements.
pub fn same_movements(alloc: Global, net: &Net) -> Result<Vec<MovementPart>, NoMemory>
    ensures { IfOk result (λ movements. map movement_of movements.items ≡ net.now.movements) }
{
    let mut movements = Vec::new(alloc);
    for k in 0..net.movements() {
        add_movement(&mut movements, net, k + 1)?;
    }
    Ok(movements)
}

// Appends a copy of junction j.
fn add_junction(
    alloc: Global,
    junctions: &mut Vec<JunctionPart>,
    net: &Net,
    j: JunctionNo,
) -> Result<(), NoMemory>
    requires { (1 ≤ j) × (j ≤ length net.now.junctions) }
    ensures { OnOk result (map junction_of junctions.new.items ≡ map junction_of junctions.old.items ++ junction_at net.now j ∷ []) }
{
    junctions.push(same_junction(alloc, net, j)?)?;
    Ok(())
}

/// Copies of the junctions.
pub fn same_junctions(alloc: Global, net: &Net) -> Result<Vec<JunctionPart>, NoMemory>
    ensures { IfOk result (λ junctions. map junction_of junctions.items ≡ net.now.junctions) }
{
    let mut junctions = Vec::new(alloc);
    for j in 0..net.junctions() {
        add_junction(alloc, &mut junctions, net, j + 1)?;
    }
    Ok(junctions)
}
