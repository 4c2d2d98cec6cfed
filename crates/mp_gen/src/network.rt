//! The demonstration networks.
ghost use Rattle.std.specs.Prelude.{◌≡◌, ◌≤◌, ◌<◌, ◌++◌, ◌∷◌, [], ℕ, Option, IfOk, OnOk, codes, decimal, map, true};
ghost use Rattle.std.specs.List.{flat_map};
ghost use Rattle.mp_model.specs.Network.{numbers_to};
ghost use Rattle.mp_model.specs.Names.{is_name_byte};
ghost use Rattle.mp_net.specs.Parts.{link_of, movement_of, junction_of};
ghost use Rattle.mp_gen.specs.DemoNetwork.{demo_network, main_link, side_link, links_into, road_movement, through_movements, last_movements, through_junction, last_junction, road_movements, road_junctions};

use mp_net::{
    JunctionPart, LinkNo, LinkPart, MovementNo, MovementPart, Name, Net, NetFault, NetParts,
    NoMemory, build,
};
use std::alloc::Global;

// The name of a letter and a number of one digit.
fn short_name(letter: u8, i: u16) -> Name
    requires digit { i < 10 }
    requires letter { is_name_byte letter ≡ true }
    ensures { result ≡ letter ∷ decimal i }
{
    match Name::from_bytes(&[letter, b'0' + i as u8]) {
        Some(name) => name,
        None => unreachable!(),
    }
}

// The name of a letter, a number of one digit, and a letter.
fn way_name(letter: u8, i: u16, way: u8) -> Name
    requires digit { i < 10 }
    requires letter { is_name_byte letter ≡ true }
    requires way { is_name_byte way ≡ true }
    ensures { result ≡ (letter ∷ decimal i) ++ way ∷ [] }
{
    match Name::from_bytes(&[letter, b'0' + i as u8, way]) {
        Some(name) => name,
        None => unreachable!(),
    }
}

fn main_link(rate: u32, i: u16) -> LinkPart
    requires { i < 10 }
    ensures { link_of result ≡ main_link rate i }
{
    let (burst, rate) = if i == 1 { (5, rate) } else { (0, 0) };
    LinkPart {
        name: short_name(b'm', i),
        burst,
        rate,
    }
}

fn side_link(i: u16) -> LinkPart
    requires { i < 10 }
    ensures { link_of result ≡ side_link i }
{
    LinkPart {
        name: short_name(b's', i),
        burst: 5,
        rate: 10,
    }
}

// Appends the links into junction i.
fn add_links(links: &mut Vec<LinkPart>, rate: u32, i: u16) -> Result<(), NoMemory>
    requires { i < 10 }
    ensures { OnOk result (map link_of links.new.items ≡ map link_of links.old.items ++ links_into rate i) }
{
    links.push(main_link(rate, i))?;
    links.push(side_link(i))?;
    Ok(())
}

fn road_links(alloc: Global, count: u16, rate: u32) -> Result<Vec<LinkPart>, NoMemory>
    requires { count < 10 }
    ensures { IfOk result (λ v. map link_of v.items ≡ flat_map (links_into rate) (numbers_to count)) }
{
    let mut links = Vec::new(alloc);
    for i in 0..count {
        add_links(&mut links, rate, i + 1)?;
    }
    Ok(links)
}

// A movement of a road at junction i.
fn movement(
    road: u8,
    i: u16,
    way: u8,
    from: LinkNo,
    to: Option<LinkNo>,
    share: u32,
    flow: u32,
) -> MovementPart
    requires digit { i < 10 }
    requires road { is_name_byte road ≡ true }
    requires way { is_name_byte way ≡ true }
    ensures { movement_of result ≡ road_movement (road ∷ []) i (way ∷ []) from to share flow }
{
    MovementPart {
        name: way_name(road, i, way),
        from,
        to,
        share,
        flow,
        start: 0,
    }
}

// Appends the movements of junction i, which is before the last.
fn add_through(movements: &mut Vec<MovementPart>, i: u16) -> Result<(), NoMemory>
    requires { (1 ≤ i) × (i < 10) }
    ensures { OnOk result (map movement_of movements.new.items ≡ map movement_of movements.old.items ++ through_movements i) }
{
    let (main, side, next) = (2 * i - 1, 2 * i, 2 * i + 1);
    movements.push(movement(b'm', i, b't', main, Some(next), 8, 8))?;
    movements.push(movement(b'm', i, b'x', main, None, 2, 8))?;
    movements.push(movement(b's', i, b't', side, Some(next), 5, 4))?;
    movements.push(movement(b's', i, b'x', side, None, 5, 4))?;
    Ok(())
}

// Appends the movements of junction i, which is the last.
fn add_last(movements: &mut Vec<MovementPart>, i: u16) -> Result<(), NoMemory>
    requires { (1 ≤ i) × (i < 10) }
    ensures { OnOk result (map movement_of movements.new.items ≡ map movement_of movements.old.items ++ last_movements i) }
{
    movements.push(movement(b'm', i, b'x', 2 * i - 1, None, 10, 8))?;
    movements.push(movement(b's', i, b'x', 2 * i, None, 10, 4))?;
    Ok(())
}

fn road_movements(alloc: Global, count: u16) -> Result<Vec<MovementPart>, NoMemory>
    requires { (1 ≤ count) × (count < 10) }
    ensures { IfOk result (λ v. map movement_of v.items ≡ road_movements count) }
{
    let mut movements = Vec::new(alloc);
    for i in 0..count - 1 {
        add_through(&mut movements, i + 1)?;
    }
    add_last(&mut movements, count)?;
    Ok(movements)
}

// Junction i with these two stages.
fn junction(
    alloc: Global,
    i: u16,
    first: &[MovementNo],
    second: &[MovementNo],
) -> Result<JunctionPart, NoMemory>
    requires { i < 10 }
    ensures { IfOk result (λ part. junction_of part ≡ record { name = codes "j" ++ decimal i; stages = first.now ∷ second.now ∷ [] }) }
{
    let mut stages = Vec::new(alloc);
    stages.push(Vec::from_slice(alloc, first)?)?;
    stages.push(Vec::from_slice(alloc, second)?)?;
    Ok(JunctionPart {
        name: short_name(b'j', i),
        stages,
    })
}

// Appends junction i, which is before the last.
fn add_junction(alloc: Global, junctions: &mut Vec<JunctionPart>, i: u16) -> Result<(), NoMemory>
    requires { (1 ≤ i) × (i < 10) }
    ensures { OnOk result (map junction_of junctions.new.items ≡ map junction_of junctions.old.items ++ through_junction i ∷ []) }
{
    let main = [4 * i - 3, 4 * i - 2];
    let side = [4 * i - 1, 4 * i];
    junctions.push(junction(alloc, i, &main, &side)?)?;
    Ok(())
}

// Appends junction i, which is the last.
fn add_end(alloc: Global, junctions: &mut Vec<JunctionPart>, i: u16) -> Result<(), NoMemory>
    requires { (1 ≤ i) × (i < 10) }
    ensures { OnOk result (map junction_of junctions.new.items ≡ map junction_of junctions.old.items ++ last_junction i ∷ []) }
{
    junctions.push(junction(alloc, i, &[4 * i - 3], &[4 * i - 2])?)?;
    Ok(())
}

fn road_junctions(alloc: Global, count: u16) -> Result<Vec<JunctionPart>, NoMemory>
    requires { (1 ≤ count) × (count < 10) }
    ensures { IfOk result (λ v. map junction_of v.items ≡ road_junctions count) }
{
    let mut junctions = Vec::new(alloc);
    for i in 0..count - 1 {
        add_junction(alloc, &mut junctions, i + 1)?;
    }
    add_end(alloc, &mut junctions, count)?;
    Ok(junctions)
}

/// The demonstration network of this number: a main road through 2 to 4 junctions, with a side road
/// into each. `NoMemory` comes only where memory runs out.
pub fn demo_net(alloc: Global, n: u64) -> Result<Net, NoMemory>
    ensures { IfOk result (λ net. net ≡ demo_network n) }
{
    let count = 2 + (n % 3) as u16;
    let rate = 30 + (n / 3 % 10) as u32;
    let parts = NetParts {
        shares: 10,
        per: 20,
        delay: 0,
        links: road_links(alloc, count, rate)?,
        movements: road_movements(alloc, count)?,
        junctions: road_junctions(alloc, count)?,
    };
    match build(alloc, parts) {
        Ok(net) => Ok(net),
        Err(NetFault::NoMemory) => Err(NoMemory),
        Err(NetFault::Rule { .. }) => unreachable!(),
    }
}
