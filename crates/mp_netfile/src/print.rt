//! A network as the text of a file.
ghost use Rattle.std.specs.Prelude.{◌≡◌, ◌≤◌, ℕ, Ok, Some, map, length, codes, IfOk, OnOk, string_bytes};
ghost use Rattle.std.specs.List.{AllByRecursion};
ghost use Rattle.toml.specs.Data.{string, array, table as toml_table};
ghost use Rattle.toml.specs.View.{view, table_view, items_of};
ghost use Rattle.mp_model.specs.Network.{link_at, movement_at, junction_at};
ghost use Rattle.mp_model.specs.NetworkRules.{IsAcceptable};
ghost use Rattle.mp_net.specs.Parts.{link_of};
ghost use Rattle.mp_netfile.specs.Meaning.{text_meaning, tree_meaning, tree_of};
ghost use Rattle.mp_netfile.specs.Printed.{link_tree, target_name, movement_tree, stage_tree, junction_tree, network_tree, with_above_0, has_start_queue, version_for};
ghost use Rattle.mp_netfile.specs.Numbered.{IsMovement, IsJunction, IsTarget, IsBetweenLinks};

use mp_net::{JunctionNo, LinkNo, LinkPart, MovementNo, Name, Net, NoMemory};
use mp_tree::put;
use std::alloc::Global;
use toml::{Table, Value};

fn name_value(alloc: Global, name: &Name) -> Result<Value, NoMemory>
    ensures { IfOk result (λ value. view value ≡ string name.now) }
{
    match std::str::from_utf8(name.bytes()) {
        Ok(text) => Ok(Value::string(alloc, text)?),
        Err(_) => unreachable!(),
    }
}

fn link_table(alloc: Global, link: &LinkPart) -> Result<Value, NoMemory>
    ensures { IfOk result (λ value. view value ≡ link_tree (link_of link.now)) }
{
    let mut table = Table::new(alloc);
    put(alloc, &mut table, "name", name_value(alloc, &link.name)?)?;
    put(alloc, &mut table, "burst", Value::from(link.burst))?;
    put(alloc, &mut table, "rate", Value::from(link.rate))?;
    Ok(Value::Table(table))
}

#[tactic(auto, using(crate::proofs::Rows::rows))]
fn link_tables(alloc: Global, net: &Net) -> Result<Value, NoMemory>
    ensures { IfOk result (λ value. view value ≡ array (items_of (map link_tree net.now.links))) }
{
    let mut tables = Vec::new(alloc);
    let end = net.links() + 1;
    for l in 1..end {
        tables.push(link_table(alloc, net.link(l))?)?;
    }
    Ok(Value::Array(tables))
}

fn target_name(alloc: Global, net: &Net, to: Option<LinkNo>) -> Result<Value, NoMemory>
    requires { IsTarget net.now to }
    ensures { IfOk result (λ value. view value ≡ string (target_name net.now to)) }
{
    match to {
        None => Ok(Value::string(alloc, "out")?),
        Some(l) => name_value(alloc, &net.link(l).name),
    }
}

/// Puts a number that is above 0.
fn put_above_0(alloc: Global, table: &mut Table, key: &str, number: u32) -> Result<(), NoMemory>
    ensures { OnOk result (table_view table.new ≡ with_above_0 key.now number (table_view table.old)) }
{
    if number > 0 {
        put(alloc, table, key, Value::from(number))?;
    }
    Ok(())
}

fn movement_table(alloc: Global, net: &Net, k: MovementNo) -> Result<Value, NoMemory>
    requires there { IsMovement net.now k }
    requires ends { IsBetweenLinks net.now k }
    ensures { IfOk result (λ value. view value ≡ movement_tree net.now (movement_at net.now k)) }
{
    let movement = net.movement(k);
    let from = name_value(alloc, &net.link(movement.from).name)?;
    let to = target_name(alloc, net, movement.to)?;
    let mut table = Table::new(alloc);
    put(
        alloc,
        &mut table,
        "name",
        name_value(alloc, &movement.name)?,
    )?;
    put(alloc, &mut table, "from", from)?;
    put(alloc, &mut table, "to", to)?;
    put(alloc, &mut table, "share", Value::from(movement.share))?;
    put(alloc, &mut table, "flow", Value::from(movement.flow))?;
    put_above_0(alloc, &mut table, "start", movement.start)?;
    Ok(Value::Table(table))
}

#[tactic(auto, using(crate::proofs::Rows::rows))]
fn movement_tables(alloc: Global, net: &Net) -> Result<Value, NoMemory>
    requires { IsAcceptable net.now }
    ensures { IfOk result (λ value. view value ≡ array (items_of (map (movement_tree net.now) net.now.movements))) }
{
    let mut tables = Vec::new(alloc);
    let end = net.movements() + 1;
    for k in 1..end {
        tables.push(movement_table(alloc, net, k)?)?;
    }
    Ok(Value::Array(tables))
}

fn stage_array(alloc: Global, net: &Net, stage: &[MovementNo]) -> Result<Value, NoMemory>
    requires { AllByRecursion (IsMovement net.now) stage.now }
    ensures { IfOk result (λ value. view value ≡ stage_tree net.now stage.now) }
{
    let mut names = Vec::new(alloc);
    for k in stage {
        names.push(name_value(alloc, &net.movement(*k).name)?)?;
    }
    Ok(Value::Array(names))
}

#[tactic(auto, using(crate::proofs::Rows::rows))]
fn stage_arrays(alloc: Global, net: &Net, j: JunctionNo) -> Result<Value, NoMemory>
    requires there { IsJunction net.now j }
    requires stages { AllByRecursion (AllByRecursion (IsMovement net.now)) (junction_at net.now j).stages }
    ensures { IfOk result (λ value. view value ≡ array (items_of (map (stage_tree net.now) (junction_at net.now j).stages))) }
{
    let mut stages = Vec::new(alloc);
    let end = net.stages(j) + 1;
    for s in 1..end {
        stages.push(stage_array(alloc, net, net.stage(j, s))?)?;
    }
    Ok(Value::Array(stages))
}

fn junction_table(alloc: Global, net: &Net, j: JunctionNo) -> Result<Value, NoMemory>
    requires there { IsJunction net.now j }
    requires stages { AllByRecursion (AllByRecursion (IsMovement net.now)) (junction_at net.now j).stages }
    ensures { IfOk result (λ value. view value ≡ junction_tree net.now (junction_at net.now j)) }
{
    let name = name_value(alloc, &net.junction(j).name)?;
    let stages = stage_arrays(alloc, net, j)?;
    let mut table = Table::new(alloc);
    put(alloc, &mut table, "name", name)?;
    put(alloc, &mut table, "stages", stages)?;
    Ok(Value::Table(table))
}

#[tactic(auto, using(crate::proofs::Rows::rows))]
fn junction_tables(alloc: Global, net: &Net) -> Result<Value, NoMemory>
    requires { IsAcceptable net.now }
    ensures { IfOk result (λ value. view value ≡ array (items_of (map (junction_tree net.now) net.now.junctions))) }
{
    let mut tables = Vec::new(alloc);
    let end = net.junctions() + 1;
    for j in 1..end {
        tables.push(junction_table(alloc, net, j)?)?;
    }
    Ok(Value::Array(tables))
}

#[tactic(auto, using(crate::proofs::Starts::starts_from))]
fn has_start_queue(net: &Net) -> bool
    ensures { result ≡ has_start_queue net.now }
{
    let end = net.movements() + 1;
    for k in 1..end {
        if net.movement(k).start > 0 {
            return true;
        }
    }
    false
}

fn version_for(net: &Net) -> u32
    ensures { result ≡ version_for net.now }
{
    if net.delay() > 0 {
        3
    } else if has_start_queue(net) {
        2
    } else {
        1
    }
}

fn network_table(alloc: Global, net: &Net) -> Result<Table, NoMemory>
    ensures tree { IfOk result (λ table. table_view table ≡ network_tree net.now) }
    ensures means { IfOk result (λ table. tree_meaning (toml_table (network_tree net.now)) ≡ Ok net.now) }
{
    let shares = net.shares();
    let links = link_tables(alloc, net)?;
    let movements = movement_tables(alloc, net)?;
    let junctions = junction_tables(alloc, net)?;
    let mut table = Table::new(alloc);
    put(alloc, &mut table, "version", Value::from(version_for(net)))?;
    put(alloc, &mut table, "shares", Value::from(shares))?;
    put(alloc, &mut table, "per", Value::from(net.per()))?;
    put(alloc, &mut table, "link", links)?;
    put(alloc, &mut table, "movement", movements)?;
    put(alloc, &mut table, "junction", junctions)?;
    put_above_0(alloc, &mut table, "delay", net.delay())?;
    Ok(table)
}

/// The text of a file for the network, of version 3 where its delay is above 0, else of version 2 where some
/// movement has a start queue, and else of version 1. The order of its keys is that of the crate `toml`.
///
/// The text read again, whatever its length, gives an equal network. `NoMemory` where memory could not be had.
pub fn print_net(alloc: Global, net: &Net) -> Result<String, NoMemory>
    ensures tree { IfOk result (λ text. tree_of (string_bytes text) ≡ Some (network_tree net.now)) }
    ensures means { IfOk result (λ text. text_meaning (string_bytes text) ≡ Ok net.now) }
{
    let table = network_table(alloc, net)?;
    match toml::table_to_string(alloc, &table) {
        Ok(text) => Ok(text),
        Err(error) => match error {
            toml::ser::Error::OutOfMemory => Err(NoMemory),
            toml::ser::Error::DateInvalid => unreachable!(),
        },
    }
}
