//! What a network has, and the neighbours that its readers tell.
ghost use Rattle.std.specs.Prelude.{IfOk};
ghost use Rattle.mp_model.specs.Certificate.{HasLengths};
ghost use Rattle.mp_cert.specs.Views.{cert_of};

use crate::files::Stop;
use mp_cert::{Cert, read_cert};
use mp_net::{Name, Net};
use mp_netfile::{print_net, read_net};
use std::alloc::{AllocError, Global};

/// The network of a file.
pub fn network(alloc: Global, bytes: &[u8]) -> Result<Net, Stop> {
    match read_net(alloc, bytes) {
        Ok(net) => Ok(net),
        Err(_) => Err(Stop::Unwritten),
    }
}

/// The certificate of a text.
pub fn cert(alloc: Global, net: &Net, text: &str) -> Result<Cert, Stop>
    ensures { IfOk result (λ cert. HasLengths net.now (cert_of cert)) }
{
    match read_cert(alloc, net, text.as_bytes()) {
        Ok(cert) => Ok(cert),
        Err(_) => Err(Stop::Unwritten),
    }
}

fn text(name: &Name) -> &str {
    match std::str::from_utf8(name.bytes()) {
        Ok(text) => text,
        Err(_) => "",
    }
}

fn link_name(net: &Net, l: u16) -> &str {
    if l < 1 || l > net.links() {
        return "";
    }
    text(&net.link(l).name)
}

fn movement_name(net: &Net, k: u16) -> &str {
    if k < 1 || k > net.movements() {
        return "";
    }
    text(&net.movement(k).name)
}

// Each link with its burst and rate, and its neighbours.
fn links(alloc: Global, net: &Net, told: &mut String) -> Result<(), AllocError> {
    let end = net.links() + 1;
    for l in 1..end {
        let link = net.link(l);
        let line = format!(in alloc; "{} {} {}", text(&link.name), link.burst, link.rate)?;
        told.push_str(line.as_str())?;
        let (out, into) = (net.out_of(l), net.into_link(l));
        let (j, place) = (net.junction_of(l), net.fed_place(l));
        let line = format!(in alloc; " out {out:?} into {into:?} junction {j} fed {place:?}\n")?;
        told.push_str(line.as_str())?;
    }
    Ok(())
}

// Each movement with its links, share and flow.
fn movements(alloc: Global, net: &Net, told: &mut String) -> Result<(), AllocError> {
    let end = net.movements() + 1;
    for k in 1..end {
        let movement = net.movement(k);
        let to = match movement.to {
            Some(l) => link_name(net, l),
            None => "out",
        };
        let from = link_name(net, movement.from);
        let (name, share, flow) = (text(&movement.name), movement.share, movement.flow);
        let line = format!(in alloc; "{name} {from} {to} {share} {flow}\n")?;
        told.push_str(line.as_str())?;
    }
    Ok(())
}

// Each junction with its stages, and its neighbours.
fn junctions(alloc: Global, net: &Net, told: &mut String) -> Result<(), AllocError> {
    let end = net.junctions() + 1;
    for j in 1..end {
        told.push_str(text(&net.junction(j).name))?;
        let last = net.stages(j) + 1;
        for s in 1..last {
            told.push_str(" /")?;
            for k in net.stage(j, s) {
                told.push_str(" ")?;
                told.push_str(movement_name(net, *k))?;
            }
        }
        let (own, targets, next) = (net.own(j), net.targets(j), net.next(j));
        let line = format!(in alloc; " own {own:?} targets {targets:?} next {next:?}\n")?;
        told.push_str(line.as_str())?;
    }
    Ok(())
}

fn told(alloc: Global, net: &Net) -> Result<String, AllocError> {
    let mut told = format!(in alloc; "{} {} fed {:?}\n", net.shares(), net.per(), net.fed())?;
    links(alloc, net, &mut told)?;
    movements(alloc, net, &mut told)?;
    junctions(alloc, net, &mut told)?;
    Ok(told)
}

/// What the network has, and whether it has the same when it is printed and read again.
pub fn shown(alloc: Global, net: &Net) -> Result<String, Stop> {
    let mut shown = told(alloc, net)?;
    let Ok(printed) = print_net(alloc, net) else {
        return Err(Stop::NoMemory);
    };
    let again = network(alloc, printed.as_bytes())?;
    if told(alloc, &again)?.as_str() != shown.as_str() {
        shown.push_str("another network is printed\n")?;
    }
    Ok(shown)
}
