//! The frame network as a network of its own.
ghost use Rattle.std.specs.Prelude.{◌≡◌, ◌≤◌, length, None, IfOk, IfErr, OnOk};
ghost use Rattle.std.specs.List.{find};
ghost use Rattle.mp_model.specs.Frames.{frame_network};
ghost use Rattle.mp_model.specs.Network.{link_numbers};
ghost use Rattle.mp_frame.specs.FrameNet.{frame_fault, is_fast, is_long, IsRefused};

use crate::copies::{frame_links, same_junctions, same_movements};
use crate::fault::FrameFault;
use mp_net::{LinkNo, Net, NetFault, NetParts, build};
use std::alloc::Global;

/// The most periods of a rate length.
const MOST_PER: u32 = 3600;

/// The most vehicles of a rate, a period.
const MOST_RATE: u32 = 1000;

// The rate length of the frame network is above its range.
fn is_long(net: &Net, f: u32) -> bool
    requires { (2 ≤ f) × (f ≤ 60) }
    ensures { result ≡ is_long net.now f }
{
    let _ = net.shares();
    (f - 1) * net.per() > MOST_PER
}

// The rate of the link in the frame network is above its range.
fn is_fast(net: &Net, f: u32, l: LinkNo) -> bool
    requires f { (2 ≤ f) × (f ≤ 60) }
    requires known { (1 ≤ l) × (l ≤ length net.now.links) }
    ensures { result ≡ is_fast net.now f l }
{
    let _ = net.shares();
    f * net.link(l).rate > MOST_RATE * ((f - 1) * net.per())
}

// The least link whose rate in the frame network is above its range.
fn first_fast(net: &Net, f: u32) -> Option<LinkNo>
    requires { (2 ≤ f) × (f ≤ 60) }
    ensures { result ≡ find (is_fast net.now f) (link_numbers net.now) }
{
    (1..net.links() + 1).find(|l| is_fast(net, f, *l))
}

fn fault_of(net: &Net, f: u32) -> Option<FrameFault>
    requires { (2 ≤ f) × (f ≤ 60) }
    ensures { result ≡ frame_fault net.now f }
{
    if is_long(net, f) {
        return Some(FrameFault::Per);
    }
    match first_fast(net, f) {
        None => None,
        Some(link) => Some(FrameFault::Rate { link }),
    }
}

/// The frame network of frames of f periods: F − 1 times the rate length and F times each rate.
///
/// `Per` comes exactly where its rate length is above 3,600 periods, and `Rate` exactly where it isn't
/// and the rate of a link is above 1,000 vehicles a period; it names the least. `NoMemory` says nothing
/// of the network.
pub fn frame_net(alloc: Global, net: &Net, f: u32) -> Result<Net, FrameFault>
    requires { (2 ≤ f) × (f ≤ 60) }
    ensures ok { IfOk result (λ framed. framed ≡ frame_network net.now f) }
    ensures fits { OnOk result (frame_fault net.now f ≡ None) }
    ensures refused { IfErr result (IsRefused net.now f) }
{
    if let Some(fault) = fault_of(net, f) {
        return Err(fault);
    }
    let parts = NetParts {
        shares: net.shares(),
        per: (f - 1) * net.per(),
        delay: net.delay(),
        links: frame_links(alloc, net, f)?,
        movements: same_movements(alloc, net)?,
        junctions: same_junctions(alloc, net)?,
    };
    match build(alloc, parts) {
        Ok(framed) => Ok(framed),
        Err(NetFault::NoMemory) => Err(FrameFault::NoMemory),
        Err(NetFault::Rule { .. }) => unreachable!(),
    }
}
