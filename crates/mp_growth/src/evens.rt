//! Arrivals that come as evenly as whole vehicles can.
ghost use Rattle.std.specs.Prelude.{◌≡◌, ◌≤◌, ◌<◌, ◌*◌, ◌^◌, All, length};
ghost use Rattle.mp_model.specs.Network.{link_at, fed};
ghost use Rattle.mp_model.specs.NetworkRules.{IsAcceptable};
ghost use Rattle.mp_overload.specs.Evens.{come_by, even_count_on, even_arrivals, is_uneven, uneven_link};

use arrayvec::ArrayVec;
use mp_net::{LinkNo, Net};

// How many vehicles have come by the end of a period at a rate per rate length.
fn come_by(per: u32, rate: u32, period: u64) -> u64
    requires some { 1 ≤ per }
    requires few { rate ≤ 3600000 }
    requires early { period ≤ 2 ^ 32 }
    ensures value { result ≡ come_by per rate period }
    ensures few { result ≤ 2 ^ 54 }
{
    u64::from(rate) * period / u64::from(per)
}

// The even count of a link in a period.
fn even_count(net: &Net, l: LinkNo, period: u64) -> u64
    requires acceptable { IsAcceptable net.now }
    requires link { (1 ≤ l) × (l ≤ length net.now.links) }
    requires period { (1 ≤ period) × (period ≤ 2 ^ 32) }
    ensures value { result ≡ even_count_on net.now period l }
    ensures few { result < 10 ^ 9 }
{
    let rate = net.link(l).rate;
    come_by(net.per(), rate, period) - come_by(net.per(), rate, period - 1)
}

/// Makes `into` the even arrivals of a period, one count per fed link in link order.
pub fn even_arrivals(net: &Net, period: u64, into: &mut ArrayVec<u64, 128>)
    requires acceptable { IsAcceptable net.now }
    requires period { (1 ≤ period) × (period ≤ 2 ^ 32) }
    ensures value { into.new.items ≡ even_arrivals net.now period }
    ensures digits { All (λ a. a < 10 ^ 9) into.new.items }
{
    into.clear();
    // There is room: no network has more than 128 links.
    let _links = net.links();
    for l in net.fed() {
        into.push(even_count(net, *l, period));
    }
}

// The link has a burst of 0 and a rate that is not a multiple of the rate length.
fn is_uneven(net: &Net, l: LinkNo) -> bool
    requires acceptable { IsAcceptable net.now }
    requires link { (1 ≤ l) × (l ≤ length net.now.links) }
    ensures { result ≡ is_uneven net.now.per (link_at net.now l) }
{
    let link = net.link(l);
    link.burst == 0 && link.rate % net.per() != 0
}

/// The least fed link that is uneven, or none.
pub fn uneven_link(net: &Net) -> Option<LinkNo>
    requires { IsAcceptable net.now }
    ensures { result ≡ uneven_link net.now }
{
    for l in net.fed() {
        if is_uneven(net, *l) {
            return Some(*l);
        }
    }
    None
}
