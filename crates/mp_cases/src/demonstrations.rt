//! Demonstrations.
ghost use Rattle.std.specs.Prelude.{◌≡◌, [], IfOk};
ghost use Rattle.mp_model.specs.Certificate.{HasLengths};
ghost use Rattle.mp_model.specs.Run.{opening};
ghost use Rattle.mp_gen.specs.DemoNetwork.{demo_network};
ghost use Rattle.mp_cert.specs.Views.{cert_of};
ghost use Rattle.mp_step.specs.Standing.{Stands};
ghost use Rattle.mp_step.specs.Taken.{HasTaken};

use crate::files::Stop;
use crate::networks::cert;
use crate::periods::is_line;
use arrayvec::ArrayVec;
use mp_cert::Cert;
use mp_edge::MemSink;
use mp_gen::{DemoArrivals, demo_net, demonstrate, put_demo};
use mp_net::Net;
use mp_session::Session;
use std::alloc::Global;

fn opened<'a>(alloc: Global, net: &'a Net, cert: &Cert) -> Result<Session<'a>, Stop>
    requires { HasLengths net.now (cert_of cert.now) }
    ensures network { IfOk result (λ s. s.net ≡ net.now) }
    ensures start { IfOk result (λ s. Stands net.now s.round.standing (opening net.now)) }
    ensures taken { IfOk result (λ s. HasTaken net.now s.round.standing []) }
{
    match Session::open(alloc, net, cert) {
        Ok(session) => Ok(session),
        Err(_) => Err(Stop::Unwritten),
    }
}

// Closes a period, where no link is above its bucket.
fn close(session: &mut Session, counts: &[u64]) -> Result<(), Stop> {
    if !is_line(session.net(), counts) || session.state().period() >= 1 << 48 {
        return Err(Stop::Unwritten);
    }
    match session.close_all(counts) {
        Ok(()) => Ok(()),
        Err(_) => Err(Stop::Unwritten),
    }
}

fn demo(alloc: Global, n: u64) -> Result<Net, Stop>
    ensures { IfOk result (λ net. net ≡ demo_network n) }
{
    match demo_net(alloc, n) {
        Ok(net) => Ok(net),
        Err(_) => Err(Stop::NoMemory),
    }
}

/// The arrivals of the first ten periods of a demonstration, under a certificate of its network.
pub fn drawn(alloc: Global, n: u64, text: &str) -> Result<String, Stop> {
    let net = demo(alloc, n)?;
    let cert = cert(alloc, &net, text)?;
    let mut session = opened(alloc, &net, &cert)?;
    let mut arrivals = DemoArrivals::new(n);
    let mut counts = ArrayVec::new();
    let mut told = String::new(alloc);
    for _ in 0..10 {
        arrivals.fill(&session, &mut counts);
        told.push_str(format!(in alloc; "{:?}", counts.as_slice())?.as_str())?;
        close(&mut session, &counts)?;
    }
    told.push_str("\n")?;
    Ok(told)
}

/// The summary of a demonstration under a certificate.
pub fn demonstration(alloc: Global, n: u64, text: &str) -> Result<String, Stop> {
    let net = demo(alloc, n)?;
    let cert = cert(alloc, &net, text)?;
    let mut session = opened(alloc, &net, &cert)?;
    let greatest = demonstrate(&mut session, n);
    let Ok(mut out) = MemSink::new(alloc, 200, &[]) else {
        return Err(Stop::NoMemory);
    };
    if put_demo(&mut out, n, &session, greatest).is_err() {
        return Err(Stop::Unwritten);
    }
    match std::str::from_utf8(out.bytes()) {
        Ok(text) => Ok(String::from_str(alloc, text)?),
        Err(_) => Err(Stop::Unwritten),
    }
}
