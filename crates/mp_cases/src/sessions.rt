//! Sessions under a certificate.
ghost use Rattle.mp_model.specs.Certificate.{HasLengths};
ghost use Rattle.mp_cert.specs.Views.{cert_of};

use crate::files::{Stop, naturals};
use crate::networks::cert;
use crate::periods::is_line;
use mp_cert::Cert;
use mp_drift::{OpenFault, Session};
use mp_net::Net;
use std::alloc::Global;

fn opened<'a>(alloc: Global, net: &'a Net, cert: &Cert) -> Result<Session<'a>, Stop>
    requires { HasLengths net.now (cert_of cert.now) }
{
    match Session::open(alloc, net, cert) {
        Ok(session) => Ok(session),
        Err(_) => Err(Stop::Unwritten),
    }
}

/// Why no session is opened under the certificate.
pub fn refusal(alloc: Global, net: &Net, text: &str) -> Result<String, Stop> {
    let cert = cert(alloc, net, text)?;
    match Session::open(alloc, net, &cert) {
        Ok(_) => Ok(String::from_str(alloc, "opened\n")?),
        Err(OpenFault::Cert(fault)) => Ok(format!(in alloc; "{fault:?}\n")?),
        Err(fault) => Ok(format!(in alloc; "{fault:?}\n")?),
    }
}

// Closes a period: the link that is above its bucket, or 0.
fn close(session: &mut Session, counts: &[u64]) -> Result<u16, Stop> {
    if !is_line(session.net(), counts) || session.state().period() >= 1 << 48 {
        return Err(Stop::Unwritten);
    }
    match session.period(counts) {
        Ok(()) => Ok(0),
        Err(above) => Ok(above.link),
    }
}

// The greatest queue, or none where one is above its bound.
fn greatest(session: &Session) -> Option<i128> {
    let mut greatest = 0;
    for (queue, bound) in session.state().queues().iter().zip(session.bounds()) {
        if *queue > *bound {
            return None;
        }
        greatest = greatest.max(*queue);
    }
    Some(greatest)
}

// Closes a period with these arrivals: the queues, behind the link that was above its bucket, if one was.
fn row(alloc: Global, session: &mut Session, row: &str) -> Result<String, Stop> {
    let counts = naturals(alloc, row)?;
    let above = match close(session, &counts)? {
        0 => String::new(alloc),
        link => format!(in alloc; "above {link}: ")?,
    };
    let (state, greatest) = (session.state(), greatest(session));
    let (queues, entered, departed) = (state.queues(), state.total_in(), state.total_out());
    Ok(format!(in alloc;
        "{}{queues:?} {entered} {departed} greatest {greatest:?}\n",
        above.as_str()
    )?)
}

/// The bounds under a certificate, and the queues after each period with these arrivals.
pub fn session(alloc: Global, net: &Net, text: &str, rows: &str) -> Result<String, Stop> {
    let cert = cert(alloc, net, text)?;
    let mut session = opened(alloc, net, &cert)?;
    let mut told = format!(in alloc; "bounds {:?}\n", session.bounds())?;
    for case in rows.split('/') {
        told.push_str(row(alloc, &mut session, case)?.as_str())?;
    }
    Ok(told)
}

// The most vehicles that the buckets of the fed links take, as the levels stand, and the levels behind them.
fn fill(alloc: Global, net: &Net, levels: &mut [u64], works: bool) -> Result<Vec<u64>, Stop> {
    let per = u64::from(net.per());
    let mut counts = Vec::new(alloc);
    for (l, level) in net.fed().iter().zip(levels) {
        if per < 1 || *l < 1 || *l > net.links() {
            return Err(Stop::Unwritten);
        }
        let link = net.link(*l);
        let (burst, rate) = (u64::from(link.burst), u64::from(link.rate));
        let room = (per * burst + rate).saturating_sub(*level) / per;
        let count = if works { room } else { 0 };
        counts.push(count)?;
        *level = level
            .wrapping_add(per.wrapping_mul(count))
            .saturating_sub(rate);
    }
    Ok(counts)
}

// Closes a period that is within all buckets: the greatest queue, none of which is above its bound.
fn works(session: &mut Session, counts: &[u64]) -> Result<i128, Stop> {
    if close(session, counts)? > 0 {
        return Err(Stop::Unwritten);
    }
    greatest(session).ok_or(Stop::Unwritten)
}

/// The greatest queue of a thousand periods in which the buckets rest and are filled in turn. Each queue is
/// compared with its bound in each period.
pub fn greediest(
    alloc: Global,
    net: &Net,
    text: &str,
    rest: u64,
    work: u64,
) -> Result<String, Stop> {
    let cert = cert(alloc, net, text)?;
    let mut session = opened(alloc, net, &cert)?;
    let mut levels = Vec::from_elem(alloc, 0u64, 128)?;
    let mut most = 0;
    let mut turn = 0u64;
    for _ in 0..1000 {
        let arrivals = fill(alloc, net, &mut levels, turn >= rest)?;
        most = works(&mut session, &arrivals)?.max(most);
        turn = turn.wrapping_add(1);
        if turn >= rest.saturating_add(work) {
            turn = 0;
        }
    }
    Ok(format!(in alloc; "greatest {most}\n")?)
}
