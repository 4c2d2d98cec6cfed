//! Certificates and vectors: their texts, their rules and their sums.

use crate::calls::text;
use crate::files::{Stop, integers, word};
use mp_cert::{
    Against, Cert, Mix, Mixes, check, has_lengths, print_against, print_cert, read_against,
    read_cert, slack, weigh,
};
use mp_edge::MemSink;
use mp_net::Net;
use mp_num::Numbers;
use std::alloc::Global;

fn sink(alloc: Global, room: usize) -> Result<MemSink, Stop> {
    match MemSink::new(alloc, room, &[]) {
        Ok(sink) => Ok(sink),
        Err(_) => Err(Stop::NoMemory),
    }
}

/// The certificate of a text as it is printed, or why it is none.
pub fn read_certificate(alloc: Global, net: &Net, bytes: &[u8]) -> Result<String, Stop> {
    match read_cert(alloc, net, bytes) {
        Ok(cert) => {
            let mut out = sink(alloc, 1000)?;
            let _ = print_cert(&mut out, &cert);
            Ok(String::from_str(alloc, text(&out)?)?)
        }
        Err(fault) => Ok(format!(in alloc; "{fault:?}\n")?),
    }
}

/// The vector of a text as it is printed to a sink of this room, or why it is none.
pub fn read_vector(alloc: Global, net: &Net, room: usize, bytes: &[u8]) -> Result<String, Stop> {
    match read_against(alloc, net, bytes) {
        Ok(against) => {
            let mut out = sink(alloc, room)?;
            let end = if print_against(&mut out, &against).is_ok() {
                ""
            } else {
                " and no room\n"
            };
            Ok(format!(in alloc; "{}{end}", text(&out)?)?)
        }
        Err(fault) => Ok(format!(in alloc; "{fault:?}\n")?),
    }
}

// D,E H,H.. WHOLE,PART,PART.. WHOLE,PART..
fn certificate(alloc: Global, case: &str) -> Result<Cert, Stop> {
    let (firsts, case) = word(case)?;
    let (rates, mixes) = word(case)?;
    let firsts = integers(alloc, firsts)?;
    let mut mix = Vec::new(alloc);
    for row in mixes.split(' ') {
        let (whole, parts) = match row.split_once(',') {
            Some(both) => both,
            None => (row, ""),
        };
        let whole = integers(alloc, whole)?;
        mix.push(Mix {
            whole: whole.first().copied().unwrap_or(0),
            parts: Numbers::new(integers(alloc, parts)?),
        })?;
    }
    Ok(Cert {
        d: firsts.first().copied().unwrap_or(0),
        e: firsts.get(1).copied().unwrap_or(0),
        h: Numbers::new(integers(alloc, rates)?),
        mix: Mixes::new(mix),
    })
}

/// The slack of a certificate that holds, or the first rule that it breaks.
pub fn checked(alloc: Global, net: &Net, case: &str) -> Result<String, Stop> {
    let cert = certificate(alloc, case)?;
    if !has_lengths(net, &cert) {
        return Ok(String::from_str(alloc, "other lengths\n")?);
    }
    if let Err(fault) = check(net, &cert) {
        return Ok(format!(in alloc; "{fault:?}\n")?);
    }
    if cert.d < 1 {
        return Err(Stop::Unwritten);
    }
    let slack = slack(&cert);
    Ok(format!(in alloc; "{}/{}\n", slack.num(), slack.den())?)
}

/// The sums of a vector.
pub fn weighed(alloc: Global, net: &Net, case: &str) -> Result<String, Stop> {
    let p = integers(alloc, case)?;
    if p.len() != usize::from(net.movements()) || !p.iter().all(|x| *x >= 0) {
        return Err(Stop::Unwritten);
    }
    match weigh(net, &Against { p: Numbers::new(p) }) {
        Ok(sums) => Ok(format!(in alloc; "load {} served {}\n", sums.load, sums.served)?),
        Err(overflow) => Ok(format!(in alloc; "{overflow:?}\n")?),
    }
}
