//! Logs of a merge with reports that may be a period old.
use super::*;
use mp_cert::{Cert, Mix, Mixes, has_lengths};
use mp_edge::MemSource;
use mp_net::{JunctionPart, LinkPart, MovementPart, Name, Net, NetParts, build};
use mp_num::Numbers;
use mp_run::AuditEnd;
use mp_session::Session;
use std::alloc::Global;
use std::process::Abort;
use std::test::Fail;

// The run of the lines `1,1,3`, `0,0,0` and `0,0,0`.
const LOG: &[u8] =
    b"maxpressure 1\nslack 1/4\nbound 1 ay 64\nbound 2 bo 64\nbound 3 yo 66\np 1 a 1 1 3 s 1 1 q 1 1 3\np 2 a 0 0 0 s 1 1 q 1 1 2\np 3 a 0 0 0 s 2 1 q 1 0 1\nend 3 in 5 out 3 queued 2\n";

// The run where the first junction hears the last link again in the second period.
const HEARD_AGAIN: &[u8] =
    b"maxpressure 1\nslack 1/4\nbound 1 ay 64\nbound 2 bo 64\nbound 3 yo 66\np 1 a 1 1 3 s 1 1 q 1 1 3\np 2 a 0 0 0 s 2 1 q 1 0 2\nend 2 in 5 out 2 queued 3\n";

// The first period alone, without the end line.
const UNFINISHED: &[u8] =
    b"maxpressure 1\nslack 1/4\nbound 1 ay 64\nbound 2 bo 64\nbound 3 yo 66\np 1 a 1 1 3 s 1 1 q 1 1 3\n";

// A bound of the header is another.
const OTHER_BOUND: &[u8] = b"maxpressure 1\nslack 1/4\nbound 1 ay 65\n";

fn link(rt: &impl Abort, name: &[u8], burst: u32, rate: u32) -> LinkPart {
    LinkPart {
        name: Name::from_bytes(name).expect(rt, "a name"),
        burst,
        rate,
    }
}

fn movement(rt: &impl Abort, name: &[u8], from: u16, to: Option<u16>) -> MovementPart {
    MovementPart {
        name: Name::from_bytes(name).expect(rt, "a name"),
        from,
        to,
        share: 1,
        flow: 1,
        start: 0,
    }
}

// A junction with a stage for each of these movements.
fn junction(rt: &impl Abort, alloc: Global, name: &[u8], ks: &[u16]) -> Result<JunctionPart, Fail> {
    let mut stages = Vec::new(alloc);
    for k in ks {
        stages.push(Vec::from_slice(alloc, &[*k])?)?;
    }
    Ok(JunctionPart {
        name: Name::from_bytes(name).expect(rt, "a name"),
        stages,
    })
}

// Two approaches take turns, one of them leads to a second junction, and reports may be a period old.
fn merge(rt: &impl Abort, alloc: Global) -> Result<Net, Fail> {
    let mut links = Vec::new(alloc);
    links.push(link(rt, b"a", 1, 1))?;
    links.push(link(rt, b"b", 1, 1))?;
    links.push(link(rt, b"y", 3, 0))?;
    let mut movements = Vec::new(alloc);
    movements.push(movement(rt, b"ay", 1, Some(3)))?;
    movements.push(movement(rt, b"bo", 2, None))?;
    movements.push(movement(rt, b"yo", 3, None))?;
    let mut junctions = Vec::new(alloc);
    junctions.push(junction(rt, alloc, b"j1", &[1, 2])?)?;
    junctions.push(junction(rt, alloc, b"j2", &[3])?)?;
    let parts = NetParts {
        shares: 1,
        per: 4,
        delay: 1,
        links,
        movements,
        junctions,
    };
    Ok(build(alloc, parts).expect(rt, "a merge is a network"))
}

// A certificate of the merge with its greatest slack.
fn cert_of(alloc: Global) -> Result<Cert, Fail> {
    let mut mixes = Vec::new(alloc);
    mixes.push(Mix {
        whole: 1,
        parts: Numbers::new(Vec::from_slice(alloc, &[2, 2])?),
    })?;
    mixes.push(Mix {
        whole: 1,
        parts: Numbers::new(Vec::from_slice(alloc, &[3])?),
    })?;
    Ok(Cert {
        d: 4,
        e: 1,
        h: Numbers::new(Vec::from_slice(alloc, &[2, 2, 3])?),
        mix: Mixes::new(mixes),
    })
}

// How the audit of a log under the merge ends.
fn end_of(rt: &impl Abort, alloc: Global, log: &[u8]) -> Result<AuditEnd, Fail> {
    let net = merge(rt, alloc)?;
    let cert = cert_of(alloc)?;
    assert!(rt; has_lengths(&net, &cert));
    let mut session = Session::open(alloc, &net, &cert).expect(rt, "the certificate holds");
    let mut input = MemSource::new(alloc, log, 7, &[]).expect(rt, "there is memory");
    Ok(audit(&mut session, &mut input))
}

#[test]
fn accepts_a_log_by_old_reports(rt: HostRuntime) -> Result<(), Fail> {
    let end = end_of(&rt, rt.alloc(), LOG)?;
    assert_eq!(rt; end, AuditEnd::Done { periods: 3 });
    Ok(())
}

#[test]
fn names_the_first_other_line(rt: HostRuntime) -> Result<(), Fail> {
    let heard = end_of(&rt, rt.alloc(), HEARD_AGAIN)?;
    assert_eq!(rt; heard, AuditEnd::Differs { line: 7 });
    let unfinished = end_of(&rt, rt.alloc(), UNFINISHED)?;
    assert_eq!(rt; unfinished, AuditEnd::Differs { line: 7 });
    let bound = end_of(&rt, rt.alloc(), OTHER_BOUND)?;
    assert_eq!(rt; bound, AuditEnd::Differs { line: 3 });
    Ok(())
}
