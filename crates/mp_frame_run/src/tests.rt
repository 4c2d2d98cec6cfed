//! Worked rows of two approaches that take turns, by frames of three periods.
use super::*;
use mp_cert::{Cert, Mix, Mixes, has_lengths};
use mp_edge::{MemSink, MemSource};
use mp_frame::frame_net;
use mp_net::{JunctionPart, LinkPart, MovementPart, Name, Net, NetParts, build};
use mp_num::Numbers;
use mp_stream::ArrivalsEnd;
use std::alloc::Global;
use std::process::Abort;
use std::test::Fail;

const STREAM: &[u8] = b"2,1\n0,0\n0,0\n0,0\n0,0\n0,0\n0,0\n0,0\n";

const TEXT: &[u8] =
    b"p 1 a 2 1 s 1 q 2 1\np 2 a 0 0 s 1 q 2 1\np 3 a 0 0 s 1 q 2 1\np 4 a 0 0 s 1 q 0 1\np 5 a 0 0 s 1 q 0 1\np 6 a 0 0 s 1 q 0 1\np 7 a 0 0 s 2 q 0 1\np 8 a 0 0 s 2 q 0 0\nend 8 in 3 out 3 queued 0\n";

// The fourth line is above the bucket of the first link, at the beginning of a frame.
const ABOVE: &[u8] = b"2,1\n0,0\n0,0\n9,0\n0,0\n";

const BEFORE: &[u8] = b"p 1 a 2 1 s 1 q 2 1\np 2 a 0 0 s 1 q 2 1\np 3 a 0 0 s 1 q 2 1\n";

fn link(rt: &impl Abort, name: &[u8]) -> LinkPart {
    LinkPart {
        name: Name::from_bytes(name).expect(rt, "a name"),
        burst: 2,
        rate: 1,
    }
}

fn movement(rt: &impl Abort, name: &[u8], from: u16) -> MovementPart {
    MovementPart {
        name: Name::from_bytes(name).expect(rt, "a name"),
        from,
        to: None,
        share: 1,
        flow: 2,
        start: 0,
    }
}

// Two approaches of a junction take turns.
fn two_approaches(rt: &impl Abort, alloc: Global) -> Result<Net, Fail> {
    let mut links = Vec::new(alloc);
    links.push(link(rt, b"a"))?;
    links.push(link(rt, b"b"))?;
    let mut movements = Vec::new(alloc);
    movements.push(movement(rt, b"ao", 1))?;
    movements.push(movement(rt, b"bo", 2))?;
    let mut stages = Vec::new(alloc);
    stages.push(Vec::from_slice(alloc, &[1])?)?;
    stages.push(Vec::from_slice(alloc, &[2])?)?;
    let mut junctions = Vec::new(alloc);
    junctions.push(JunctionPart {
        name: Name::from_bytes(b"j").expect(rt, "a name"),
        stages,
    })?;
    let parts = NetParts {
        shares: 1,
        per: 4,
        delay: 0,
        links,
        movements,
        junctions,
    };
    Ok(build(alloc, parts).expect(rt, "two approaches are a network"))
}

// A certificate of their frame network with this excess: 5 gives the greatest slack, and with 6 a balance is broken.
fn cert_of(alloc: Global, e: i128) -> Result<Cert, Fail> {
    let mut mixes = Vec::new(alloc);
    mixes.push(Mix {
        whole: 1,
        parts: Numbers::new(Vec::from_slice(alloc, &[4, 4])?),
    })?;
    Ok(Cert {
        d: 8,
        e,
        h: Numbers::new(Vec::from_slice(alloc, &[8, 8])?),
        mix: Mixes::new(mixes),
    })
}

// How a run by frames of three periods over this stream ends, and what it writes.
fn run(rt: &impl Abort, alloc: Global, stream: &[u8]) -> Result<(ArrivalsEnd, MemSink), Fail> {
    let net = two_approaches(rt, alloc)?;
    let framed = frame_net(alloc, &net, 3).expect(rt, "two approaches have frames");
    let cert = cert_of(alloc, 5)?;
    assert!(rt; has_lengths(&framed, &cert));
    let mut session = FrameSession::open(alloc, &net, 3, &framed, &cert).expect(
        rt,
        "the certificate holds",
    );
    assert_eq!(rt; session.periods(), 3);
    assert_eq!(rt; (session.slack().num(), session.slack().den()), (5, 8));
    assert!(rt; session.bounds() == [65, 65].as_slice());
    assert!(rt; session.stages() == [0].as_slice());
    let mut input = MemSource::new(alloc, stream, 5, &[]).expect(rt, "there is memory");
    let mut out = MemSink::new(alloc, 400, &[]).expect(rt, "there is memory");
    let end = run_frames(&mut session, &mut input, &mut out);
    Ok((end, out))
}

#[test]
fn runs_by_frames(rt: HostRuntime) -> Result<(), Fail> {
    let (end, out) = run(&rt, rt.alloc(), STREAM)?;
    assert_eq!(rt; end, ArrivalsEnd::Done);
    assert!(rt; out.bytes() == TEXT);
    Ok(())
}

#[test]
fn stops_above_a_bucket(rt: HostRuntime) -> Result<(), Fail> {
    let (end, out) = run(&rt, rt.alloc(), ABOVE)?;
    assert_eq!(rt;
        end,
        ArrivalsEnd::Above {
            line: 4,
            period: 4,
            link: 1
        }
    );
    assert!(rt; out.bytes() == BEFORE);
    Ok(())
}

#[test]
fn takes_no_events(rt: HostRuntime) -> Result<(), Fail> {
    let (end, out) = run(&rt, rt.alloc(), b"2,1\ndecide 1\n")?;
    assert_eq!(rt; end, ArrivalsEnd::Grammar { line: 2 });
    assert!(rt; out.bytes() == b"p 1 a 2 1 s 1 q 2 1\n".as_slice());
    Ok(())
}

#[test]
fn refuses_a_certificate(rt: HostRuntime) -> Result<(), Fail> {
    let net = two_approaches(&rt, rt.alloc())?;
    let framed = frame_net(rt.alloc(), &net, 3).expect(&rt, "two approaches have frames");
    let cert = cert_of(rt.alloc(), 6)?;
    assert!(rt; has_lengths(&framed, &cert));
    assert!(rt;
        matches!(
            FrameSession::open(rt.alloc(), &net, 3, &framed, &cert),
            Err(FrameOpen::Cert(_))
        )
    );
    Ok(())
}
