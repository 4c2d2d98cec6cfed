//! Worked rows of tandems and of a merge, with reports of now and with old ones.
use super::*;
use mp_cert::{Cert, Mix, Mixes, has_lengths};
use mp_edge::{MemSink, MemSource};
use mp_net::{JunctionPart, LinkPart, MovementPart, Name, Net, NetParts, build};
use mp_num::Numbers;
use mp_session::Session;
use std::alloc::Global;
use std::process::Abort;
use std::test::Fail;

fn link(rt: &impl Abort, name: &[u8], burst: u32, rate: u32) -> LinkPart {
    LinkPart {
        name: Name::from_bytes(name).expect(rt, "a name"),
        burst,
        rate,
    }
}

fn movement(rt: &impl Abort, name: &[u8], from: u16, to: Option<u16>) -> MovementPart {
    MovementPart {
        name: Name::from_bytes(name).expect(rt, "a name"),
        from,
        to,
        share: 1,
        flow: 1,
        start: 0,
    }
}

// A junction with a stage for each of these movements.
fn junction(rt: &impl Abort, alloc: Global, name: &[u8], ks: &[u16]) -> Result<JunctionPart, Fail> {
    let mut stages = Vec::new(alloc);
    for k in ks {
        stages.push(Vec::from_slice(alloc, &[*k])?)?;
    }
    Ok(JunctionPart {
        name: Name::from_bytes(name).expect(rt, "a name"),
        stages,
    })
}

// A fed link `x` leads to a link `y` with this burst, at two junctions of one stage each.
fn tandem(rt: &impl Abort, alloc: Global, per: u32, delay: u32, burst: u32) -> Result<Net, Fail> {
    let mut links = Vec::new(alloc);
    links.push(link(rt, b"x", 1, 1))?;
    links.push(link(rt, b"y", burst, 0))?;
    let mut movements = Vec::new(alloc);
    movements.push(movement(rt, b"xy", 1, Some(2)))?;
    movements.push(movement(rt, b"yo", 2, None))?;
    let mut junctions = Vec::new(alloc);
    junctions.push(junction(rt, alloc, b"j1", &[1])?)?;
    junctions.push(junction(rt, alloc, b"j2", &[2])?)?;
    let parts = NetParts {
        shares: 1,
        per,
        delay,
        links,
        movements,
        junctions,
    };
    Ok(build(alloc, parts).expect(rt, "a tandem is a network"))
}

// Two approaches take turns, one of them leads to a second junction, and reports may be a period old.
fn merge(rt: &impl Abort, alloc: Global) -> Result<Net, Fail> {
    let mut links = Vec::new(alloc);
    links.push(link(rt, b"a", 1, 1))?;
    links.push(link(rt, b"b", 1, 1))?;
    links.push(link(rt, b"y", 3, 0))?;
    let mut movements = Vec::new(alloc);
    movements.push(movement(rt, b"ay", 1, Some(3)))?;
    movements.push(movement(rt, b"bo", 2, None))?;
    movements.push(movement(rt, b"yo", 3, None))?;
    let mut junctions = Vec::new(alloc);
    junctions.push(junction(rt, alloc, b"j1", &[1, 2])?)?;
    junctions.push(junction(rt, alloc, b"j2", &[3])?)?;
    let parts = NetParts {
        shares: 1,
        per: 4,
        delay: 1,
        links,
        movements,
        junctions,
    };
    Ok(build(alloc, parts).expect(rt, "a merge is a network"))
}

// A certificate, with the parts of two junctions.
fn cert(
    alloc: Global,
    (d, e): (i128, i128),
    h: &[i128],
    first: &[i128],
    second: &[i128],
) -> Result<Cert, Fail> {
    let mut mixes = Vec::new(alloc);
    for parts in [first, second] {
        mixes.push(Mix {
            whole: 1,
            parts: Numbers::new(Vec::from_slice(alloc, parts)?),
        })?;
    }
    Ok(Cert {
        d,
        e,
        h: Numbers::new(Vec::from_slice(alloc, h)?),
        mix: Mixes::new(mixes),
    })
}

// A run over this stream ends so, writes this text, and has these bounds.
fn check_run(
    rt: &impl Abort,
    alloc: Global,
    net: &Net,
    cert: &Cert,
    bounds: &[i128],
    (stream, end, text): (&[u8], RunEnd, &[u8]),
) -> Result<(), Fail> {
    assert!(rt; has_lengths(net, cert));
    let mut session = Session::open(alloc, net, cert).expect(rt, "the certificate holds");
    assert!(rt; session.bounds() == bounds);
    let mut input = MemSource::new(alloc, stream, 5, &[]).expect(rt, "there is memory");
    let mut out = MemSink::new(alloc, 400, &[]).expect(rt, "there is memory");
    assert_eq!(rt; run_stream(&mut session, &mut input, &mut out), end);
    assert!(rt; out.bytes() == text);
    Ok(())
}

const ONE_PERIOD: &[u8] = b"p 1 a 1 s 1 1 q 1 0\nend 1 in 1 out 0 queued 1\n";

const THREE_PERIODS: &[u8] =
    b"p 1 a 1 s 1 1 q 1 0\np 2 a 0 s 1 1 q 0 1\np 3 a 0 s 1 1 q 0 0\nend 3 in 1 out 1 queued 0\n";

#[test]
fn runs_of_a_tandem(rt: HostRuntime) -> Result<(), Fail> {
    let net = tandem(&rt, rt.alloc(), 2, 0, 0)?;
    let cert = cert(rt.alloc(), (4, 1), &[3, 4], &[3], &[4])?;
    let stale = RunEnd::Stale {
        line: 1,
        junction: 1,
        link: 2,
    };
    let strange = RunEnd::NotAdjacent {
        line: 1,
        junction: 2,
        link: 1,
    };
    let rows: [(&[u8], RunEnd, &[u8]); 6] = [
        (b"1\n0\n0\n", RunEnd::Done, THREE_PERIODS),
        (b"decide 1\n1\n", stale, b""),
        (b"hear 2 1\n", strange, b""),
        (
            b"hear 1 2\ndecide 2\ndecide 1\n1\n",
            RunEnd::Done,
            ONE_PERIOD,
        ),
        (
            b"decide 2\nhear 1 2\ndecide 1\n1\n",
            RunEnd::Done,
            ONE_PERIOD,
        ),
        (b"1\n", RunEnd::Done, ONE_PERIOD),
    ];
    for row in rows {
        check_run(&rt, rt.alloc(), &net, &cert, &[10, 9], row)?;
    }
    Ok(())
}

#[test]
fn hears_twice(rt: HostRuntime) -> Result<(), Fail> {
    let net = tandem(&rt, rt.alloc(), 4, 0, 3)?;
    let cert = cert(rt.alloc(), (8, 3), &[5, 8], &[5], &[8])?;
    let text: &[u8] = b"p 1 a 1 3 s 1 1 q 1 3\nend 1 in 4 out 0 queued 4\n";
    for stream in [
        b"hear 1 2\ndecide 1\nhear 1 2\ndecide 1\n1,3\n".as_slice(),
        b"1,3\n".as_slice(),
    ] {
        let row = (stream, RunEnd::Done, text);
        check_run(&rt, rt.alloc(), &net, &cert, &[18, 20], row)?;
    }
    Ok(())
}

#[test]
fn runs_by_old_reports(rt: HostRuntime) -> Result<(), Fail> {
    let net = tandem(&rt, rt.alloc(), 2, 2, 0)?;
    let of_tandem = cert(rt.alloc(), (4, 1), &[3, 4], &[3], &[4])?;
    let row: (&[u8], RunEnd, &[u8]) = (b"1\n0\n0\n", RunEnd::Done, THREE_PERIODS);
    check_run(&rt, rt.alloc(), &net, &of_tandem, &[26, 25], row)?;
    let net = merge(&rt, rt.alloc())?;
    let of_merge = cert(rt.alloc(), (4, 1), &[2, 2, 3], &[2, 2], &[3])?;
    let rows: [(&[u8], RunEnd, &[u8]); 2] = [
        (
            b"1,1,3\n0,0,0\n0,0,0\n",
            RunEnd::Done,
            b"p 1 a 1 1 3 s 1 1 q 1 1 3\np 2 a 0 0 0 s 1 1 q 1 1 2\np 3 a 0 0 0 s 2 1 q 1 0 1\nend 3 in 5 out 3 queued 2\n",
        ),
        (
            b"1,1,3\nhear 1 3\n0,0,0\n",
            RunEnd::Done,
            b"p 1 a 1 1 3 s 1 1 q 1 1 3\np 2 a 0 0 0 s 2 1 q 1 0 2\nend 2 in 5 out 2 queued 3\n",
        ),
    ];
    for row in rows {
        check_run(&rt, rt.alloc(), &net, &of_merge, &[64, 64, 66], row)?;
    }
    Ok(())
}

#[test]
fn keeps_what_a_refused_line_heard(rt: HostRuntime) -> Result<(), Fail> {
    let net = tandem(&rt, rt.alloc(), 2, 0, 0)?;
    let cert = cert(rt.alloc(), (4, 1), &[3, 4], &[3], &[4])?;
    assert!(rt; has_lengths(&net, &cert));
    let mut session = Session::open(rt.alloc(), &net, &cert).expect(&rt, "the certificate holds");
    let mut input = MemSource::new(rt.alloc(), b"1\n1\n# now above\n1\n", 5, &[]).expect(
        &rt,
        "there is memory",
    );
    let mut out = MemSink::new(rt.alloc(), 400, &[]).expect(&rt, "there is memory");
    assert_eq!(rt;
        run_stream(&mut session, &mut input, &mut out),
        RunEnd::Above {
            line: 4,
            period: 3,
            link: 1
        }
    );
    assert!(rt; out.bytes() == b"p 1 a 1 s 1 1 q 1 0\np 2 a 1 s 1 1 q 1 1\n".as_slice());
    assert_eq!(rt; net.junctions(), 2);
    assert!(rt; session.round().decided(1));
    Ok(())
}
