//! Worked rows of a tandem, event by event, and of one by old reports.
use super::*;
use mp_cert::{Cert, Mix, Mixes, has_lengths};
use mp_model::limits::MOST_LINES;
use mp_net::{JunctionNo, JunctionPart, LinkPart, MovementPart, Name, Net, NetParts, build};
use mp_num::Numbers;
use mp_round::{Answer, Event};
use mp_step::AboveAt;
use std::alloc::Global;
use std::process::Abort;
use std::test::Fail;

fn name(rt: &impl Abort, text: &[u8]) -> Name {
    Name::from_bytes(text).expect(rt, "a name")
}

fn link(rt: &impl Abort, text: &[u8], burst: u32, rate: u32) -> LinkPart {
    LinkPart {
        name: name(rt, text),
        burst,
        rate,
    }
}

fn movement(rt: &impl Abort, text: &[u8], from: u16, to: Option<u16>) -> MovementPart {
    MovementPart {
        name: name(rt, text),
        from,
        to,
        share: 1,
        flow: 1,
        start: 0,
    }
}

// A junction with a stage for each of these movements.
fn junction(rt: &impl Abort, alloc: Global, text: &[u8], ks: &[u16]) -> Result<JunctionPart, Fail> {
    let mut stages = Vec::new(alloc);
    for k in ks {
        stages.push(Vec::from_slice(alloc, &[*k])?)?;
    }
    Ok(JunctionPart {
        name: name(rt, text),
        stages,
    })
}

// One link feeds the next, at two junctions of one stage each.
fn tandem(rt: &impl Abort, alloc: Global, delay: u32) -> Result<Net, Fail> {
    let mut links = Vec::new(alloc);
    links.push(link(rt, b"x", 1, 1))?;
    links.push(link(rt, b"y", 0, 0))?;
    let mut movements = Vec::new(alloc);
    movements.push(movement(rt, b"xy", 1, Some(2)))?;
    movements.push(movement(rt, b"yo", 2, None))?;
    let mut junctions = Vec::new(alloc);
    junctions.push(junction(rt, alloc, b"j1", &[1])?)?;
    junctions.push(junction(rt, alloc, b"j2", &[2])?)?;
    let parts = NetParts {
        shares: 1,
        per: 2,
        delay,
        links,
        movements,
        junctions,
    };
    Ok(build(alloc, parts).expect(rt, "a tandem is a network"))
}

// A certificate of the tandem with this excess: 1 gives the greatest slack, and with 2 a balance is broken.
fn cert_of(alloc: Global, e: i128) -> Result<Cert, Fail> {
    let mut mixes = Vec::new(alloc);
    for part in [3, 4] {
        mixes.push(Mix {
            whole: 1,
            parts: Numbers::new(Vec::from_slice(alloc, &[part])?),
        })?;
    }
    Ok(Cert {
        d: 4,
        e,
        h: Numbers::new(Vec::from_slice(alloc, &[3, 4])?),
        mix: Mixes::new(mixes),
    })
}

fn close(rt: &impl Abort, session: &mut Session, arrivals: &[u64]) -> Answer {
    assert_eq!(rt; session.net().fed().len(), arrivals.len());
    assert!(rt; arrivals.iter().all(|a| *a < 1_000_000_000));
    assert!(rt; session.state().period() < MOST_LINES);
    session.apply(&Event::Close { arrivals })
}

fn close_all(rt: &impl Abort, session: &mut Session, arrivals: &[u64]) -> Result<(), AboveAt> {
    assert_eq!(rt; session.net().fed().len(), arrivals.len());
    assert!(rt; arrivals.iter().all(|a| *a < 1_000_000_000));
    assert!(rt; session.state().period() < MOST_LINES);
    session.close_all(arrivals)
}

fn decide(rt: &impl Abort, session: &mut Session, junction: JunctionNo) -> Answer {
    assert!(rt; junction >= 1 && junction <= session.net().junctions());
    session.apply(&Event::Decide { junction })
}

#[test]
fn answers_of_a_tandem(rt: HostRuntime) -> Result<(), Fail> {
    let net = tandem(&rt, rt.alloc(), 0)?;
    let cert = cert_of(rt.alloc(), 1)?;
    assert!(rt; has_lengths(&net, &cert));
    let mut session = Session::open(rt.alloc(), &net, &cert).expect(&rt, "the certificate holds");
    assert_eq!(rt; (session.slack().num(), session.slack().den()), (1, 4));
    assert!(rt; session.bounds() == [10, 9].as_slice());
    let refused = close(&rt, &mut session, &[1]);
    assert_eq!(rt; refused, Answer::Undecided { junction: 1 });
    let stale = decide(&rt, &mut session, 1);
    assert_eq!(rt;
        stale,
        Answer::Stale {
            junction: 1,
            link: 2
        }
    );
    let chose = decide(&rt, &mut session, 2);
    assert_eq!(rt; chose, Answer::Chose { stage: 1 });
    Ok(())
}

#[test]
fn runs_by_old_reports(rt: HostRuntime) -> Result<(), Fail> {
    let net = tandem(&rt, rt.alloc(), 2)?;
    let cert = cert_of(rt.alloc(), 1)?;
    assert!(rt; has_lengths(&net, &cert));
    let mut session = Session::open(rt.alloc(), &net, &cert).expect(&rt, "the certificate holds");
    assert_eq!(rt; (session.slack().num(), session.slack().den()), (1, 4));
    assert!(rt; session.bounds() == [26, 25].as_slice());
    assert!(rt; session.stages().is_empty());
    let first = close_all(&rt, &mut session, &[1]);
    assert_eq!(rt; first, Ok(()));
    assert!(rt; session.stages() == [1, 1].as_slice());
    assert!(rt; session.state().queues() == [1, 0].as_slice());
    let above = close_all(&rt, &mut session, &[9]);
    assert_eq!(rt; above, Err(AboveAt { link: 1 }));
    assert!(rt; session.state().queues() == [1, 0].as_slice());
    let second = close_all(&rt, &mut session, &[0]);
    assert_eq!(rt; second, Ok(()));
    assert!(rt; session.state().queues() == [0, 1].as_slice());
    let third = close_all(&rt, &mut session, &[0]);
    assert_eq!(rt; third, Ok(()));
    assert!(rt; session.state().queues() == [0, 0].as_slice());
    assert_eq!(rt; session.state().total_out(), 1);
    Ok(())
}

#[test]
fn refuses_a_certificate(rt: HostRuntime) -> Result<(), Fail> {
    let net = tandem(&rt, rt.alloc(), 0)?;
    let cert = cert_of(rt.alloc(), 2)?;
    assert!(rt; has_lengths(&net, &cert));
    assert!(rt;
        matches!(
            Session::open(rt.alloc(), &net, &cert),
            Err(mp_drift::OpenFault::Cert(_))
        )
    );
    Ok(())
}
