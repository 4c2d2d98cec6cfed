//! Worked rows of a tandem, and of a merge with old reports.
use super::*;
use mp_model::limits::MOST_LINES;
use mp_net::{JunctionPart, LinkPart, MovementPart, Name, Net, NetParts, build};
use mp_step::AboveAt;
use std::alloc::{AllocError, Global};
use std::process::Abort;
use std::test::Fail;

fn name(rt: &impl Abort, text: &[u8]) -> Name {
    Name::from_bytes(text).expect(rt, "a name")
}

fn link(rt: &impl Abort, text: &[u8], burst: u32, rate: u32) -> LinkPart {
    LinkPart {
        name: name(rt, text),
        burst,
        rate,
    }
}

fn movement(rt: &impl Abort, text: &[u8], from: u16, to: Option<u16>) -> MovementPart {
    MovementPart {
        name: name(rt, text),
        from,
        to,
        share: 1,
        flow: 1,
        start: 0,
    }
}

// A junction with a stage for each of these movements.
fn junction(
    rt: &impl Abort,
    alloc: Global,
    text: &[u8],
    ks: &[u16],
) -> Result<JunctionPart, AllocError> {
    let mut stages = Vec::new(alloc);
    for k in ks {
        let mut stage = Vec::new(alloc);
        stage.push(*k)?;
        stages.push(stage)?;
    }
    Ok(JunctionPart {
        name: name(rt, text),
        stages,
    })
}

// One link feeds the next, at two junctions of one stage each.
fn tandem(rt: &impl Abort, alloc: Global) -> Result<NetParts, AllocError> {
    let mut links = Vec::new(alloc);
    links.push(link(rt, b"x", 1, 1))?;
    links.push(link(rt, b"y", 0, 0))?;
    let mut movements = Vec::new(alloc);
    movements.push(movement(rt, b"xy", 1, Some(2)))?;
    movements.push(movement(rt, b"yo", 2, None))?;
    let mut junctions = Vec::new(alloc);
    junctions.push(junction(rt, alloc, b"j1", &[1])?)?;
    junctions.push(junction(rt, alloc, b"j2", &[2])?)?;
    Ok(NetParts {
        shares: 1,
        per: 2,
        delay: 0,
        links,
        movements,
        junctions,
    })
}

// Two approaches take turns, one of them leads to a second junction, and reports may be a period old.
fn merge(rt: &impl Abort, alloc: Global) -> Result<NetParts, AllocError> {
    let mut links = Vec::new(alloc);
    links.push(link(rt, b"a", 1, 1))?;
    links.push(link(rt, b"b", 1, 1))?;
    links.push(link(rt, b"y", 3, 0))?;
    let mut movements = Vec::new(alloc);
    movements.push(movement(rt, b"ay", 1, Some(3)))?;
    movements.push(movement(rt, b"bo", 2, None))?;
    movements.push(movement(rt, b"yo", 3, None))?;
    let mut junctions = Vec::new(alloc);
    junctions.push(junction(rt, alloc, b"j1", &[1, 2])?)?;
    junctions.push(junction(rt, alloc, b"j2", &[3])?)?;
    Ok(NetParts {
        shares: 1,
        per: 4,
        delay: 1,
        links,
        movements,
        junctions,
    })
}

fn made(rt: &impl Abort, alloc: Global, parts: NetParts) -> Net {
    let Ok(net) = build(alloc, parts) else {
        panic!(rt; "the parts meet the rules");
    };
    net
}

#[test]
fn answers_of_a_tandem(rt: HostRuntime) -> Result<(), Fail> {
    let net = made(&rt, rt.alloc(), tandem(&rt, rt.alloc())?);
    let Ok(mut round) = Round::new(rt.alloc(), &net) else {
        panic!(rt; "there is memory");
    };
    assert_eq!(rt; net.junctions(), 2);
    assert_eq!(rt; net.fed().len(), 1);
    assert!(rt; round.state().period() < MOST_LINES);
    let close = Event::Close { arrivals: &[1] };
    assert_eq!(rt;
        round.apply(&net, &close),
        Answer::Undecided { junction: 1 }
    );
    let first = Event::Decide { junction: 1 };
    assert_eq!(rt;
        round.apply(&net, &first),
        Answer::Stale {
            junction: 1,
            link: 2
        }
    );
    let second = Event::Decide { junction: 2 };
    assert_eq!(rt; round.apply(&net, &second), Answer::Chose { stage: 1 });
    assert!(rt; !round.heard(&net, 1, 2));
    let hear = Event::Hear {
        junction: 1,
        link: 2,
    };
    assert_eq!(rt; round.apply(&net, &hear), Answer::Heard);
    assert!(rt; round.heard(&net, 1, 2));
    let strange = Event::Hear {
        junction: 2,
        link: 1,
    };
    assert_eq!(rt;
        round.apply(&net, &strange),
        Answer::NotAdjacent {
            junction: 2,
            link: 1
        }
    );
    Ok(())
}

#[test]
fn stages_of_a_merge(rt: HostRuntime) -> Result<(), Fail> {
    let net = made(&rt, rt.alloc(), merge(&rt, rt.alloc())?);
    let Ok(mut round) = Round::new(rt.alloc(), &net) else {
        panic!(rt; "there is memory");
    };
    assert_eq!(rt; net.fed().len(), 3);
    assert!(rt; round.state().period() < MOST_LINES);
    assert!(rt; round.close_all(&net, &[1, 1, 3]).is_ok());
    assert_eq!(rt; round.stages(), [1, 1].as_slice());
    assert!(rt; round.state().period() < MOST_LINES);
    assert!(rt; round.close_all(&net, &[0, 0, 0]).is_ok());
    assert_eq!(rt; round.stages(), [1, 1].as_slice());
    assert!(rt; round.state().period() < MOST_LINES);
    assert!(rt; round.close_all(&net, &[9, 0, 0]).is_err());
    assert!(rt; round.state().period() < MOST_LINES);
    assert!(rt; round.close_all(&net, &[0, 0, 0]).is_ok());
    assert_eq!(rt; round.stages(), [2, 1].as_slice());
    assert_eq!(rt; round.state().period(), 3);
    Ok(())
}

#[test]
fn lines_of_a_tandem(rt: HostRuntime) -> Result<(), Fail> {
    let net = made(&rt, rt.alloc(), tandem(&rt, rt.alloc())?);
    let Ok(mut round) = Round::new(rt.alloc(), &net) else {
        panic!(rt; "there is memory");
    };
    assert_eq!(rt; net.junctions(), 2);
    assert_eq!(rt; net.fed().len(), 1);
    let hear = Event::Hear {
        junction: 1,
        link: 2,
    };
    assert_eq!(rt; round.apply(&net, &hear), Answer::Heard);
    let first = Event::Decide { junction: 1 };
    assert_eq!(rt; round.apply(&net, &first), Answer::Chose { stage: 1 });
    assert!(rt; round.state().period() < MOST_LINES);
    assert!(rt; round.close_all(&net, &[1]).is_ok());
    assert!(rt; !round.heard(&net, 1, 2));
    assert_eq!(rt; round.state().queues(), [1, 0].as_slice());
    assert!(rt; round.state().period() < MOST_LINES);
    assert!(rt; round.close_all(&net, &[1]).is_ok());
    assert!(rt; !round.heard(&net, 1, 2));
    assert_eq!(rt; round.state().queues(), [1, 1].as_slice());
    assert!(rt; round.state().period() < MOST_LINES);
    assert_eq!(rt; round.close_all(&net, &[1]), Err(AboveAt { link: 1 }));
    assert!(rt; round.heard(&net, 1, 2));
    assert!(rt; round.state().period() < MOST_LINES);
    assert!(rt; round.close_all(&net, &[0]).is_ok());
    assert_eq!(rt; round.stages(), [1, 1].as_slice());
    assert_eq!(rt; round.state().queues(), [1, 0].as_slice());
    assert_eq!(rt; round.state().period(), 3);
    Ok(())
}
