use super::*;
use mp_net::{
    JunctionPart, LinkNo, LinkPart, MovementNo, MovementPart, Name, Net, NetParts, build,
};
use std::alloc::Global;
use std::process::Abort;
use std::test::Fail;

fn name(rt: &impl Abort, byte: u8) -> Name {
    Name::from_bytes(&[byte]).expect(rt, "a letter is a name")
}

// A link with its burst and its rate.
fn link(rt: &impl Abort, byte: u8, burst: u32, rate: u32) -> LinkPart {
    LinkPart {
        name: name(rt, byte),
        burst,
        rate,
    }
}

// A movement with share 1 and no start queue.
fn movement(
    rt: &impl Abort,
    byte: u8,
    from: LinkNo,
    to: Option<LinkNo>,
    flow: u32,
) -> MovementPart {
    MovementPart {
        name: name(rt, byte),
        from,
        to,
        share: 1,
        flow,
        start: 0,
    }
}

// A junction whose stages have a movement each.
fn junction(
    rt: &impl Abort,
    alloc: Global,
    byte: u8,
    movements: &[MovementNo],
) -> Result<JunctionPart, Fail> {
    let mut stages = Vec::new(alloc);
    for k in movements {
        stages.push(Vec::from_slice(alloc, &[*k])?)?;
    }
    Ok(JunctionPart {
        name: name(rt, byte),
        stages,
    })
}

// Two links a and b, whose movements leave the network by a junction with a stage for each.
fn approaches(rt: &impl Abort, alloc: Global, rate: u32) -> Result<Net, Fail> {
    let mut links = Vec::new(alloc);
    links.push(link(rt, b'a', 2, rate))?;
    links.push(link(rt, b'b', 2, rate))?;
    let mut movements = Vec::new(alloc);
    movements.push(movement(rt, b'a', 1, None, 2))?;
    movements.push(movement(rt, b'b', 2, None, 2))?;
    let mut junctions = Vec::new(alloc);
    junctions.push(junction(rt, alloc, b'j', &[1, 2])?)?;
    let parts = NetParts {
        shares: 1,
        per: 4,
        delay: 0,
        links,
        movements,
        junctions,
    };
    Ok(build(alloc, parts).expect(rt, "two approaches are a network"))
}

// A link x that is followed by a link y, each with a junction.
fn tandem(rt: &impl Abort, alloc: Global) -> Result<Net, Fail> {
    let mut links = Vec::new(alloc);
    links.push(link(rt, b'x', 1, 1))?;
    links.push(link(rt, b'y', 0, 0))?;
    let mut movements = Vec::new(alloc);
    movements.push(movement(rt, b'x', 1, Some(2), 1))?;
    movements.push(movement(rt, b'y', 2, None, 1))?;
    let mut junctions = Vec::new(alloc);
    junctions.push(junction(rt, alloc, b'i', &[1])?)?;
    junctions.push(junction(rt, alloc, b'j', &[2])?)?;
    let parts = NetParts {
        shares: 1,
        per: 2,
        delay: 0,
        links,
        movements,
        junctions,
    };
    Ok(build(alloc, parts).expect(rt, "a tandem is a network"))
}

// A link x, half of whose vehicles come back to it.
fn circle(rt: &impl Abort, alloc: Global) -> Result<Net, Fail> {
    let mut links = Vec::new(alloc);
    links.push(link(rt, b'x', 1, 1))?;
    let mut movements = Vec::new(alloc);
    movements.push(movement(rt, b'x', 1, Some(1), 2))?;
    movements.push(movement(rt, b'o', 1, None, 2))?;
    let mut stages = Vec::new(alloc);
    stages.push(Vec::from_slice(alloc, &[1, 2])?)?;
    let mut junctions = Vec::new(alloc);
    junctions.push(JunctionPart {
        name: name(rt, b'j'),
        stages,
    })?;
    let parts = NetParts {
        shares: 2,
        per: 4,
        delay: 0,
        links,
        movements,
        junctions,
    };
    Ok(build(alloc, parts).expect(rt, "a circle is a network"))
}

#[test]
fn plans_two_approaches(rt: HostRuntime) -> Result<(), Fail> {
    let net = approaches(&rt, rt.alloc(), 1)?;
    let plan = make(rt.alloc(), &net, 4).expect(&rt, "two approaches have a plan");
    assert_eq!(rt; plan.cycle(), 4);
    assert_eq!(rt; plan.junctions(), 1);
    assert!(rt; plan.greens(1) == [1, 1].as_slice());
    assert!(rt; plan.bounds() == [3, 3].as_slice());
    for (period, stage) in [(1, 1), (2, 2), (3, 0), (4, 0), (5, 1)] {
        assert_eq!(rt;
            running(&plan, 1, period),
            stage,
            "the stage of period {period}"
        );
    }
    Ok(())
}

#[test]
fn plans_a_tandem(rt: HostRuntime) -> Result<(), Fail> {
    let net = tandem(&rt, rt.alloc())?;
    let plan = make(rt.alloc(), &net, 2).expect(&rt, "a tandem has a plan");
    assert!(rt; plan.junctions() == 2);
    assert!(rt; plan.greens(1) == [1].as_slice());
    assert!(rt; plan.greens(2) == [1].as_slice());
    assert!(rt; plan.bounds() == [2, 3].as_slice());
    assert_eq!(rt; plan.bound(1), 2);
    Ok(())
}

#[test]
fn refuses_a_circle(rt: HostRuntime) -> Result<(), Fail> {
    let net = circle(&rt, rt.alloc())?;
    assert!(rt; matches!(make(rt.alloc(), &net, 8), Err(PlanFault::Cycle { link: 1 })));
    Ok(())
}

#[test]
fn refuses_a_full_junction(rt: HostRuntime) -> Result<(), Fail> {
    let net = approaches(&rt, rt.alloc(), 5)?;
    assert!(rt;
        matches!(
            make(rt.alloc(), &net, 4),
            Err(PlanFault::Full { junction: 1 })
        )
    );
    Ok(())
}
