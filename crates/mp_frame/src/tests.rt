ghost use Rattle.std.specs.Prelude.{◌≤◌, ◌≤ℤ◌, pos};

use super::*;
use mp_flow::{CalcFault, Place};
use mp_net::{
    JunctionPart, LinkNo, LinkPart, MovementNo, MovementPart, Name, Net, NetParts, build,
};
use mp_num::Frac;
use std::alloc::Global;
use std::process::Abort;
use std::test::Fail;

fn name(rt: &impl Abort, byte: u8) -> Name {
    Name::from_bytes(&[byte]).expect(rt, "a letter is a name")
}

fn link(rt: &impl Abort, byte: u8, burst: u32, rate: u32) -> LinkPart {
    LinkPart {
        name: name(rt, byte),
        burst,
        rate,
    }
}

// A movement of the flow 2 and the share 1.
fn movement(
    rt: &impl Abort,
    byte: u8,
    from: LinkNo,
    to: Option<LinkNo>,
    start: u32,
) -> MovementPart {
    MovementPart {
        name: name(rt, byte),
        from,
        to,
        share: 1,
        flow: 2,
        start,
    }
}

fn junction(rt: &impl Abort, stages: Vec<Vec<MovementNo>>) -> JunctionPart {
    JunctionPart {
        name: name(rt, b'j'),
        stages,
    }
}

// A link a, whose one movement leaves the network.
fn lane_of(
    rt: &impl Abort,
    alloc: Global,
    per: u32,
    burst: u32,
    rate: u32,
    start: u32,
) -> Result<Net, Fail> {
    let mut links = Vec::new(alloc);
    links.push(link(rt, b'a', burst, rate))?;
    let mut movements = Vec::new(alloc);
    movements.push(movement(rt, b'o', 1, None, start))?;
    let mut stages = Vec::new(alloc);
    stages.push(Vec::from_slice(alloc, &[1])?)?;
    let mut junctions = Vec::new(alloc);
    junctions.push(junction(rt, stages))?;
    let parts = NetParts {
        shares: 1,
        per,
        delay: 0,
        links,
        movements,
        junctions,
    };
    Ok(build(alloc, parts).expect(rt, "a lane is a network"))
}

fn lane(rt: &impl Abort, alloc: Global, per: u32, rate: u32) -> Result<Net, Fail> {
    lane_of(rt, alloc, per, 2, rate, 7)
}

// Two approaches of a junction take turns.
fn two_approaches(rt: &impl Abort, alloc: Global, first: u32, second: u32) -> Result<Net, Fail> {
    let mut links = Vec::new(alloc);
    links.push(link(rt, b'a', 2, 1))?;
    links.push(link(rt, b'b', 2, 1))?;
    let mut movements = Vec::new(alloc);
    movements.push(movement(rt, b'a', 1, None, first))?;
    movements.push(movement(rt, b'b', 2, None, second))?;
    let mut stages = Vec::new(alloc);
    stages.push(Vec::from_slice(alloc, &[1])?)?;
    stages.push(Vec::from_slice(alloc, &[2])?)?;
    let mut junctions = Vec::new(alloc);
    junctions.push(junction(rt, stages))?;
    let parts = NetParts {
        shares: 1,
        per: 4,
        delay: 0,
        links,
        movements,
        junctions,
    };
    Ok(build(alloc, parts).expect(rt, "two approaches are a network"))
}

// Half of what leaves a link comes back to it.
fn looped(rt: &impl Abort, alloc: Global) -> Result<Net, Fail> {
    let mut links = Vec::new(alloc);
    links.push(link(rt, b'x', 1, 1))?;
    let mut movements = Vec::new(alloc);
    movements.push(movement(rt, b'x', 1, Some(1), 0))?;
    movements.push(movement(rt, b'o', 1, None, 0))?;
    let mut stages = Vec::new(alloc);
    stages.push(Vec::from_slice(alloc, &[1, 2])?)?;
    let mut junctions = Vec::new(alloc);
    junctions.push(junction(rt, stages))?;
    let parts = NetParts {
        shares: 2,
        per: 4,
        delay: 0,
        links,
        movements,
        junctions,
    };
    Ok(build(alloc, parts).expect(rt, "a loop is a network"))
}

// What a calculation of bounds came to: the threshold, the greatest drift value and each bound.
fn bounds_under(
    rt: &impl Abort,
    alloc: Global,
    net: &Net,
    f: u32,
    num: i128,
    den: i128,
) -> Result<(i128, i128, Vec<i128>), CalcFault>
    requires f { (2 ≤ f) × (f ≤ 60) }
    requires den { pos 1 ≤ℤ den }
{
    let slack = Frac::new(num, den);
    if slack.num() < 1 {
        panic!(rt; "a slack is above 0");
    }
    let found = frame_bounds(alloc, net, f, &slack)?;
    let bound = Vec::from_slice(alloc, found.bound.as_slice()).expect(rt, "there is memory");
    Ok((found.total, found.vmax, bound))
}

#[test]
fn frames_a_lane(rt: HostRuntime) -> Result<(), Fail> {
    let net = lane(&rt, rt.alloc(), 4, 1)?;
    let framed = frame_net(rt.alloc(), &net, 3).expect(&rt, "a lane has frames");
    assert_eq!(rt; framed.per(), 8);
    assert_eq!(rt; framed.links(), 1);
    assert_eq!(rt; framed.movements(), 1);
    assert_eq!(rt; framed.link(1).rate, 3);
    assert_eq!(rt; framed.link(1).burst, 2);
    assert_eq!(rt; framed.movement(1).start, 7);
    Ok(())
}

#[test]
fn refuses_a_long_rate_length(rt: HostRuntime) -> Result<(), Fail> {
    let net = lane(&rt, rt.alloc(), 3600, 1)?;
    assert!(rt; frame_net(rt.alloc(), &net, 2).is_ok());
    assert!(rt; matches!(frame_net(rt.alloc(), &net, 3), Err(FrameFault::Per)));
    Ok(())
}

#[test]
fn refuses_a_high_rate(rt: HostRuntime) -> Result<(), Fail> {
    let net = lane(&rt, rt.alloc(), 2, 1001)?;
    assert!(rt;
        matches!(
            frame_net(rt.alloc(), &net, 2),
            Err(FrameFault::Rate { link: 1 })
        )
    );
    Ok(())
}

#[test]
fn bounds_by_frames(rt: HostRuntime) -> Result<(), Fail> {
    let alloc = rt.alloc();
    let empty = two_approaches(&rt, alloc, 0, 0)?;
    let full = two_approaches(&rt, alloc, 60, 100)?;
    let looped = looped(&rt, alloc)?;
    let found = bounds_under(&rt, alloc, &empty, 3, 5, 8).expect(&rt, "the bounds have room");
    assert_eq!(rt; (found.0, found.1), (54, 56_000));
    assert!(rt; found.2.as_slice() == [65, 65].as_slice());
    let found = bounds_under(&rt, alloc, &empty, 60, 1, 3).expect(&rt, "the bounds have room");
    assert_eq!(rt; (found.0, found.1), (1_110, 20_554_880));
    assert!(rt; found.2.as_slice() == [1_253, 1_253].as_slice());
    let found = bounds_under(&rt, alloc, &full, 3, 5, 8).expect(&rt, "the bounds have room");
    assert_eq!(rt; (found.0, found.1), (54, 217_600));
    assert!(rt; found.2.as_slice() == [122, 122].as_slice());
    let found = bounds_under(&rt, alloc, &looped, 2, 1, 3).expect(&rt, "the bounds have room");
    assert_eq!(rt; (found.0, found.1), (78, 412_928));
    assert!(rt; found.2.as_slice() == [83, 83].as_slice());
    Ok(())
}

#[test]
fn refuses_bounds_without_room(rt: HostRuntime) -> Result<(), Fail> {
    let net = lane_of(&rt, rt.alloc(), 1, 0, 1, 0)?;
    let most = 512_409_557_603_043_100;
    let found = bounds_under(&rt, rt.alloc(), &net, 2, 1, most).expect(&rt, "the bound has room");
    assert!(rt; found.2.as_slice() == [(1 << 62) - 2].as_slice());
    assert!(rt;
        matches!(
            bounds_under(&rt, rt.alloc(), &net, 2, 1, most + 1),
            Err(CalcFault::Overflow(Place::Room))
        )
    );
    let most = 1_449_313_091_703_642_468;
    assert!(rt;
        matches!(
            bounds_under(&rt, rt.alloc(), &net, 2, 1, most),
            Err(CalcFault::Overflow(Place::Room))
        )
    );
    assert!(rt;
        matches!(
            bounds_under(&rt, rt.alloc(), &net, 2, 1, most + 1),
            Err(CalcFault::Overflow(Place::Bound))
        )
    );
    Ok(())
}
