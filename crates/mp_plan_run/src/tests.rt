ghost use Rattle.std.specs.Prelude.{◌≤◌};

use super::*;
use mp_edge::{MemSink, MemSource};
use mp_net::{JunctionPart, LinkPart, MovementPart, Name, Net, NetParts, build};
use mp_plan::make;
use mp_stream::ArrivalsEnd;
use std::alloc::Global;
use std::process::Abort;
use std::test::Fail;

fn name(rt: &impl Abort, bytes: &[u8]) -> Name {
    Name::from_bytes(bytes).expect(rt, "letters are a name")
}

fn movement(rt: &impl Abort, bytes: &[u8], from: u16, to: Option<u16>, flow: u32) -> MovementPart {
    MovementPart {
        name: name(rt, bytes),
        from,
        to,
        share: 1,
        flow,
        start: 0,
    }
}

// Two fed links, whose movements leave the network in two stages of one junction.
fn two_links(rt: &impl Abort, alloc: Global) -> Result<Net, Fail> {
    let mut links = Vec::new(alloc);
    links.push(LinkPart {
        name: name(rt, b"a"),
        burst: 2,
        rate: 1,
    })?;
    links.push(LinkPart {
        name: name(rt, b"b"),
        burst: 2,
        rate: 1,
    })?;
    let mut movements = Vec::new(alloc);
    movements.push(movement(rt, b"ao", 1, None, 2))?;
    movements.push(movement(rt, b"bo", 2, None, 2))?;
    let mut stages = Vec::new(alloc);
    stages.push(Vec::from_slice(alloc, &[1])?)?;
    stages.push(Vec::from_slice(alloc, &[2])?)?;
    let mut junctions = Vec::new(alloc);
    junctions.push(JunctionPart {
        name: name(rt, b"j"),
        stages,
    })?;
    let parts = NetParts {
        shares: 1,
        per: 4,
        delay: 0,
        links,
        movements,
        junctions,
    };
    Ok(build(alloc, parts).expect(rt, "two links are a network"))
}

fn junction(rt: &impl Abort, alloc: Global, bytes: &[u8], k: u16) -> Result<JunctionPart, Fail> {
    let mut stages = Vec::new(alloc);
    stages.push(Vec::from_slice(alloc, &[k])?)?;
    Ok(JunctionPart {
        name: name(rt, bytes),
        stages,
    })
}

// A fed link, and behind it one that is not, each with a junction of its own.
fn tandem(rt: &impl Abort, alloc: Global) -> Result<Net, Fail> {
    let mut links = Vec::new(alloc);
    links.push(LinkPart {
        name: name(rt, b"x"),
        burst: 1,
        rate: 1,
    })?;
    links.push(LinkPart {
        name: name(rt, b"y"),
        burst: 0,
        rate: 0,
    })?;
    let mut movements = Vec::new(alloc);
    movements.push(movement(rt, b"xy", 1, Some(2), 1))?;
    movements.push(movement(rt, b"yo", 2, None, 1))?;
    let mut junctions = Vec::new(alloc);
    junctions.push(junction(rt, alloc, b"j1", 1)?)?;
    junctions.push(junction(rt, alloc, b"j2", 2)?)?;
    let parts = NetParts {
        shares: 1,
        per: 2,
        delay: 0,
        links,
        movements,
        junctions,
    };
    Ok(build(alloc, parts).expect(rt, "a tandem is a network"))
}

// Puts the header of the plan and runs by it.
fn run(
    rt: &impl Abort,
    alloc: Global,
    net: &Net,
    cycle: u32,
    stream: &[u8],
    out: &mut MemSink,
) -> ArrivalsEnd
    requires { (1 ≤ cycle) × (cycle ≤ 3600) }
{
    let plan = make(alloc, net, cycle).expect(rt, "there is a plan");
    assert!(rt; put_plan_header(out, net, &plan).is_ok());
    let mut session = PlanSession::open(alloc, net, plan).expect(rt, "there is memory");
    let mut input = MemSource::new(alloc, stream, 7, &[]).expect(rt, "there is memory");
    run_plan(&mut session, &mut input, out)
}

#[test]
fn runs_two_links(rt: HostRuntime) -> Result<(), Fail> {
    let net = two_links(&rt, rt.alloc())?;
    let mut out = MemSink::new(rt.alloc(), 1000, &[]).expect(&rt, "there is memory");
    let end = run(
        &rt,
        rt.alloc(),
        &net,
        4,
        b"2,1\n0,0\n0,0\n0,0\n0,0\n",
        &mut out,
    );
    assert_eq!(rt; end, ArrivalsEnd::Done);
    let text =
        b"plan 1\ncycle 4\ngreen 1 1 1\nbound 1 ao 3\nbound 2 bo 3\np 1 a 2 1 s 1 q 2 1\np 2 a 0 0 s 2 q 2 0\np 3 a 0 0 s 0 q 2 0\np 4 a 0 0 s 0 q 2 0\np 5 a 0 0 s 1 q 0 0\nend 5 in 3 out 3 queued 0\n";
    assert!(rt; out.bytes() == text.as_slice());
    Ok(())
}

#[test]
fn puts_the_header_line_by_line(rt: HostRuntime) -> Result<(), Fail> {
    let net = two_links(&rt, rt.alloc())?;
    let plan = make(rt.alloc(), &net, 4).expect(&rt, "there is a plan");
    let mut out = MemSink::new(rt.alloc(), 1000, &[(3, 4)]).expect(&rt, "there is memory");
    assert!(rt; put_plan_header(&mut out, &net, &plan).is_err());
    assert!(rt; out.bytes() == b"plan 1\ncycle 4\ngree".as_slice());
    Ok(())
}

#[test]
fn runs_a_tandem(rt: HostRuntime) -> Result<(), Fail> {
    let net = tandem(&rt, rt.alloc())?;
    let mut out = MemSink::new(rt.alloc(), 1000, &[]).expect(&rt, "there is memory");
    let end = run(&rt, rt.alloc(), &net, 2, b"1\n0\n0\n", &mut out);
    assert_eq!(rt; end, ArrivalsEnd::Done);
    let text =
        b"plan 1\ncycle 2\ngreen 1 1\ngreen 2 1\nbound 1 xy 2\nbound 2 yo 3\np 1 a 1 s 1 1 q 1 0\np 2 a 0 s 0 0 q 1 0\np 3 a 0 s 1 1 q 0 1\nend 3 in 1 out 0 queued 1\n";
    assert!(rt; out.bytes() == text.as_slice());
    Ok(())
}

#[test]
fn stops_at_bad_lines(rt: HostRuntime) -> Result<(), Fail> {
    let net = tandem(&rt, rt.alloc())?;
    let mut out = MemSink::new(rt.alloc(), 1000, &[]).expect(&rt, "there is memory");
    let end = run(&rt, rt.alloc(), &net, 2, b"1\n\n1\n2\n", &mut out);
    assert_eq!(rt;
        end,
        ArrivalsEnd::Above {
            line: 4,
            period: 3,
            link: 1
        }
    );
    let end = run(&rt, rt.alloc(), &net, 2, b"0\nhear 1 1\n", &mut out);
    assert_eq!(rt; end, ArrivalsEnd::Grammar { line: 2 });
    let end = run(&rt, rt.alloc(), &net, 2, b"0\ndecide 1\n", &mut out);
    assert_eq!(rt; end, ArrivalsEnd::Grammar { line: 2 });
    Ok(())
}
