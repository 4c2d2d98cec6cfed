ghost use Rattle.mp_model.specs.Guard.{Guards, HasGuardLengths};

use super::*;
use arrayvec::ArrayVec;
use mp_edge::{MemSink, MemSource};
use mp_guard::{Guard, bursts, check, read_guard, surpluses};
use mp_net::{JunctionPart, LinkPart, MovementPart, Name, Net, NetParts, build};
use mp_step::State;
use mp_stream::ArrivalsEnd;
use std::alloc::Global;
use std::process::Abort;
use std::test::Fail;

fn name(rt: &impl Abort, byte: u8) -> Name {
    Name::from_bytes(&[byte]).expect(rt, "a letter is a name")
}

fn link(rt: &impl Abort, byte: u8) -> LinkPart {
    LinkPart {
        name: name(rt, byte),
        burst: 2,
        rate: 1,
    }
}

fn movement(rt: &impl Abort, byte: u8, from: u16, start: u32) -> MovementPart {
    MovementPart {
        name: name(rt, byte),
        from,
        to: None,
        share: 1,
        flow: 2,
        start,
    }
}

// Two approaches of a junction, with these queues when a run starts.
fn approaches(rt: &impl Abort, alloc: Global, a: u32, b: u32) -> Result<Net, Fail> {
    let mut links = Vec::new(alloc);
    links.push(link(rt, b'a'))?;
    links.push(link(rt, b'b'))?;
    let mut movements = Vec::new(alloc);
    movements.push(movement(rt, b'c', 1, a))?;
    movements.push(movement(rt, b'd', 2, b))?;
    let mut stages = Vec::new(alloc);
    stages.push(Vec::from_slice(alloc, &[1])?)?;
    stages.push(Vec::from_slice(alloc, &[2])?)?;
    let mut junctions = Vec::new(alloc);
    junctions.push(JunctionPart {
        name: name(rt, b'j'),
        stages,
    })?;
    let parts = NetParts {
        shares: 1,
        per: 4,
        delay: 0,
        links,
        movements,
        junctions,
    };
    Ok(build(alloc, parts).expect(rt, "two approaches are a network"))
}

fn expect_accepted(rt: &impl Abort, net: &Net, guard: &Guard)
    requires { HasGuardLengths net.now guard.now }
    ensures { Guards net.now guard.now }
{
    let Err(_) = check(net, guard) else {
        return;
    };
    panic!(rt; "the guard is refused")
}

#[test]
fn takes_and_pays_a_period(rt: HostRuntime) -> Result<(), Fail> {
    let alloc = rt.alloc();
    let net = approaches(&rt, alloc, 50, 30)?;
    let text = b"guard 1\ncycle 4\nlost 1\nd 4\nh 1 1\ngreen 1 1 1\n";
    let guard = read_guard(alloc, &net, text).expect(&rt, "the text is one of a guard");
    expect_accepted(&rt, &net, &guard);
    let state = State::empty(alloc, &net).expect(&rt, "there is memory");
    let mut owed = Owed::new(alloc, &net, &guard).expect(&rt, "there is memory");
    let mut stages = ArrayVec::new();
    owed.choose(&net, &guard, state.queues(), 0, &mut stages);
    assert_eq!(rt; stages.as_slice(), [1].as_slice());
    let mut green = vec![in alloc; false; usize::from(net.movements())]?;
    owed.put_green(&net, &guard, &stages, &mut green);
    assert_eq!(rt; green.as_slice(), [true, false].as_slice());
    owed.pay(&net, &guard, state.queues(), 0, &stages);
    owed.choose(&net, &guard, state.queues(), 1, &mut stages);
    assert_eq!(rt; stages.as_slice(), [1].as_slice());
    Ok(())
}

// How a run under the guard of this text over this stream ends, and what it writes.
fn run(
    rt: &impl Abort,
    alloc: Global,
    net: &Net,
    text: &[u8],
    stream: &[u8],
) -> (ArrivalsEnd, MemSink) {
    let guard = read_guard(alloc, net, text).expect(rt, "the text is one of a guard");
    expect_accepted(rt, net, &guard);
    let surpluses = surpluses(alloc, net).expect(rt, "there is memory");
    let bursts = bursts(alloc, net, &guard, &surpluses).expect(rt, "the bursts come to rest");
    let mut session = GuardSession::open(alloc, net, &guard, &surpluses, &bursts).expect(
        rt,
        "there is memory",
    );
    assert!(rt; session.waits() == [6, 6].as_slice());
    let mut input = MemSource::new(alloc, stream, 5, &[]).expect(rt, "there is memory");
    let mut out = MemSink::new(alloc, 400, &[]).expect(rt, "there is memory");
    let end = run_guarded(&mut session, &mut input, &mut out);
    (end, out)
}

const FREE: &[u8] = b"guard 1\ncycle 4\nlost 0\nd 4\nh 1 1\ngreen 1 1 1\n";

const LOSING: &[u8] = b"guard 1\ncycle 4\nlost 1\nd 4\nh 1 1\ngreen 1 1 1\n";

#[test]
fn runs_where_changes_lose_no_period(rt: HostRuntime) -> Result<(), Fail> {
    let net = approaches(&rt, rt.alloc(), 0, 0)?;
    let (end, out) = run(&rt, rt.alloc(), &net, FREE, b"2,1\n0,0\n0,0\n");
    assert_eq!(rt; end, ArrivalsEnd::Done);
    let wanted =
        b"p 1 a 2 1 s 1 q 2 1\np 2 a 0 0 s 1 q 0 1\np 3 a 0 0 s 2 q 0 0\nend 3 in 3 out 3 queued 0\n";
    assert_eq!(rt; out.bytes(), wanted.as_slice());
    Ok(())
}

#[test]
fn runs_where_changes_lose_a_period(rt: HostRuntime) -> Result<(), Fail> {
    let net = approaches(&rt, rt.alloc(), 0, 0)?;
    let (end, out) = run(&rt, rt.alloc(), &net, LOSING, b"2,1\n0,0\n0,0\n0,0\n");
    assert_eq!(rt; end, ArrivalsEnd::Done);
    let wanted =
        b"p 1 a 2 1 s 1 q 2 1\np 2 a 0 0 s 1 q 0 1\np 3 a 0 0 s 2 q 0 1\np 4 a 0 0 s 2 q 0 0\nend 4 in 3 out 3 queued 0\n";
    assert_eq!(rt; out.bytes(), wanted.as_slice());
    Ok(())
}

#[test]
fn stops_above_a_bucket(rt: HostRuntime) -> Result<(), Fail> {
    let net = approaches(&rt, rt.alloc(), 0, 0)?;
    let (end, out) = run(&rt, rt.alloc(), &net, LOSING, b"2,1\n9,0\n");
    let wanted = ArrivalsEnd::Above {
        line: 2,
        period: 2,
        link: 1,
    };
    assert_eq!(rt; end, wanted);
    assert_eq!(rt; out.bytes(), b"p 1 a 2 1 s 1 q 2 1\n".as_slice());
    Ok(())
}

#[test]
fn takes_no_events(rt: HostRuntime) -> Result<(), Fail> {
    let net = approaches(&rt, rt.alloc(), 0, 0)?;
    let (end, out) = run(&rt, rt.alloc(), &net, LOSING, b"2,1\nhear 1 1\n");
    assert_eq!(rt; end, ArrivalsEnd::Grammar { line: 2 });
    assert_eq!(rt; out.bytes(), b"p 1 a 2 1 s 1 q 2 1\n".as_slice());
    Ok(())
}
