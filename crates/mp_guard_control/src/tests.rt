ghost use Rattle.mp_model.specs.Guard.{Guards};

use crate::control_guarded;
use mp_control::ControlEnd;
use mp_edge::{MemSink, MemSource};
use mp_guard::{
    Guard, bounds, bursts, check, header_text, put_guard_header, read_guard, surpluses, waits,
};
use mp_guard_run::Owed;
use mp_net::{JunctionPart, LinkPart, MovementPart, Name, Net, NetParts, build};
use std::alloc::Global;
use std::process::Abort;
use std::test::Fail;

fn name(rt: &impl Abort, bytes: &[u8]) -> Name {
    Name::from_bytes(bytes).expect(rt, "letters are a name")
}

fn link(rt: &impl Abort, bytes: &[u8]) -> LinkPart {
    LinkPart {
        name: name(rt, bytes),
        burst: 2,
        rate: 1,
    }
}

fn movement(rt: &impl Abort, bytes: &[u8], from: u16) -> MovementPart {
    MovementPart {
        name: name(rt, bytes),
        from,
        to: None,
        share: 1,
        flow: 2,
        start: 0,
    }
}

// Two approaches of a junction, each with a stage of its own.
fn approaches(rt: &impl Abort, alloc: Global) -> Result<Net, Fail> {
    let mut links = Vec::new(alloc);
    links.push(link(rt, b"a"))?;
    links.push(link(rt, b"b"))?;
    let mut movements = Vec::new(alloc);
    movements.push(movement(rt, b"ao", 1))?;
    movements.push(movement(rt, b"bo", 2))?;
    let mut stages = Vec::new(alloc);
    stages.push(Vec::from_slice(alloc, &[1])?)?;
    stages.push(Vec::from_slice(alloc, &[2])?)?;
    let mut junctions = Vec::new(alloc);
    junctions.push(JunctionPart {
        name: name(rt, b"j"),
        stages,
    })?;
    let parts = NetParts {
        shares: 1,
        per: 4,
        delay: 0,
        links,
        movements,
        junctions,
    };
    Ok(build(alloc, parts).expect(rt, "two approaches are a network"))
}

// The header under the guard.
fn header(rt: &impl Abort, alloc: Global, net: &Net, guard: &Guard) -> Vec<u8>
    requires guards { Guards net.now guard.now }
{
    let surpluses = surpluses(alloc, net).expect(rt, "there is memory");
    let bursts = bursts(alloc, net, guard, &surpluses).expect(rt, "the bursts come to rest");
    let bounds = bounds(alloc, net, guard, &surpluses, &bursts).expect(rt, "there is memory");
    let waits = waits(alloc, net, guard).expect(rt, "there is memory");
    assert!(rt; bounds.len() == usize::from(net.movements()));
    assert!(rt; waits.len() == usize::from(net.movements()));
    let text = header_text(alloc, net, guard, &bounds, &waits).expect(rt, "there is memory");
    let mut out = MemSink::new(alloc, 4096, &[]).expect(rt, "there is memory");
    assert!(rt; put_guard_header(alloc, &mut out, net, guard, &bounds, &waits).is_ok());
    assert!(rt; out.bytes() == text.as_slice());
    text
}

// What the controller writes in answer to lines of counts, under the guard.
fn answers(rt: &impl Abort, alloc: Global, net: &Net, guard: &Guard) -> MemSink
    requires guards { Guards net.now guard.now }
{
    let header = header(rt, alloc, net, guard);
    let mut owed = Owed::new(alloc, net, guard).expect(rt, "there is memory");
    let lines = b"3,0\n0,3\n1,2\n# x\n0,0\n5,5\n5,5\n5,5\n";
    let mut input = MemSource::new(alloc, lines, 3, &[]).expect(rt, "there is memory");
    let mut out = MemSink::new(alloc, 4096, &[]).expect(rt, "there is memory");
    let end = control_guarded(net, guard, &header, &mut owed, &mut input, &mut out);
    assert!(rt; end == ControlEnd::Done);
    out
}

// So it is under the guard of this text.
fn written(rt: &impl Abort, alloc: Global, text: &[u8]) -> Result<MemSink, Fail> {
    let net = approaches(rt, alloc)?;
    let guard = read_guard(alloc, &net, text).expect(rt, "the text is one of a guard");
    assert!(rt; check(&net, &guard).is_ok());
    Ok(answers(rt, alloc, &net, &guard))
}

#[test]
fn changes_lose_no_period(rt: HostRuntime) -> Result<(), Fail> {
    let alloc = rt.alloc();
    let text = b"guard 1\ncycle 4\nlost 0\nd 4\nh 1 1\ngreen 1 1 1\n";
    let out = written(&rt, alloc, text)?;
    let wanted =
        b"guard 1\ncycle 4\nlost 0\nd 4\nh 1 1\ngreen 1 1 1\nbound 1 ao 4\nbound 2 bo 4\nwait 1 ao 6\nwait 2 bo 6\nc 1 q 3 0 s 1\nc 2 q 0 3 s 2\nc 3 q 1 2 s 2\nc 4 q 0 0 s 1\nc 5 q 5 5 s 1\nc 6 q 5 5 s 1\nc 7 q 5 5 s 1\nend 7\n";
    assert_eq!(rt; out.bytes(), wanted.as_slice());
    Ok(())
}

#[test]
fn changes_lose_a_period(rt: HostRuntime) -> Result<(), Fail> {
    let alloc = rt.alloc();
    let text = b"guard 1\ncycle 4\nlost 1\nd 4\nh 1 1\ngreen 1 1 1\n";
    let out = written(&rt, alloc, text)?;
    let wanted =
        b"guard 1\ncycle 4\nlost 1\nd 4\nh 1 1\ngreen 1 1 1\nbound 1 ao 4\nbound 2 bo 4\nwait 1 ao 6\nwait 2 bo 6\nc 1 q 3 0 s 1\nc 2 q 0 3 s 2\nc 3 q 1 2 s 2\nc 4 q 0 0 s 2\nc 5 q 5 5 s 2\nc 6 q 5 5 s 2\nc 7 q 5 5 s 1\nend 7\n";
    assert_eq!(rt; out.bytes(), wanted.as_slice());
    Ok(())
}
