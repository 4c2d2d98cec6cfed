ghost use Rattle.mp_model.specs.Guard.{Guards, HasGuardLengths};

use super::*;
use mp_edge::MemSource;
use mp_guard::{Guard, bursts, check, read_guard, surpluses};
use mp_guard_run::GuardSession;
use mp_net::{JunctionPart, LinkPart, MovementPart, Name, Net, NetParts, build};
use mp_run::AuditEnd;
use std::alloc::Global;
use std::process::Abort;
use std::test::Fail;

fn link(rt: &impl Abort, name: &[u8]) -> LinkPart {
    LinkPart {
        name: Name::from_bytes(name).expect(rt, "letters are a name"),
        burst: 2,
        rate: 1,
    }
}

fn movement(rt: &impl Abort, name: &[u8], from: u16) -> MovementPart {
    MovementPart {
        name: Name::from_bytes(name).expect(rt, "letters are a name"),
        from,
        to: None,
        share: 1,
        flow: 2,
        start: 0,
    }
}

// Two approaches of a junction.
fn approaches(rt: &impl Abort, alloc: Global) -> Result<Net, Fail> {
    let mut links = Vec::new(alloc);
    links.push(link(rt, b"a"))?;
    links.push(link(rt, b"b"))?;
    let mut movements = Vec::new(alloc);
    movements.push(movement(rt, b"ao", 1))?;
    movements.push(movement(rt, b"bo", 2))?;
    let mut stages = Vec::new(alloc);
    stages.push(Vec::from_slice(alloc, &[1])?)?;
    stages.push(Vec::from_slice(alloc, &[2])?)?;
    let mut junctions = Vec::new(alloc);
    junctions.push(JunctionPart {
        name: Name::from_bytes(b"j").expect(rt, "a letter is a name"),
        stages,
    })?;
    let parts = NetParts {
        shares: 1,
        per: 4,
        delay: 0,
        links,
        movements,
        junctions,
    };
    Ok(build(alloc, parts).expect(rt, "two approaches are a network"))
}

fn expect_accepted(rt: &impl Abort, net: &Net, guard: &Guard)
    requires { HasGuardLengths net.now guard.now }
    ensures { Guards net.now guard.now }
{
    let Err(_) = check(net, guard) else {
        return;
    };
    panic!(rt; "the guard is refused")
}

const GUARD: &[u8] = b"guard 1\ncycle 4\nlost 0\nd 4\nh 1 1\ngreen 1 1 1\n";

// How the audit of this text under the guard ends.
fn audited(rt: &impl Abort, alloc: Global, net: &Net, text: &[u8]) -> AuditEnd {
    let guard = read_guard(alloc, net, GUARD).expect(rt, "the text is one of a guard");
    expect_accepted(rt, net, &guard);
    let surpluses = surpluses(alloc, net).expect(rt, "there is memory");
    let bursts = bursts(alloc, net, &guard, &surpluses).expect(rt, "the bursts come to rest");
    let mut session = GuardSession::open(alloc, net, &guard, &surpluses, &bursts).expect(
        rt,
        "there is memory",
    );
    let mut input = MemSource::new(alloc, text, 5, &[]).expect(rt, "there is memory");
    audit_guarded(&mut session, &mut input)
}

// Expects this end of the audit of a text in three parts.
fn expect_end(
    rt: &impl Abort,
    alloc: Global,
    net: &Net,
    parts: [&[u8]; 3],
    end: AuditEnd,
) -> Result<(), Fail> {
    let [guard, numbers, periods] = parts;
    let mut text = Vec::from_slice(alloc, guard)?;
    text.extend_from_slice(numbers)?;
    text.extend_from_slice(periods)?;
    assert_eq!(rt; audited(rt, alloc, net, &text), end);
    Ok(())
}

const NUMBERS: &[u8] = b"bound 1 ao 4\nbound 2 bo 4\nwait 1 ao 6\nwait 2 bo 6\n";

const PERIODS: &[u8] =
    b"p 1 a 2 1 s 1 q 2 1\np 2 a 0 0 s 1 q 0 1\np 3 a 0 0 s 2 q 0 0\nend 3 in 3 out 3 queued 0\n";

#[test]
fn takes_a_whole_log(rt: HostRuntime) -> Result<(), Fail> {
    let alloc = rt.alloc();
    let net = approaches(&rt, alloc)?;
    for (periods, end) in [
        (PERIODS, AuditEnd::Done { periods: 3 }),
        (
            b"p 1 a 2 1 s 1 q 2 1\r\np 2 a 0 0 s 1 q 0 1\r\nend 2 in 3 out 2 queued 1".as_slice(),
            AuditEnd::Done { periods: 2 },
        ),
        (
            b"end 0 in 0 out 0 queued 0\n".as_slice(),
            AuditEnd::Done { periods: 0 },
        ),
    ] {
        expect_end(&rt, alloc, &net, [GUARD, NUMBERS, periods], end)?;
    }
    Ok(())
}

#[test]
fn names_the_first_other_line(rt: HostRuntime) -> Result<(), Fail> {
    let alloc = rt.alloc();
    let net = approaches(&rt, alloc)?;
    let other_green = b"guard 1\ncycle 4\nlost 0\nd 4\nh 1 1\ngreen 1 1 2\n".as_slice();
    let other_bound = b"bound 1 ao 4\nbound 2 bo 5\nwait 1 ao 6\nwait 2 bo 6\n".as_slice();
    let other_wait = b"bound 1 ao 4\nbound 2 bo 4\nwait 1 ao 7\nwait 2 bo 6\n".as_slice();
    let other_queue = b"p 1 a 2 1 s 1 q 1 2\n".as_slice();
    let other_stage = b"p 1 a 2 1 s 1 q 2 1\np 2 a 0 0 s 2 q 0 1\n".as_slice();
    let above = b"p 1 a 2 1 s 1 q 2 1\np 2 a 9 0 s 1 q 9 1\n".as_slice();
    let early_end = b"p 1 a 2 1 s 1 q 2 1\nend 3 in 3 out 3 queued 0\n".as_slice();
    let no_end = b"p 1 a 2 1 s 1 q 2 1\n".as_slice();
    let past_the_end = b"end 0 in 0 out 0 queued 0\n\n".as_slice();
    for (guard, numbers, periods, line) in [
        (b"".as_slice(), b"".as_slice(), b"".as_slice(), 1),
        (b"guard 2\n".as_slice(), NUMBERS, PERIODS, 1),
        (other_green, NUMBERS, PERIODS, 6),
        (GUARD, b"".as_slice(), b"".as_slice(), 7),
        (GUARD, other_bound, PERIODS, 8),
        (GUARD, other_wait, PERIODS, 9),
        (GUARD, NUMBERS, b"".as_slice(), 11),
        (GUARD, NUMBERS, other_queue, 11),
        (GUARD, NUMBERS, other_stage, 12),
        (GUARD, NUMBERS, above, 12),
        (GUARD, NUMBERS, early_end, 12),
        (GUARD, NUMBERS, no_end, 12),
        (GUARD, NUMBERS, past_the_end, 12),
    ] {
        expect_end(
            &rt,
            alloc,
            &net,
            [guard, numbers, periods],
            AuditEnd::Differs { line },
        )?;
    }
    Ok(())
}
