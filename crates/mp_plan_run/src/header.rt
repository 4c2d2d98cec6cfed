//! The header of a plan.
ghost use Rattle.std.specs.Prelude.{◌≡◌, ◌≤◌, ◌++◌, ◌∷◌, ◌+◌, [], length, decimal};
ghost use Rattle.mp_edge.specs.Outside.{Tells, Puts, HasCause};
ghost use Rattle.mp_model.specs.Log.{bound_line, spaced, text_of};
ghost use Rattle.mp_model.specs.Network.{movement_at};
ghost use Rattle.mp_model.specs.Plans.{green_line, greens_in_plan, plan_header};
ghost use Rattle.mp_model.specs.declared.limits.TheConstants.{MOST_LOG_LINE_BYTES};
ghost use Rattle.mp_plan.specs.Made.{IsPlanOn};
ghost use Rattle.mp_plan_run.specs.Heading.{cycle_line, plan_header_line};

use mp_edge::{Failed, Sink};
use mp_log::{push_number, push_text};
use mp_net::{JunctionNo, MovementNo, Net};
use mp_plan::Plan;
use mp_text::LineSink;

// How many lines the header has: two, one per junction and one per movement.
fn header_lines(net: &Net) -> u32
    ensures { result ≡ length net.now.junctions + length net.now.movements + 2 }
{
    u32::from(net.junctions()) + u32::from(net.movements()) + 2
}

// The line of the cycle in an empty buffer.
fn push_cycle(line: &mut LineSink, plan: &Plan)
    requires { line.old.held ≡ [] }
    ensures held { line.new.held ≡ cycle_line plan.now }
    ensures len { length line.new.held ≤ 50 }
{
    push_text(line, b"cycle ");
    push_number(line, plan.cycle());
}

// Appends a space and the digits of a green.
fn push_next(line: &mut LineSink, green: u32)
    requires { length line.old.held + 41 ≤ MOST_LOG_LINE_BYTES }
    ensures held { line.new.held ≡ line.old.held ++ 32 ∷ decimal green }
    ensures len { length line.new.held ≤ length line.old.held + 41 }
{
    push_text(line, b" ");
    push_number(line, green);
}

// Appends a space and the digits of each green.
fn push_greens(line: &mut LineSink, greens: &[u32])
    requires room { length line.old.held ≤ 50 }
    requires few { length greens.now ≤ 16 }
    ensures held { line.new.held ≡ line.old.held ++ spaced greens.now }
    ensures len { length line.new.held ≤ 1000 }
{
    for green in greens {
        push_next(line, *green);
    }
}

// The line of the greens of junction j in an empty buffer.
fn push_green(line: &mut LineSink, plan: &Plan, j: JunctionNo)
    requires empty { line.old.held ≡ [] }
    requires known { (1 ≤ j) × (j ≤ length plan.now.greens) }
    requires few { length (greens_in_plan plan.now j) ≤ 16 }
    ensures held { line.new.held ≡ green_line plan.now j }
    ensures len { length line.new.held ≤ 1000 }
{
    push_text(line, b"green ");
    push_number(line, j);
    push_greens(line, plan.greens(j));
}

// Appends the name of movement k.
fn push_name(line: &mut LineSink, net: &Net, k: MovementNo)
    requires known { (1 ≤ k) × (k ≤ length net.now.movements) }
    requires room { length line.old.held + 32 ≤ MOST_LOG_LINE_BYTES }
    ensures held { line.new.held ≡ line.old.held ++ (movement_at net.now k).name }
    ensures len { length line.new.held ≤ length line.old.held + 32 }
{
    push_text(line, net.movement(k).name.bytes());
}

// The line of the bound of movement k in an empty buffer.
fn push_bound(line: &mut LineSink, net: &Net, plan: &Plan, k: MovementNo)
    requires empty { line.old.held ≡ [] }
    requires known { (1 ≤ k) × (k ≤ length net.now.movements) }
    requires bounds { length plan.now.bounds ≡ length net.now.movements }
    ensures held { line.new.held ≡ bound_line net.now plan.now.bounds k }
    ensures len { length line.new.held ≤ 120 }
{
    push_text(line, b"bound ");
    push_number(line, k);
    push_text(line, b" ");
    push_name(line, net, k);
    push_text(line, b" ");
    push_number(line, plan.bound(k));
}

// Header line number i, from 1, in an empty buffer.
fn push_line(line: &mut LineSink, net: &Net, plan: &Plan, i: u32)
    requires empty { line.old.held ≡ [] }
    requires plan { IsPlanOn net.now plan.now }
    requires known { (1 ≤ i) × (i ≤ length net.now.junctions + length net.now.movements + 2) }
    ensures held { line.new.held ≡ plan_header_line net.now plan.now i }
    ensures len { length line.new.held ≤ 1000 }
{
    let _ = net.shares();
    let _ = net.movements();
    let junctions = u32::from(net.junctions());
    if i == 1 {
        push_text(line, b"plan 1");
    } else if i == 2 {
        push_cycle(line, plan);
    } else if i - 2 <= junctions {
        push_green(line, plan, (i - 2) as u16);
    } else {
        push_bound(line, net, plan, (i - 2 - junctions) as u16);
    }
}

// Puts header line number i, from 1, in one piece.
fn put_line<K: Sink>(out: &mut K, net: &Net, plan: &Plan, i: u32) -> Result<(), Failed>
    requires plan { IsPlanOn net.now plan.now }
    requires known { (1 ≤ i) × (i ≤ length net.now.junctions + length net.now.movements + 2) }
    ensures bytes { Tells (K.held out.old) (K.held out.new) (Puts result (plan_header_line net.now plan.now i ++ 10 ∷ [])) }
    ensures cause { HasCause (K.faults out.old) (K.faults out.new) result }
{
    let mut line = LineSink::new();
    push_line(&mut line, net, plan, i);
    push_text(&mut line, b"\n");
    out.put(line.bytes())
}

/// Puts the header of a plan that was made for this network, each line in one piece: the name and
/// version of the log, the cycle, the greens of each junction, and the bound of each movement.
///
/// `Failed` comes only with a fault of the sink, and then a prefix of the header was appended.
pub fn put_plan_header<K: Sink>(out: &mut K, net: &Net, plan: &Plan) -> Result<(), Failed>
    requires { IsPlanOn net.now plan.now }
    ensures bytes { Tells (K.held out.old) (K.held out.new) (Puts result (text_of (plan_header net.now plan.now))) }
    ensures cause { HasCause (K.faults out.old) (K.faults out.new) result }
{
    for i in 0..header_lines(net) {
        put_line(out, net, plan, i + 1)?;
    }
    Ok(())
}
