//! Header lines.
ghost use Rattle.std.specs.Prelude.{◌≡◌, ◌≤◌, ◌<◌, ◌++◌, ◌∷◌, ◌+◌, [], ℕ, List, length, map, unsigned_abs};
ghost use Rattle.mp_edge.specs.Outside.{Tells, Puts, HasCause};
ghost use Rattle.mp_model.specs.declared.limits.TheConstants.{MOST_LOG_LINE_BYTES};
ghost use Rattle.mp_model.specs.Network.{entry, numbers_to, movement_at};
ghost use Rattle.mp_model.specs.Log.{first_line, slack_line, bound_line, header_lines, text_of};
ghost use Rattle.mp_num.specs.Fraction.{numerator, denominator};
ghost use Rattle.mp_log.specs.Heading.{header_line};

use crate::line::{push_number, push_text};
use mp_edge::{Failed, Sink};
use mp_net::{MovementNo, Net};
use mp_num::Frac;
use mp_text::LineSink;

/// How many lines the header has: two, and one per movement.
#[tactic(auto, using(crate::proofs::HeaderLemmas::headers))]
pub fn header_lines(net: &Net) -> u32
    ensures count { (E D : ℕ) (bounds : List ℕ) → result ≡ length (header_lines net.now E D bounds) }
    ensures together { (E D : ℕ) (bounds : List ℕ) → map (header_line net.now E D bounds) (numbers_to result) ≡ header_lines net.now E D bounds }
{
    u32::from(net.movements()) + 2
}

// E of a slack E/D.
fn excess_of(slack: &Frac) -> u128
    ensures { result ≡ numerator slack.now }
{
    slack.num().unsigned_abs()
}

// D of a slack E/D.
fn denominator_of(slack: &Frac) -> u128
    ensures { result ≡ denominator slack.now }
{
    slack.den().unsigned_abs()
}

// The bound of movement k, from a list of one per movement.
fn bound_of(bound: &[i128], k: MovementNo) -> u128
    requires { (1 ≤ k) × (k ≤ length bound.now) }
    ensures { result ≡ entry (map unsigned_abs bound.now) k }
{
    bound[usize::from(k) - 1].unsigned_abs()
}

// Appends the name of movement k.
fn push_name(line: &mut LineSink, net: &Net, k: MovementNo)
    requires known { (1 ≤ k) × (k ≤ length net.now.movements) }
    requires room { length line.old.held + 32 ≤ MOST_LOG_LINE_BYTES }
    ensures held { line.new.held ≡ line.old.held ++ (movement_at net.now k).name }
    ensures len { length line.new.held ≤ length line.old.held + 32 }
{
    push_text(line, net.movement(k).name.bytes());
}

// The slack line in an empty buffer.
fn push_slack(line: &mut LineSink, slack: &Frac)
    requires { line.old.held ≡ [] }
    ensures held { line.new.held ≡ slack_line (numerator slack.now) (denominator slack.now) }
    ensures len { length line.new.held ≤ 87 }
{
    push_text(line, b"slack ");
    push_number(line, excess_of(slack));
    push_text(line, b"/");
    push_number(line, denominator_of(slack));
}

// The bound line of movement k in an empty buffer.
fn push_bound(line: &mut LineSink, net: &Net, bound: &[i128], k: MovementNo)
    requires empty { line.old.held ≡ [] }
    requires known { (1 ≤ k) × (k ≤ length net.now.movements) }
    requires bounds { length bound.now ≡ length net.now.movements }
    ensures held { line.new.held ≡ bound_line net.now (map unsigned_abs bound.now) k }
    ensures len { length line.new.held ≤ 120 }
{
    push_text(line, b"bound ");
    push_number(line, k);
    push_text(line, b" ");
    push_name(line, net, k);
    push_text(line, b" ");
    push_number(line, bound_of(bound, k));
}

/// Appends header line number `i`, from 1, without its line feed to an empty buffer. There is one bound
/// per movement, in vehicles.
#[tactic(auto, using(crate::proofs::HeaderLemmas::headers))]
pub fn push_header_line(line: &mut LineSink, net: &Net, slack: &Frac, bound: &[i128], i: u32)
    requires empty { line.old.held ≡ [] }
    requires known { (1 ≤ i) × (i ≤ length net.now.movements + 2) }
    requires bounds { length bound.now ≡ length net.now.movements }
    ensures held { line.new.held ≡ header_line net.now (numerator slack.now) (denominator slack.now) (map unsigned_abs bound.now) i }
    ensures len { length line.new.held ≤ 120 }
{
    let _movements = net.movements();
    if i == 1 {
        push_text(line, b"maxpressure 1");
    } else if i == 2 {
        push_slack(line, slack);
    } else {
        push_bound(line, net, bound, (i - 2) as u16);
    }
}

/// Puts header line number `i`, from 1, in one piece: the name and version of the log, the slack, and the bounds in movement order.
/// There is one bound per movement, in vehicles. `Failed` comes only from this put.
pub fn put_header_line<K: Sink>(
    out: &mut K,
    net: &Net,
    slack: &Frac,
    bound: &[i128],
    i: u32,
) -> Result<(), Failed>
    requires known { (1 ≤ i) × (i ≤ length net.now.movements + 2) }
    requires bounds { length bound.now ≡ length net.now.movements }
    ensures bytes { Tells (K.held out.old) (K.held out.new) (Puts result (header_line net.now (numerator slack.now) (denominator slack.now) (map unsigned_abs bound.now) i ++ 10 ∷ [])) }
    ensures cause { HasCause (K.faults out.old) (K.faults out.new) result }
{
    let mut line = LineSink::new();
    push_header_line(&mut line, net, slack, bound, i);
    push_text(&mut line, b"\n");
    out.put(line.bytes())
}

/// Puts the whole header, line by line: the first line, the slack and the bounds.
/// There is one bound per movement, in vehicles. `Failed` comes only with a fault of the sink, and then a prefix of the header was appended.
pub fn put_header<K: Sink>(
    out: &mut K,
    net: &Net,
    slack: &Frac,
    bound: &[i128],
) -> Result<(), Failed>
    requires bounds { length bound.now ≡ length net.now.movements }
    ensures bytes { Tells (K.held out.old) (K.held out.new) (Puts result (text_of (header_lines net.now (numerator slack.now) (denominator slack.now) (map unsigned_abs bound.now)))) }
    ensures cause { HasCause (K.faults out.old) (K.faults out.new) result }
{
    for i in 0..header_lines(net) {
        put_header_line(out, net, slack, bound, i + 1)?;
    }
    Ok(())
}
