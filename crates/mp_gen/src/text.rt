//! The text of a demonstration.
ghost use Rattle.std.specs.Prelude.{◌≡◌, ℕ, List, sum};
ghost use Rattle.mp_edge.specs.Outside.{Tells, Puts, HasCause};
ghost use Rattle.mp_num.specs.Fraction.{numerator, denominator};
ghost use Rattle.mp_press.specs.Queues.{naturals};
ghost use Rattle.mp_model.specs.Load.{greatest as greatest_of};
ghost use Rattle.mp_gen.specs.Demonstration.{Demonstrated};
ghost use Rattle.mp_gen.specs.DemoText.{demo_text, demo_summary};

use crate::greatest::greatest_of;
use mp_edge::{Failed, Sink};
use mp_log::{push_number, push_text};
use mp_session::Session;
use mp_text::LineSink;

// E of the slack E/D of a session.
fn excess_of(session: &Session) -> u128
    ensures { result ≡ numerator session.now.slack }
{
    session.slack().num().unsigned_abs()
}

// D of the slack E/D of a session.
fn denominator_of(session: &Session) -> u128
    ensures { result ≡ denominator session.now.slack }
{
    session.slack().den().unsigned_abs()
}

/// Puts the text of this demonstration in one piece: its number, the slack, the greatest bound, the
/// periods, the vehicles that entered, departed and are queued, and the greatest queue, each in
/// vehicles. `Failed` comes only from this put.
pub fn put_demo<Out: Sink>(
    out: &mut Out,
    n: u64,
    session: &Session,
    greatest: u128,
) -> Result<(), Failed>
    ensures bytes { Tells (Out.held out.old) (Out.held out.new) (Puts result (demo_text n (numerator session.now.slack) (denominator session.now.slack) (greatest_of (naturals session.now.bounds)) session.now.round.standing.total_in session.now.round.standing.total_out (sum session.now.round.standing.queues) greatest)) }
    ensures summary { (shown : Demonstrated session.now.net n session.now.round.standing greatest) → Tells (Out.held out.old) (Out.held out.new) (Puts result (demo_summary n session.now.net (numerator session.now.slack) (denominator session.now.slack) (naturals session.now.bounds) shown.arrivals)) }
    ensures cause { HasCause (Out.faults out.old) (Out.faults out.new) result }
{
    let state = session.round().state();
    let (total_in, total_out) = (state.total_in(), state.total_out());
    let mut text = LineSink::new();
    push_text(&mut text, b"demo ");
    push_number(&mut text, n);
    push_text(&mut text, b"\nslack ");
    push_number(&mut text, excess_of(session));
    push_text(&mut text, b"/");
    push_number(&mut text, denominator_of(session));
    push_text(&mut text, b"\nbound ");
    push_number(&mut text, greatest_of(session.bounds()));
    push_text(&mut text, b"\nperiods 1048576\nin ");
    push_number(&mut text, total_in);
    push_text(&mut text, b" out ");
    push_number(&mut text, total_out);
    push_text(&mut text, b" queued ");
    push_number(&mut text, total_in - total_out);
    push_text(&mut text, b"\ngreatest ");
    push_number(&mut text, greatest);
    push_text(&mut text, b"\n");
    out.put(text.bytes())
}
