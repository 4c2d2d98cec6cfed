//! The end line.
ghost use Rattle.std.specs.Prelude.{◌≡◌, ◌≤◌, ◌^◌, ◌++◌, ◌∷◌, [], length};
ghost use Rattle.mp_edge.specs.Outside.{Tells, Puts, HasCause};
ghost use Rattle.mp_model.specs.Log.{end_line_of};

use crate::line::{push_number, push_text};
use mp_edge::{Failed, Sink};
use mp_text::LineSink;

/// Appends the end line without its line feed to an empty buffer: the number of periods, and the
/// vehicles that entered, departed and are queued.
pub fn push_end(line: &mut LineSink, period: u64, total_in: u128, total_out: u128, queued: u128)
    requires { line.old.held ≡ [] }
    ensures held { line.new.held ≡ end_line_of period total_in total_out queued }
    ensures len { length line.new.held ≤ 200 }
{
    push_text(line, b"end ");
    push_number(line, period);
    push_text(line, b" in ");
    push_number(line, total_in);
    push_text(line, b" out ");
    push_number(line, total_out);
    push_text(line, b" queued ");
    push_number(line, queued);
}

/// Puts the end line in one piece: the number of periods, and the vehicles that entered, departed
/// and are queued. `Failed` comes only from this put.
pub fn put_end<K: Sink>(
    out: &mut K,
    period: u64,
    total_in: u128,
    total_out: u128,
    queued: u128,
) -> Result<(), Failed>
    ensures bytes { Tells (K.held out.old) (K.held out.new) (Puts result (end_line_of period total_in total_out queued ++ 10 ∷ [])) }
    ensures cause { HasCause (K.faults out.old) (K.faults out.new) result }
{
    let mut line = LineSink::new();
    push_end(&mut line, period, total_in, total_out, queued);
    push_text(&mut line, b"\n");
    out.put(line.bytes())
}
