//! Answers to lines of counts.
ghost use Rattle.std.specs.Prelude.{◌≡◌, ◌<◌, ◌++◌, ◌∷◌, [], length};
ghost use Rattle.mp_edge.specs.Outside.{Tells, Puts, HasCause};
ghost use Rattle.mp_model.specs.ControlLog.{answer_of, control_end_line};
ghost use Rattle.mp_model.specs.declared.limits.TheConstants.{MOST_LOG_LINE_BYTES};
ghost use Rattle.mp_press.specs.Queues.{naturals};
ghost use Rattle.mp_control.specs.Answers.{FitsAnswer};

use mp_edge::{Failed, Sink};
use mp_log::{push_number, push_spaced, push_text};
use mp_net::StageNo;
use mp_text::{LineSink, SmallNumbers};

// Appends an answer without its line feed to an empty buffer: its number, the counts of the movements in
// movement order, and the stages of the junctions in junction order.
fn push_answer(
    line: &mut LineSink,
    small: &SmallNumbers,
    number: u64,
    counts: &[i128],
    stages: &[StageNo],
)
    requires empty { line.old.held ≡ [] }
    requires fits { FitsAnswer counts.now stages.now }
    ensures held { line.new.held ≡ answer_of number (naturals counts.now) stages.now }
    ensures len { length line.new.held < MOST_LOG_LINE_BYTES }
{
    push_text(line, b"c ");
    push_number(line, number);
    push_text(line, b" q");
    push_spaced(line, small, counts);
    push_text(line, b" s");
    push_spaced(line, small, stages);
}

/// Puts an answer in one piece, made in a buffer and by a table that serve one answer after another: its
/// number from 1, the counts of the movements in movement order, and the stages of the junctions in
/// junction order. `Failed` comes only from this put.
pub fn put_answer<K: Sink>(
    line: &mut LineSink,
    small: &SmallNumbers,
    out: &mut K,
    number: u64,
    counts: &[i128],
    stages: &[StageNo],
) -> Result<(), Failed>
    requires { FitsAnswer counts.now stages.now }
    ensures bytes { Tells (K.held out.old) (K.held out.new) (Puts result (answer_of number (naturals counts.now) stages.now ++ 10 ∷ [])) }
    ensures cause { HasCause (K.faults out.old) (K.faults out.new) result }
{
    line.clear();
    push_answer(line, small, number, counts, stages);
    push_text(line, b"\n");
    out.put(line.bytes())
}

/// Puts the end line in one piece, with the number of answers. `Failed` comes only from this put.
pub fn put_end<K: Sink>(out: &mut K, answers: u64) -> Result<(), Failed>
    ensures bytes { Tells (K.held out.old) (K.held out.new) (Puts result (control_end_line answers ++ 10 ∷ [])) }
    ensures cause { HasCause (K.faults out.old) (K.faults out.new) result }
{
    let mut line = LineSink::new();
    push_text(&mut line, b"end ");
    push_number(&mut line, answers);
    push_text(&mut line, b"\n");
    out.put(line.bytes())
}
