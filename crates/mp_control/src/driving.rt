//! The controller, line by line.
ghost use Rattle.std.specs.Prelude.{◌≡◌, ◌≤◌, ◌++◌, ◌∷◌, [], length};
ghost use Rattle.mp_edge.specs.Outside.{Rose, Tells, Puts, HasCause};
ghost use Rattle.mp_model.specs.ControlLog.{plain_line, answer_to};
ghost use Rattle.mp_press.specs.Queues.{naturals};
ghost use Rattle.mp_text.specs.Cutting.{NoLineFeed};
ghost use Rattle.mp_control.specs.Controlling.{EndsAs, OfLine, Answers, Takes, Finishes};
ghost use Rattle.mp_control.specs.Input.{AreSmall};

use crate::answering::{put_answer, put_end};
use crate::input::{InputKind, read_input};
use arrayvec::ArrayVec;
use mp_edge::{Failed, Sink, Source};
use mp_laws::{greatest_law, one_stage_law};
use mp_model::limits::{MOST_LINES, MOST_LOG_LINE_BYTES};
use mp_net::{Net, StageNo};
use mp_press::choose_all;
use mp_text::{LineCutter, LineSink, LineStep, SmallNumbers, put_text};

/// The size of a buffer for lines of the input, each with its line feed.
const INPUT_LINE_SIZE: usize = MOST_LOG_LINE_BYTES + 1;

/// How the controller ends. Lines are numbered from 1, and all lines count.
#[derive(Clone, Copy, Debug, PartialEq, Eq)]
pub enum ControlEnd {
    /// The input was read to its end.
    Done,
    /// The source met a fault.
    Read,
    /// The sink met a fault.
    Write,
    /// The input has more than 2^48 lines.
    LineLimit,
    /// The line has more than 16,384 bytes.
    Long { line: u64 },
    /// The line is not in the grammar.
    Grammar { line: u64 },
}

// What came of the next line.
enum Answered {
    // It has no counts, and no answer.
    Skipped,
    // The whole answer to its counts was put.
    Put,
    // It is not in the grammar.
    Bad,
    TooLong,
    // No line is left.
    End,
    // The source met a fault.
    Unread,
    // The sink met a fault.
    Unwritten,
}

// Buffers and a table that serve one line after another.
#[derive(Drop)]
struct Buffers {
    counts: ArrayVec<i128, 512>,
    stages: ArrayVec<StageNo, 64>,
    text: LineSink,
    small: SmallNumbers,
}

impl Buffers {
    fn new() -> Buffers {
        Buffers {
            counts: ArrayVec::new(),
            stages: ArrayVec::new(),
            text: LineSink::new(),
            small: SmallNumbers::new(),
        }
    }
}

// Puts the answer to the counts in the buffer, with this number.
fn answer_counts<Out: Sink>(
    net: &Net,
    number: u64,
    buffers: &mut Buffers,
    out: &mut Out,
) -> Result<(), Failed>
    requires small { AreSmall buffers.old.counts.items }
    requires count { length buffers.old.counts.items ≡ length net.now.movements }
    ensures bytes { Tells (Out.held out.old) (Out.held out.new) (Puts result (answer_to net.now number (naturals buffers.old.counts.items) ++ 10 ∷ [])) }
    ensures cause { HasCause (Out.faults out.old) (Out.faults out.new) result }
{
    let _ = net.shares();
    choose_all(net, &buffers.counts, &mut buffers.stages);
    put_answer(
        &mut buffers.text,
        &buffers.small,
        out,
        number,
        &buffers.counts,
        &buffers.stages,
    )
}

// Takes a line: puts the answer to its counts, with this number.
fn answer_line<Out: Sink>(
    net: &Net,
    line: &[u8],
    number: u64,
    buffers: &mut Buffers,
    out: &mut Out,
) -> Answered
    ensures answers { Answers net.now number result (plain_line net.now line.now) (Out.held out.old) (Out.held out.new) }
    ensures of_line { OfLine result }
    ensures later { Out.faults out.old ≤ Out.faults out.new }
    ensures write { result ≡ Answered.Unwritten → Rose (Out.faults out.old) (Out.faults out.new) }
{
    match read_input(net, line, &mut buffers.counts) {
        InputKind::Skipped => Answered::Skipped,
        InputKind::Bad => Answered::Bad,
        InputKind::Counts => match answer_counts(net, number, buffers, out) {
            Ok(()) => Answered::Put,
            Err(Failed) => Answered::Unwritten,
        },
    }
}

// Takes the next line off the input, and puts the answer to its counts, with this number, before it is
// done with that line.
fn answer_next<In: Source, Out: Sink>(
    net: &Net,
    cutter: &mut LineCutter<INPUT_LINE_SIZE>,
    number: u64,
    buffers: &mut Buffers,
    input: &mut In,
    out: &mut Out,
) -> Answered
    ensures takes { Tells (In.left input.old) (In.left input.new) (Takes result cutter.old cutter.new) }
    ensures answers { Answers net.now number result (plain_line net.now cutter.new.line) (Out.held out.old) (Out.held out.new) }
    ensures unasked { (¬ NoLineFeed cutter.old.held) → input.new ≡ input.old }
    ensures in_later { In.faults input.old ≤ In.faults input.new }
    ensures out_later { Out.faults out.old ≤ Out.faults out.new }
    ensures read { result ≡ Answered.Unread → Rose (In.faults input.old) (In.faults input.new) }
    ensures write { result ≡ Answered.Unwritten → Rose (Out.faults out.old) (Out.faults out.new) }
{
    match cutter.next(input) {
        LineStep::Line => answer_line(net, cutter.line(), number, buffers, out),
        LineStep::TooLong => Answered::TooLong,
        LineStep::End => Answered::End,
        LineStep::Failed => Answered::Unread,
    }
}

// Puts the end line.
fn finish<Out: Sink>(out: &mut Out, answers: u64) -> ControlEnd
    ensures finishes { Finishes result answers (Out.held out.old) (Out.held out.new) }
    ensures later { Out.faults out.old ≤ Out.faults out.new }
    ensures write { result ≡ ControlEnd.Write → Rose (Out.faults out.old) (Out.faults out.new) }
{
    match put_end(out, answers) {
        Ok(()) => ControlEnd::Done,
        Err(Failed) => ControlEnd::Write,
    }
}

/// Reads the input to its end, and answers each line of counts with the stages of greatest pressure at
/// these counts, the lowest number on ties. An answer is put before the next line is asked for, so that
/// whoever counts can wait for it; at the end of the input comes the end line.
///
/// Nothing is kept from one line to the next: an answer rests on the counts of its line alone. No rate is
/// asked about, so a network that carries less than its rates is answered as well. It takes no memory.
pub fn control<In: Source, Out: Sink>(net: &Net, input: &mut In, out: &mut Out) -> ControlEnd
    ensures ends { EndsAs net.now result (In.left input.old) (In.left input.new) (Out.held out.old) (Out.held out.new) }
    ensures in_later { In.faults input.old ≤ In.faults input.new }
    ensures out_later { Out.faults out.old ≤ Out.faults out.new }
    ensures read { result ≡ ControlEnd.Read → Rose (In.faults input.old) (In.faults input.new) }
    ensures write { result ≡ ControlEnd.Write → Rose (Out.faults out.old) (Out.faults out.new) }
{
    greatest_law();
    one_stage_law();
    let _ = net.shares();
    if put_text(out, b"maxpressure control 1\n").is_err() {
        return ControlEnd::Write;
    }
    let mut cutter = LineCutter::<INPUT_LINE_SIZE>::new();
    let mut buffers = Buffers::new();
    let mut answers = 0u64;
    for turn in 0..MOST_LINES {
        match answer_next(net, &mut cutter, answers + 1, &mut buffers, input, out) {
            Answered::Skipped => {}
            Answered::Put => answers += 1,
            Answered::Bad => return ControlEnd::Grammar { line: turn + 1 },
            Answered::TooLong => return ControlEnd::Long { line: turn + 1 },
            Answered::End => return finish(out, answers),
            Answered::Unread => return ControlEnd::Read,
            Answered::Unwritten => return ControlEnd::Write,
        }
    }
    match cutter.next(input) {
        LineStep::End => finish(out, answers),
        LineStep::Failed => ControlEnd::Read,
        LineStep::Line | LineStep::TooLong => ControlEnd::LineLimit,
    }
}
