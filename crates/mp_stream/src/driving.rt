//! The loop over the lines of a stream.
ghost use Rattle.std.specs.Prelude.{◌≡◌, ◌≤◌, []};
ghost use Rattle.mp_edge.specs.Outside.{Rose};
ghost use Rattle.mp_model.specs.declared.limits.TheConstants.{MOST_LINES};
ghost use Rattle.mp_stream.specs.Taking.{IsAtStart, stop_end, Finishes};
ghost use Rattle.mp_stream.specs.Ends.{EndsAs};

use crate::runs::{Driven, Stop};
use arrayvec::ArrayVec;
use mp_edge::{Failed, Sink, Source};
use mp_log::read_line;
use mp_model::limits::{MOST_LINES, MOST_STREAM_LINE_BYTES};
use mp_text::{LineCutter, LineSink, LineStep, SmallNumbers};

/// The size of a buffer for lines of a stream, each with its line feed.
const STREAM_LINE_SIZE: usize = MOST_STREAM_LINE_BYTES + 1;

/// How a run over a stream ends. Lines are numbered from 1, and all lines count.
#[derive(Clone, Copy, Debug, PartialEq, Eq)]
pub enum End<Refusal> {
    /// The stream was read to its end.
    Done,
    /// The source met a fault.
    Read,
    /// The sink met a fault.
    Write,
    /// The stream has more than 2^48 lines.
    LineLimit,
    /// The line has more than 2,048 bytes.
    Long { line: u64 },
    /// The line is not in the grammar, or is an event where the run takes none.
    Bad { line: u64 },
    /// The run refuses the line.
    Refused { line: u64, refusal: Refusal },
}

// The end of a run that does not go on behind this line.
fn stopped<Refusal>(stop: Stop<Refusal>, line: u64) -> End<Refusal>
    ensures end { result ≡ stop_end line stop }
    ensures write { result ≡ End.Write → stop ≡ Stop.Write }
{
    match stop {
        Stop::Bad => End::Bad { line },
        Stop::Refused(refusal) => End::Refused { line, refusal },
        Stop::Write => End::Write,
    }
}

// The end of a run whose stream was read to its end.
fn finished<Refusal, R: Driven<Refusal>, Out: Sink>(run: &R, out: &mut Out) -> End<Refusal>
    ensures finishes { Finishes (R.course (R.kept run.now)) (R.Stands run.now) result (Out.held out.old) (Out.held out.new) }
    ensures later { Out.faults out.old ≤ Out.faults out.new }
    ensures write { result ≡ End.Write → Rose (Out.faults out.old) (Out.faults out.new) }
{
    match run.finish(out) {
        Ok(()) => End::Done,
        Err(Failed) => End::Write,
    }
}

/// Reads the stream and drives the run by its lines, one after the other; at the end of the input
/// comes the end line. The first line that is too long, not in the grammar or refused ends it.
///
/// The run is one at its start, and keeps what it keeps. The loop takes no memory.
pub fn drive<Refusal, R: Driven<Refusal>, In: Source, Out: Sink>(
    run: &mut R,
    input: &mut In,
    out: &mut Out,
) -> End<Refusal>
    requires start { IsAtStart (R.course (R.kept run.old)) (R.Stands run.old) }
    ensures ends { EndsAs (R.course (R.kept run.old)) [] result (In.left input.old) (In.left input.new) (Out.held out.old) (Out.held out.new) }
    ensures kept { R.kept run.new ≡ R.kept run.old }
    ensures in_later { In.faults input.old ≤ In.faults input.new }
    ensures out_later { Out.faults out.old ≤ Out.faults out.new }
    ensures read { result ≡ End.Read → Rose (In.faults input.old) (In.faults input.new) }
    ensures write { result ≡ End.Write → Rose (Out.faults out.old) (Out.faults out.new) }
{
    let mut cutter = LineCutter::<STREAM_LINE_SIZE>::new();
    let mut arrivals = ArrayVec::new();
    let mut text = LineSink::new();
    let small = SmallNumbers::new();
    for turn in 0..MOST_LINES {
        match cutter.next(input) {
            LineStep::Line => {
                let line = read_line(run.net(), cutter.line(), &mut arrivals);
                if let Err(stop) = run.take_line(line, &arrivals, &mut text, &small, out) {
                    return stopped(stop, turn + 1);
                }
            }
            LineStep::End => return finished(run, out),
            LineStep::TooLong => return End::Long { line: turn + 1 },
            LineStep::Failed => return End::Read,
        }
    }
    match cutter.next(input) {
        LineStep::End => finished(run, out),
        LineStep::Failed => End::Read,
        LineStep::Line | LineStep::TooLong => End::LineLimit,
    }
}
