//! A run over a stream.
ghost use Rattle.std.specs.Prelude.{◌≡◌, ◌≤◌, ◌<◌, ◌+◌, ◌^◌, ℕ, List, [], Err, All};
ghost use Rattle.mp_edge.specs.Outside.{Rose};
ghost use Rattle.mp_model.specs.Arrivals.{HasCounts, IsPermitted};
ghost use Rattle.mp_model.specs.Run.{opening};
ghost use Rattle.mp_model.specs.Stream.LineKind.{arrivals_line};
ghost use Rattle.mp_model.specs.declared.limits.TheConstants.{MOST_LINES};
ghost use Rattle.mp_press.specs.Queues.{naturals};
ghost use Rattle.mp_step.specs.Standing.{Stands};
ghost use Rattle.mp_step.specs.Taken.{HasTaken};
ghost use Rattle.mp_stream.specs.Taking.{TakesLine};
ghost use Rattle.mp_run.specs.Running.{course_of, StandsBehind, stream_end, EndsAs, StaysWithin};

use mp_drift::Session;
use mp_edge::{Failed, Sink, Source};
use mp_log::{StreamLine, put_end, put_period_in};
use mp_net::{LinkNo, Net};
use mp_step::AboveAt;
use mp_stream::{Driven, End, Stop, drive};
use mp_text::{LineSink, SmallNumbers};

/// How a run ends. Lines are numbered from 1, and all lines count.
#[derive(Clone, Copy, Debug, PartialEq, Eq)]
pub enum RunEnd {
    /// The stream was read to its end.
    Done,
    /// The source met a fault.
    Read,
    /// The sink met a fault.
    Write,
    /// The stream has more than 2^48 lines.
    LineLimit,
    /// The line has more than 2,048 bytes.
    Long {
        line: u64,
    },
    /// The line is not in the grammar.
    Grammar {
        line: u64,
    },
    /// The line gives the arrivals of this period, the first in which some link does not keep to its
    /// bucket; the link is the least one.
    Above {
        line: u64,
        period: u64,
        link: LinkNo,
    },
}

/// Why a session refuses a line of arrivals: in this period, which is the next, the link is the least
/// that does not keep to its bucket.
#[derive(Clone, Copy, Debug, PartialEq, Eq)]
pub struct AboveBucket {
    pub period: u64,
    pub link: LinkNo,
}

// Closes a period with the greatest stages, and puts its line. Nothing is put where the arrivals are
// above a bucket.
fn close_period<Out: Sink>(
    session: &mut Session,
    arrivals: &[u64],
    text: &mut LineSink,
    small: &SmallNumbers,
    out: &mut Out,
) -> Result<(), Stop<AboveBucket>>
    requires counts { HasCounts session.old.net arrivals.now }
    requires digits { All (λ a. a < 10 ^ 9) arrivals.now }
    requires period { session.old.at.period < MOST_LINES }
    ensures takes { TakesLine (course_of session.old.net) (StandsBehind session.old.net session.old.at) (StandsBehind session.old.net session.new.at) (arrivals_line arrivals.now) result (Out.held out.old) (Out.held out.new) }
    ensures same { session.new ≡ record session.old { at = session.new.at; stages = session.new.stages } }
    ensures later { Out.faults out.old ≤ Out.faults out.new }
    ensures write { result ≡ Err Stop.Write → Rose (Out.faults out.old) (Out.faults out.new) }
{
    match session.period(arrivals) {
        Err(AboveAt { link }) => {
            let period = session.state().period() + 1;
            Err(Stop::Refused(AboveBucket { period, link }))
        }
        Ok(()) => {
            let state = session.state();
            let stages = session.stages();
            let period = state.period();
            let queues = state.queues();
            match put_period_in(text, small, out, period, arrivals, stages, queues) {
                Ok(()) => Ok(()),
                Err(Failed) => Err(Stop::Write),
            }
        }
    }
}

/// A session takes lines of arrivals alone. Each closes a period with the stages of greatest pressure,
/// and its line is put.
impl<'a> Driven<AboveBucket> for Session<'a> {
    ghost use Rattle.mp_drift.specs.Session.{Bounded};
    ghost use Rattle.mp_run.specs.Running.{course_of, kept_of, StandsBehind};

    ghost Kept = { Bounded };

    ghost kept = { kept_of };

    ghost course = { λ session. course_of session.net };

    ghost Stands = { λ session. StandsBehind session.net session.at };

    fn net(&self) -> &Net {
        Session::net(self)
    }

    fn take_line<Out: Sink>(
        &mut self,
        line: StreamLine,
        arrivals: &[u64],
        text: &mut LineSink,
        small: &SmallNumbers,
        out: &mut Out,
    ) -> Result<(), Stop<AboveBucket>> {
        match line {
            StreamLine::Skipped => Ok(()),
            StreamLine::Arrivals => close_period(self, arrivals, text, small, out),
            StreamLine::Hear { .. } | StreamLine::Decide { .. } | StreamLine::Bad => Err(Stop::Bad),
        }
    }

    fn finish<Out: Sink>(&self, out: &mut Out) -> Result<(), Failed> {
        let state = self.state();
        let queued = state.total_in() - state.total_out();
        put_end(
            out,
            state.period(),
            state.total_in(),
            state.total_out(),
            queued,
        )
    }
}

fn run_end(end: End<AboveBucket>) -> RunEnd
    ensures same { stream_end result ≡ end }
    ensures read { result ≡ RunEnd.Read → end ≡ End.Read }
    ensures write { result ≡ RunEnd.Write → end ≡ End.Write }
{
    match end {
        End::Done => RunEnd::Done,
        End::Read => RunEnd::Read,
        End::Write => RunEnd::Write,
        End::LineLimit => RunEnd::LineLimit,
        End::Long { line } => RunEnd::Long { line },
        End::Bad { line } => RunEnd::Grammar { line },
        End::Refused {
            line,
            refusal: AboveBucket { period, link },
        } => RunEnd::Above { line, period, link },
    }
}

/// Reads the stream and runs the session on its arrivals: each line of arrivals closes a period with
/// the stages of greatest pressure, and puts its line; at the end of the input comes the end line.
///
/// The arrivals are held to the declared demand: the first period in which some link does not keep to
/// its bucket ends the run at its line, which is not closed and puts nothing. So in every line of a
/// period each queue is at most its bound.
///
/// The session is one that was just opened, and it keeps its network, slack and bounds. The run takes
/// no memory.
pub fn run_stream<In: Source, Out: Sink>(
    session: &mut Session,
    input: &mut In,
    out: &mut Out,
) -> RunEnd
    requires start { Stands session.old.net session.old.at (opening session.old.net) }
    requires taken { HasTaken session.old.net session.old.at [] }
    ensures ends { EndsAs session.old.net [] result (In.left input.old) (In.left input.new) (Out.held out.old) (Out.held out.new) }
    ensures bounded { (A : List (List ℕ)) → IsPermitted session.old.net A → StaysWithin session.old.net (naturals session.old.bounds) A }
    ensures same { session.new ≡ record session.old { at = session.new.at; stages = session.new.stages } }
    ensures in_later { In.faults input.old ≤ In.faults input.new }
    ensures out_later { Out.faults out.old ≤ Out.faults out.new }
    ensures read { result ≡ RunEnd.Read → Rose (In.faults input.old) (In.faults input.new) }
    ensures write { result ≡ RunEnd.Write → Rose (Out.faults out.old) (Out.faults out.new) }
{
    let _ = session.state();
    run_end(drive(session, input, out))
}
