//! A run by events over a stream.
ghost use Rattle.std.specs.Prelude.{◌≡◌, ◌≤◌, ◌<◌, ◌^◌, [], ℕ, List, Option, All, Err, map};
ghost use Rattle.mp_edge.specs.Outside.{Rose};
ghost use Rattle.mp_model.specs.Arrivals.{HasCounts, IsPermitted};
ghost use Rattle.mp_model.specs.EventCore.{core_opening};
ghost use Rattle.mp_model.specs.Reports.{AllTimely, Period};
ghost use Rattle.mp_model.specs.Stream.{LineKind};
ghost use Rattle.mp_model.specs.Stream.LineKind.{arrivals_line};
ghost use Rattle.mp_model.specs.StreamEnd.{refusal_of};
ghost use Rattle.mp_model.specs.StreamPeriods.{stream_periods};
ghost use Rattle.mp_model.specs.declared.limits.TheConstants.{MOST_LINES};
ghost use Rattle.mp_press.specs.Queues.{naturals};
ghost use Rattle.mp_round.specs.Events.{answer_of, event_of, CanApply};
ghost use Rattle.mp_round.specs.RoundView.{core_of};
ghost use Rattle.mp_stream.specs.Taking.{TakesLine};
ghost use Rattle.mp_event_run.specs.Behind.{ArePermitted, periods_behind};
ghost use Rattle.mp_event_run.specs.Running.{course_of, end_refused, run_end_of, EndsAs, IsEventLine, Performs, StandsBehind, StaysWithin};
ghost use Rattle.mp_event_run.specs.Saying.{Says};

use crate::ends::{Refusal, RunEnd};
use mp_edge::{Failed, Sink, Source};
use mp_log::{StreamLine, put_end, put_period_in};
use mp_net::Net;
use mp_round::{Answer, Event};
use mp_session::Session;
use mp_step::AboveAt;
use mp_stream::{Driven, End, Stop, drive};
use mp_text::{LineSink, SmallNumbers};

// Why an answer in this period refuses its line, if it does.
fn refusal(answer: Answer, period: u64) -> Option<Refusal>
    ensures { (line : ℕ) → refusal_of line period (answer_of answer) ≡ end_refused line result }
{
    match answer {
        Answer::AboveAt { link } => Some(Refusal::Above { period, link }),
        Answer::Stale { junction, link } => Some(Refusal::Stale { junction, link }),
        Answer::NotAdjacent { junction, link } => Some(Refusal::NotAdjacent { junction, link }),
        Answer::Heard | Answer::Chose { .. } | Answer::Undecided { .. } | Answer::Closed => None,
    }
}

// Has a junction hear or decide. Nothing is put.
fn take_event(session: &mut Session, event: &Event) -> Result<(), Stop<Refusal>>
    requires can { CanApply session.old.net (core_of session.old.round) (event_of event.now) }
    requires period { session.old.round.standing.period < MOST_LINES }
    ensures performs { (kind : LineKind) → IsEventLine kind (event_of event.now) → Performs session.old.net session.old.round kind session.new.round }
    ensures takes { (kind : LineKind) → IsEventLine kind (event_of event.now) → (held : Option (List ℕ)) → TakesLine (course_of session.old.net) (StandsBehind session.old.net session.old.round) (StandsBehind session.old.net session.new.round) kind result held held }
    ensures same { session.new ≡ record session.old { round = session.new.round } }
    ensures nothing { ¬ (result ≡ Err Stop.Write) }
{
    let period = session.state().period() + 1;
    match refusal(session.apply(event), period) {
        Some(refusal) => Err(Stop::Refused(refusal)),
        None => Ok(()),
    }
}

// Performs what the period lacks, closes it, and puts its line. Nothing is put where the arrivals are above a
// bucket; the hearings and decisions stay.
fn close_period<Out: Sink>(
    session: &mut Session,
    arrivals: &[u64],
    text: &mut LineSink,
    small: &SmallNumbers,
    out: &mut Out,
) -> Result<(), Stop<Refusal>>
    requires counts { HasCounts session.old.net arrivals.now }
    requires digits { All (λ a. a < 10 ^ 9) arrivals.now }
    requires period { session.old.round.standing.period < MOST_LINES }
    ensures performs { Performs session.old.net session.old.round (arrivals_line arrivals.now) session.new.round }
    ensures takes { TakesLine (course_of session.old.net) (StandsBehind session.old.net session.old.round) (StandsBehind session.old.net session.new.round) (arrivals_line arrivals.now) result (Out.held out.old) (Out.held out.new) }
    ensures same { session.new ≡ record session.old { round = session.new.round } }
    ensures later { Out.faults out.old ≤ Out.faults out.new }
    ensures write { result ≡ Err Stop.Write → Rose (Out.faults out.old) (Out.faults out.new) }
{
    let next = session.round().state().period() + 1;
    match session.close_all(arrivals) {
        Err(AboveAt { link }) => Err(Stop::Refused(Refusal::Above { period: next, link })),
        Ok(()) => {
            let round = session.round();
            let state = round.state();
            let stages = round.stages();
            let period = state.period();
            let queues = state.queues();
            match put_period_in(text, small, out, period, arrivals, stages, queues) {
                Ok(()) => Ok(()),
                Err(Failed) => Err(Stop::Write),
            }
        }
    }
}

/// A session takes all lines: a hearing and a decision are events of its round, and a line of arrivals
/// performs what the period lacks, closes it, and its line is put.
impl<'a> Driven<Refusal> for Session<'a> {
    ghost use Rattle.mp_event_run.specs.Keeping.{kept_of, Keepsake};
    ghost use Rattle.mp_event_run.specs.Running.{course_of, StandsBehind};

    ghost Kept = { Keepsake };

    ghost kept = { kept_of };

    ghost course = { λ session. course_of session.net };

    ghost Stands = { λ session. StandsBehind session.net session.round };

    fn net(&self) -> &Net {
        Session::net(self)
    }

    fn take_line<Out: Sink>(
        &mut self,
        line: StreamLine,
        arrivals: &[u64],
        text: &mut LineSink,
        small: &SmallNumbers,
        out: &mut Out,
    ) -> Result<(), Stop<Refusal>> {
        let _ = self.round();
        match line {
            StreamLine::Skipped => Ok(()),
            StreamLine::Arrivals => close_period(self, arrivals, text, small, out),
            StreamLine::Hear { junction, link } => take_event(
                self,
                &Event::Hear { junction, link },
            ),
            StreamLine::Decide { junction } => take_event(self, &Event::Decide { junction }),
            StreamLine::Bad => Err(Stop::Bad),
        }
    }

    fn finish<Out: Sink>(&self, out: &mut Out) -> Result<(), Failed> {
        let state = self.round().state();
        let queued = state.total_in() - state.total_out();
        put_end(
            out,
            state.period(),
            state.total_in(),
            state.total_out(),
            queued,
        )
    }
}

fn run_end(end: End<Refusal>) -> RunEnd
    ensures same { run_end_of result ≡ end }
    ensures read { result ≡ RunEnd.Read → end ≡ End.Read }
    ensures write { result ≡ RunEnd.Write → end ≡ End.Write }
{
    match end {
        End::Done => RunEnd::Done,
        End::Read => RunEnd::Read,
        End::Write => RunEnd::Write,
        End::LineLimit => RunEnd::LineLimit,
        End::Long { line } => RunEnd::Long { line },
        End::Bad { line } => RunEnd::Grammar { line },
        End::Refused { line, refusal } => refused(line, refusal),
    }
}

// The end of a run that is refused at this line.
fn refused(line: u64, refusal: Refusal) -> RunEnd
    ensures same { run_end_of result ≡ End.Refused line refusal }
{
    match refusal {
        Refusal::Above { period, link } => RunEnd::Above { line, period, link },
        Refusal::Stale { junction, link } => RunEnd::Stale {
            line,
            junction,
            link,
        },
        Refusal::NotAdjacent { junction, link } => RunEnd::NotAdjacent {
            line,
            junction,
            link,
        },
    }
}

/// Reads the stream and runs the session by its lines. `hear J L` and `decide J` are events of its round;
/// a line of arrivals has each junction that has not decided hear the links of which it has no copy that a
/// decision accepts, and decide, and closes the period; and its line is put. At the end of the input
/// comes the end line.
///
/// The run ends at the first line that is too long, is not in the grammar, or has an event that is refused;
/// that line puts nothing. Of a line of arrivals only the close can be refused, as above a bucket; the
/// hearings and decisions of the line stay then. In every line of a period each queue is at most its bound.
///
/// The session is one that was just opened, and it keeps its network, slack and bounds. The run takes no
/// memory.
pub fn run_stream<In: Source, Out: Sink>(
    session: &mut Session,
    input: &mut In,
    out: &mut Out,
) -> RunEnd
    requires start { core_of session.old.round ≡ core_opening session.old.net }
    ensures ends { EndsAs session.old.net [] result (In.left input.old) (In.left input.new) (Out.held out.old) (Out.held out.new) }
    ensures says { Says session.old.net [] result (In.left input.old) (Out.held out.old) (Out.held out.new) }
    ensures bounded { (periods : List Period) → IsPermitted session.old.net (map (λ period. period.counts) periods) → AllTimely session.old.net 0 periods → StaysWithin session.old.net (naturals session.old.bounds) periods }
    ensures within { (kinds : List LineKind) → ArePermitted session.old.net kinds → StaysWithin session.old.net (naturals session.old.bounds) (periods_behind session.old.net kinds) }
    ensures stream_within { (text : List ℕ) → StaysWithin session.old.net (naturals session.old.bounds) (stream_periods session.old.net text) }
    ensures same { session.new ≡ record session.old { round = session.new.round } }
    ensures in_later { In.faults input.old ≤ In.faults input.new }
    ensures out_later { Out.faults out.old ≤ Out.faults out.new }
    ensures read { result ≡ RunEnd.Read → Rose (In.faults input.old) (In.faults input.new) }
    ensures write { result ≡ RunEnd.Write → Rose (Out.faults out.old) (Out.faults out.new) }
{
    let _ = session.round();
    run_end(drive(session, input, out))
}
