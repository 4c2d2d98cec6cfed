//! A run under a guard over a stream.
ghost use Rattle.std.specs.Prelude.{◌≡◌, ◌≤◌, ◌<◌, ◌^◌, ℕ, List, [], Err, All};
ghost use Rattle.mp_edge.specs.Outside.{Rose};
ghost use Rattle.mp_model.specs.Arrivals.{HasCounts, IsPermitted};
ghost use Rattle.mp_model.specs.Stream.LineKind.{arrivals_line};
ghost use Rattle.mp_model.specs.declared.limits.TheConstants.{MOST_LINES};
ghost use Rattle.mp_stream.specs.Taking.{TakesLine};
ghost use Rattle.mp_guard_run.specs.Running.{guarded_course, GuardKeepsWaits, GuardStaysWithin, IsAtOpening, StandsBehind, EndsAs};

use crate::session::GuardSession;
use mp_edge::{Failed, Sink, Source};
use mp_log::{StreamLine, put_end, put_period_in};
use mp_net::Net;
use mp_step::AboveAt;
use mp_stream::{AboveBucket, ArrivalsEnd, Driven, Stop, arrivals_end, drive};
use mp_text::{LineSink, SmallNumbers};

// Closes a period, and puts its line with the stages that the junctions take in it. Nothing is put
// where the arrivals are above a bucket.
fn close_period<Out: Sink>(
    session: &mut GuardSession,
    arrivals: &[u64],
    text: &mut LineSink,
    small: &SmallNumbers,
    out: &mut Out,
) -> Result<(), Stop<AboveBucket>>
    requires counts { HasCounts session.old.net arrivals.now }
    requires digits { All (λ a. a < 10 ^ 9) arrivals.now }
    requires period { session.old.at.period < MOST_LINES }
    ensures takes { TakesLine (guarded_course session.old.net session.old.guard) (StandsBehind session.old) (StandsBehind session.new) (arrivals_line arrivals.now) result (Out.held out.old) (Out.held out.new) }
    ensures same { session.new ≡ record session.old { at = session.new.at; accounts = session.new.accounts; stages = session.new.stages } }
    ensures later { Out.faults out.old ≤ Out.faults out.new }
    ensures write { result ≡ Err Stop.Write → Rose (Out.faults out.old) (Out.faults out.new) }
{
    match session.period(arrivals) {
        Err(AboveAt { link }) => {
            let period = session.state().period() + 1;
            Err(Stop::Refused(AboveBucket { period, link }))
        }
        Ok(()) => {
            let state = session.state();
            let stages = session.stages();
            let period = state.period();
            let queues = state.queues();
            match put_period_in(text, small, out, period, arrivals, stages, queues) {
                Ok(()) => Ok(()),
                Err(Failed) => Err(Stop::Write),
            }
        }
    }
}

/// A session under a guard takes lines of arrivals alone. Each closes a period, and its line is put with
/// the stages that the junctions take in it.
impl<'a> Driven<AboveBucket> for GuardSession<'a> {
    ghost use Rattle.mp_guard_run.specs.Session.{Guarded};
    ghost use Rattle.mp_guard_run.specs.Running.{guarded_course, kept_of, StandsBehind};

    ghost Kept = { Guarded };

    ghost kept = { kept_of };

    ghost course = { λ session. guarded_course session.net session.guard };

    ghost Stands = { StandsBehind };

    fn net(&self) -> &Net {
        GuardSession::net(self)
    }

    fn take_line<Out: Sink>(
        &mut self,
        line: StreamLine,
        arrivals: &[u64],
        text: &mut LineSink,
        small: &SmallNumbers,
        out: &mut Out,
    ) -> Result<(), Stop<AboveBucket>> {
        match line {
            StreamLine::Skipped => Ok(()),
            StreamLine::Arrivals => close_period(self, arrivals, text, small, out),
            StreamLine::Hear { .. } | StreamLine::Decide { .. } | StreamLine::Bad => Err(Stop::Bad),
        }
    }

    fn finish<Out: Sink>(&self, out: &mut Out) -> Result<(), Failed> {
        let state = self.state();
        let queued = state.total_in() - state.total_out();
        put_end(
            out,
            state.period(),
            state.total_in(),
            state.total_out(),
            queued,
        )
    }
}

/// Reads the stream and runs the session under its guard on its arrivals: each line of arrivals closes a
/// period and puts its line, with the stages that the junctions take in it; at the end of the input comes
/// the end line.
///
/// The arrivals are held to the declared demand: the first period in which some link does not keep to
/// its bucket ends the run at its line, which is not closed and puts nothing. So in every line of a
/// period each queue is at most its bound. No movement with somebody waiting is without green longer
/// than its wait, whatever arrives.
///
/// The session is one that was just opened, and it keeps its network, guard, bounds and waits. The run
/// takes no memory.
pub fn run_guarded<In: Source, Out: Sink>(
    session: &mut GuardSession,
    input: &mut In,
    out: &mut Out,
) -> ArrivalsEnd
    requires opening { IsAtOpening session.old }
    ensures ends { EndsAs session.old.net session.old.guard [] result (In.left input.old) (In.left input.new) (Out.held out.old) (Out.held out.new) }
    ensures bounded { (A : List (List ℕ)) → IsPermitted session.old.net A → GuardStaysWithin session.old.net session.old.guard session.old.bounds A }
    ensures waits { (A : List (List ℕ)) → GuardKeepsWaits session.old.net session.old.guard session.old.waits A }
    ensures same { session.new ≡ record session.old { at = session.new.at; accounts = session.new.accounts; stages = session.new.stages } }
    ensures in_later { In.faults input.old ≤ In.faults input.new }
    ensures out_later { Out.faults out.old ≤ Out.faults out.new }
    ensures read { result ≡ ArrivalsEnd.Read → Rose (In.faults input.old) (In.faults input.new) }
    ensures write { result ≡ ArrivalsEnd.Write → Rose (Out.faults out.old) (Out.faults out.new) }
{
    let _ = session.state();
    arrivals_end(drive(session, input, out))
}
