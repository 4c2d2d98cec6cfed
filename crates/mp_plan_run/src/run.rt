//! A run by a plan over a stream.
ghost use Rattle.std.specs.Prelude.{◌≡◌, ◌≤◌, ◌<◌, ◌+◌, ◌^◌, ℕ, List, [], Err, All};
ghost use Rattle.mp_edge.specs.Outside.{Rose};
ghost use Rattle.mp_model.specs.Arrivals.{HasCounts, IsPermitted};
ghost use Rattle.mp_model.specs.Run.{opening};
ghost use Rattle.mp_model.specs.Stream.LineKind.{arrivals_line};
ghost use Rattle.mp_model.specs.declared.limits.TheConstants.{MOST_LINES};
ghost use Rattle.mp_step.specs.Standing.{Stands};
ghost use Rattle.mp_step.specs.Taken.{HasTaken};
ghost use Rattle.mp_stream.specs.Taking.{TakesLine};
ghost use Rattle.mp_plan_run.specs.Running.{plan_course, StandsBehind, EndsAs, StaysWithin};

use crate::session::PlanSession;
use mp_edge::{Failed, Sink, Source};
use mp_log::{StreamLine, put_end, put_period_in};
use mp_net::Net;
use mp_step::AboveAt;
use mp_stream::{AboveBucket, ArrivalsEnd, Driven, Stop, arrivals_end, drive};
use mp_text::{LineSink, SmallNumbers};

// Closes a period with the stages of the plan, and puts its line. Nothing is put where the arrivals are
// above a bucket.
fn close_period<Out: Sink>(
    session: &mut PlanSession,
    arrivals: &[u64],
    text: &mut LineSink,
    small: &SmallNumbers,
    out: &mut Out,
) -> Result<(), Stop<AboveBucket>>
    requires counts { HasCounts session.old.net arrivals.now }
    requires digits { All (λ a. a < 10 ^ 9) arrivals.now }
    requires period { session.old.at.period < MOST_LINES }
    ensures takes { TakesLine (plan_course session.old.net session.old.plan) (StandsBehind session.old.net session.old.plan session.old.at) (StandsBehind session.old.net session.old.plan session.new.at) (arrivals_line arrivals.now) result (Out.held out.old) (Out.held out.new) }
    ensures same { session.new ≡ record session.old { at = session.new.at; stages = session.new.stages } }
    ensures later { Out.faults out.old ≤ Out.faults out.new }
    ensures write { result ≡ Err Stop.Write → Rose (Out.faults out.old) (Out.faults out.new) }
{
    match session.period(arrivals) {
        Err(AboveAt { link }) => {
            let period = session.state().period() + 1;
            Err(Stop::Refused(AboveBucket { period, link }))
        }
        Ok(()) => {
            let state = session.state();
            let stages = session.stages();
            let period = state.period();
            let queues = state.queues();
            match put_period_in(text, small, out, period, arrivals, stages, queues) {
                Ok(()) => Ok(()),
                Err(Failed) => Err(Stop::Write),
            }
        }
    }
}

/// A session by a plan takes lines of arrivals alone. Each closes a period with the stages of the plan,
/// and its line is put.
impl<'a> Driven<AboveBucket> for PlanSession<'a> {
    ghost use Rattle.mp_plan_run.specs.Planned.{Planned};
    ghost use Rattle.mp_plan_run.specs.Running.{plan_course, kept_of, StandsBehind};

    ghost Kept = { Planned };

    ghost kept = { kept_of };

    ghost course = { λ session. plan_course session.net session.plan };

    ghost Stands = { λ session. StandsBehind session.net session.plan session.at };

    fn net(&self) -> &Net {
        PlanSession::net(self)
    }

    fn take_line<Out: Sink>(
        &mut self,
        line: StreamLine,
        arrivals: &[u64],
        text: &mut LineSink,
        small: &SmallNumbers,
        out: &mut Out,
    ) -> Result<(), Stop<AboveBucket>> {
        match line {
            StreamLine::Skipped => Ok(()),
            StreamLine::Arrivals => close_period(self, arrivals, text, small, out),
            StreamLine::Hear { .. } | StreamLine::Decide { .. } | StreamLine::Bad => Err(Stop::Bad),
        }
    }

    fn finish<Out: Sink>(&self, out: &mut Out) -> Result<(), Failed> {
        let state = self.state();
        let queued = state.total_in() - state.total_out();
        put_end(
            out,
            state.period(),
            state.total_in(),
            state.total_out(),
            queued,
        )
    }
}

/// Reads the stream and runs the session on its arrivals: each line of arrivals closes a period with
/// the stages of the plan, and puts its line; at the end of the input comes the end line.
///
/// The arrivals are held to the declared demand: the first period in which some link does not keep to
/// its bucket ends the run at its line, which is not closed and puts nothing. So in every line of a
/// period each queue is at most its bound.
///
/// The session is one that was just opened, and it keeps its network and its plan. The run takes no
/// memory.
pub fn run_plan<In: Source, Out: Sink>(
    session: &mut PlanSession,
    input: &mut In,
    out: &mut Out,
) -> ArrivalsEnd
    requires start { Stands session.old.net session.old.at (opening session.old.net) }
    requires taken { HasTaken session.old.net session.old.at [] }
    ensures ends { EndsAs session.old.net session.old.plan [] result (In.left input.old) (In.left input.new) (Out.held out.old) (Out.held out.new) }
    ensures bounded { (A : List (List ℕ)) → IsPermitted session.old.net A → StaysWithin session.old.net session.old.plan A }
    ensures same { session.new ≡ record session.old { at = session.new.at; stages = session.new.stages } }
    ensures in_later { In.faults input.old ≤ In.faults input.new }
    ensures out_later { Out.faults out.old ≤ Out.faults out.new }
    ensures read { result ≡ ArrivalsEnd.Read → Rose (In.faults input.old) (In.faults input.new) }
    ensures write { result ≡ ArrivalsEnd.Write → Rose (Out.faults out.old) (Out.faults out.new) }
{
    let _ = session.state();
    arrivals_end(drive(session, input, out))
}
