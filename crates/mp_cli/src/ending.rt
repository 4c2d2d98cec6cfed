//! How runs over a stream end.
ghost use Rattle.std.specs.Prelude.{◌≡◌};
ghost use Rattle.mp_cli.specs.Statuses.{status_of};
ghost use Rattle.mp_cli.specs.Streaming.{end_over, outcome_of_run};

use crate::outcome::Outcome;
use mp_event_run::RunEnd as EventsEnd;
use mp_run::RunEnd;
use mp_stream::ArrivalsEnd;

/// The end of a run over lines of arrivals alone, told as that of a session's run.
pub fn run_end(end: ArrivalsEnd) -> RunEnd
    ensures { end_over result ≡ end }
{
    match end {
        ArrivalsEnd::Done => RunEnd::Done,
        ArrivalsEnd::Read => RunEnd::Read,
        ArrivalsEnd::Write => RunEnd::Write,
        ArrivalsEnd::LineLimit => RunEnd::LineLimit,
        ArrivalsEnd::Long { line } => RunEnd::Long { line },
        ArrivalsEnd::Grammar { line } => RunEnd::Grammar { line },
        ArrivalsEnd::Above { line, period, link } => RunEnd::Above { line, period, link },
    }
}

/// The outcome of a run by events.
pub fn outcome_of_run(end: EventsEnd) -> Outcome
    ensures same { result ≡ outcome_of_run end }
    ensures unstored { ¬ (status_of result ≡ 2) }
    ensures read { status_of result ≡ 10 → end ≡ EventsEnd.Read }
    ensures write { status_of result ≡ 11 → end ≡ EventsEnd.Write }
{
    match end {
        EventsEnd::Done => Outcome::Run(RunEnd::Done),
        EventsEnd::Read => Outcome::Run(RunEnd::Read),
        EventsEnd::Write => Outcome::Run(RunEnd::Write),
        EventsEnd::LineLimit => Outcome::Run(RunEnd::LineLimit),
        EventsEnd::Long { line } => Outcome::Run(RunEnd::Long { line }),
        EventsEnd::Grammar { line } => Outcome::Run(RunEnd::Grammar { line }),
        EventsEnd::Above { line, period, link } => {
            Outcome::Run(RunEnd::Above { line, period, link })
        }
        EventsEnd::Stale {
            line,
            junction,
            link,
        } => Outcome::Stale {
            line,
            junction,
            link,
        },
        EventsEnd::NotAdjacent {
            line,
            junction,
            link,
        } => Outcome::NotAdjacent {
            line,
            junction,
            link,
        },
    }
}
