//! Period lines.
ghost use Rattle.std.specs.Prelude.{◌≡◌, ◌<◌, ◌++◌, ◌∷◌, [], ℕ, List, pos, map, length};
ghost use Rattle.mp_edge.specs.Outside.{Tells, Puts, HasCause};
ghost use Rattle.mp_model.specs.Log.{period_line};
ghost use Rattle.mp_model.specs.declared.limits.TheConstants.{MOST_LOG_LINE_BYTES};
ghost use Rattle.mp_log.specs.Fitting.{FitsLine};

use crate::line::{push_number, push_spaced, push_text};
use mp_edge::{Failed, Sink};
use mp_net::StageNo;
use mp_text::{LineSink, SmallNumbers};

/// Appends the line of a period without its line feed to an empty buffer: its number from 1, the
/// arrivals of the fed links in link order, the stages of the junctions in junction order, and the
/// queues of the movements in movement order after the period.
pub fn push_period(
    line: &mut LineSink,
    small: &SmallNumbers,
    period: u64,
    arrivals: &[u64],
    stages: &[StageNo],
    queues: &[i128],
)
    requires empty { line.old.held ≡ [] }
    requires fits { FitsLine period arrivals.now stages.now queues.now }
    ensures held { (counts : List ℕ) → queues.now ≡ map pos counts → line.new.held ≡ period_line period arrivals.now stages.now counts }
    ensures len { length line.new.held < MOST_LOG_LINE_BYTES }
{
    push_text(line, b"p ");
    push_number(line, period);
    push_text(line, b" a");
    push_spaced(line, small, arrivals);
    push_text(line, b" s");
    push_spaced(line, small, stages);
    push_text(line, b" q");
    push_spaced(line, small, queues);
}

/// Puts the line of a period as `put_period` does, in a buffer and by a table that serve one line after another.
pub fn put_period_in<K: Sink>(
    line: &mut LineSink,
    small: &SmallNumbers,
    out: &mut K,
    period: u64,
    arrivals: &[u64],
    stages: &[StageNo],
    queues: &[i128],
) -> Result<(), Failed>
    requires { FitsLine period arrivals.now stages.now queues.now }
    ensures bytes { (counts : List ℕ) → queues.now ≡ map pos counts → Tells (K.held out.old) (K.held out.new) (Puts result (period_line period arrivals.now stages.now counts ++ 10 ∷ [])) }
    ensures cause { HasCause (K.faults out.old) (K.faults out.new) result }
{
    line.clear();
    push_period(line, small, period, arrivals, stages, queues);
    push_text(line, b"\n");
    out.put(line.bytes())
}

/// Puts the line of a period in one piece: its number from 1, the arrivals of the fed links in link
/// order, the stages of the junctions in junction order, and the queues of the movements in movement
/// order after the period. `Failed` comes only from this put.
pub fn put_period<K: Sink>(
    out: &mut K,
    period: u64,
    arrivals: &[u64],
    stages: &[StageNo],
    queues: &[i128],
) -> Result<(), Failed>
    requires { FitsLine period arrivals.now stages.now queues.now }
    ensures bytes { (counts : List ℕ) → queues.now ≡ map pos counts → Tells (K.held out.old) (K.held out.new) (Puts result (period_line period arrivals.now stages.now counts ++ 10 ∷ [])) }
    ensures cause { HasCause (K.faults out.old) (K.faults out.new) result }
{
    put_period_in(
        &mut LineSink::new(),
        &SmallNumbers::new(),
        out,
        period,
        arrivals,
        stages,
        queues,
    )
}
