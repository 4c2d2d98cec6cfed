//! The audit of a log under a guard.
ghost use Rattle.std.specs.Prelude.{◌≡◌, ◌≢◌, ◌≤◌, ◌<◌, ◌+◌, ◌^◌, ℕ, List, [], length, All, Option, Some, MatchOption, MatchBool};
ghost use Rattle.mp_edge.specs.Outside.{Tells, Rose};
ghost use Rattle.mp_guard_run.specs.Running.{HoldsBounds, IsAtOpening};
ghost use Rattle.mp_model.specs.Arrivals.{HasCounts};
ghost use Rattle.mp_model.specs.declared.limits.TheConstants.{MOST_LINES, MOST_LOG_LINE_BYTES};
ghost use Rattle.mp_run.specs.Auditing.{HasSeen, EndsAfter};
ghost use Rattle.mp_guard_audit.specs.Auditing.{AuditsGuarded, Compares, ClosesLogged, RefutesCounts, GivesCounts, EndsLogged, RefutesEnd, TakesLogged, MovesOn, TakesNext};
ghost use Rattle.mp_guard_audit.specs.Heading.{header_of, HasNumbers};

use crate::header::{header_lines, push_header_line};
use arrayvec::ArrayVec;
use mp_edge::Source;
use mp_guard_run::GuardSession;
use mp_log::{push_end, push_period, read_arrivals};
use mp_model::limits::{MOST_LINES, MOST_LOG_LINE_BYTES};
use mp_run::AuditEnd;
use mp_text::{LineCutter, LineSink, LineStep, SmallNumbers};

/// The size of a buffer for lines of a log, each with its line feed.
const LOG_LINE_SIZE: usize = MOST_LOG_LINE_BYTES + 1;

// What the next line is beside a wanted one.
enum Compared {
    Same,
    // Another line, or none.
    Other,
    // The source met a fault.
    Failed,
}

// What the next line behind the header is.
enum Logged {
    // The line of the next period, which was closed.
    Period,
    // The end line.
    End,
    // A line that may not follow, or none.
    Other,
    // The source met a fault.
    Failed,
}

fn is_same(a: &[u8], b: &[u8]) -> bool
    ensures { MatchBool result (a.now ≡ b.now) (a.now ≢ b.now) }
{
    a == b
}

// Takes the next line, and compares it with the wanted one.
fn compare_next<In: Source>(
    input: &mut In,
    cutter: &mut LineCutter<LOG_LINE_SIZE>,
    wanted: &[u8],
) -> Compared
    requires { length wanted.now < MOST_LOG_LINE_BYTES }
    ensures told { Tells (In.left input.old) (In.left input.new) (Compares wanted.now result cutter.old cutter.new) }
    ensures later { In.faults input.old ≤ In.faults input.new }
    ensures failed { result ≡ Compared.Failed → Rose (In.faults input.old) (In.faults input.new) }
{
    match cutter.next(input) {
        LineStep::Line => {
            if is_same(cutter.line(), wanted) {
                Compared::Same
            } else {
                Compared::Other
            }
        }
        LineStep::End => Compared::Other,
        LineStep::TooLong => Compared::Other,
        LineStep::Failed => Compared::Failed,
    }
}

// Compares the first lines of the input with the header, and gives the end of the audit at another line.
fn audit_header<In: Source>(
    session: &GuardSession,
    input: &mut In,
    cutter: &mut LineCutter<LOG_LINE_SIZE>,
    wanted: &mut LineSink,
) -> Option<AuditEnd>
    requires held { cutter.old.held ≡ [] }
    requires numbers { HasNumbers session.now }
    ensures ends { MatchOption result (HasSeen (header_of session.now) (In.left input.old) (In.left input.new) cutter.new.held) (λ end. AuditsGuarded session.now.net session.now.guard (header_of session.now) end (In.left input.old) (In.left input.new)) }
    ensures later { In.faults input.old ≤ In.faults input.new }
    ensures read { result ≡ Some AuditEnd.Read → Rose (In.faults input.old) (In.faults input.new) }
{
    let _ = session.state();
    for i in 0..header_lines(session) {
        wanted.clear();
        push_header_line(wanted, session, i);
        match compare_next(input, cutter, wanted.bytes()) {
            Compared::Same => {}
            Compared::Other => return Some(AuditEnd::Differs {
                line: u64::from(i) + 1,
            }),
            Compared::Failed => return Some(AuditEnd::Read),
        }
    }
    None
}

// Reads the arrivals of the next period off its line.
fn next_arrivals(session: &GuardSession, line: &[u8], arrivals: &mut ArrayVec<u64, 128>) -> bool
    ensures { MatchBool result (GivesCounts session.now line.now arrivals.new.items) ((counts : List ℕ) → ¬ GivesCounts session.now line.now counts) }
{
    let net = session.net();
    let period = session.state().period();
    if period == MOST_LINES {
        return false;
    }
    read_arrivals(line, period + 1, net.fed().len(), arrivals).is_some()
}

// Closes the next period with these arrivals, and says whether the line is that of the period.
fn is_period(
    session: &mut GuardSession,
    line: &[u8],
    arrivals: &[u64],
    wanted: &mut LineSink,
    small: &SmallNumbers,
) -> bool
    requires counts { HasCounts session.old.net arrivals.now }
    requires digits { All (λ a. a < 10 ^ 9) arrivals.now }
    requires period { session.old.at.period < MOST_LINES }
    ensures closes { MatchBool result ((session.new.at.period ≡ session.old.at.period + 1) × ClosesLogged line.now arrivals.now session.old session.new) (RefutesCounts line.now arrivals.now session.old) }
    ensures same { session.new ≡ record session.old { at = session.new.at; accounts = session.new.accounts; stages = session.new.stages } }
{
    if session.period(arrivals).is_err() {
        return false;
    }
    let state = session.state();
    let stages = session.stages();
    let queues = state.queues();
    wanted.clear();
    push_period(wanted, small, state.period(), arrivals, stages, queues);
    is_same(line, wanted.bytes())
}

// Says whether the line is the end line.
fn is_end(session: &GuardSession, line: &[u8], wanted: &mut LineSink) -> bool
    ensures { MatchBool result (EndsLogged session.now line.now) (RefutesEnd session.now line.now) }
{
    let state = session.state();
    let queued = state.total_in() - state.total_out();
    wanted.clear();
    push_end(
        wanted,
        state.period(),
        state.total_in(),
        state.total_out(),
        queued,
    );
    is_same(line, wanted.bytes())
}

// Takes a line behind the header. The arrivals and the line that is wanted go into buffers.
fn take_logged(
    session: &mut GuardSession,
    line: &[u8],
    arrivals: &mut ArrayVec<u64, 128>,
    wanted: &mut LineSink,
    small: &SmallNumbers,
) -> Logged
    ensures takes { TakesLogged line.now result session.old session.new }
    ensures same { session.new ≡ record session.old { at = session.new.at; accounts = session.new.accounts; stages = session.new.stages } }
{
    let _ = session.state();
    if next_arrivals(session, line, arrivals) {
        if is_period(session, line, arrivals, wanted, small) {
            Logged::Period
        } else {
            Logged::Other
        }
    } else if is_end(session, line, wanted) {
        Logged::End
    } else {
        Logged::Other
    }
}

// Takes the next line behind the header.
fn take_next<In: Source>(
    session: &mut GuardSession,
    input: &mut In,
    cutter: &mut LineCutter<LOG_LINE_SIZE>,
    arrivals: &mut ArrayVec<u64, 128>,
    wanted: &mut LineSink,
    small: &SmallNumbers,
) -> Logged
    requires { HoldsBounds session.old }
    ensures takes { Tells (In.left input.old) (In.left input.new) (TakesNext result session.old cutter.old cutter.new) }
    ensures moves { MovesOn cutter.new.line result session.old session.new }
    ensures same { session.new ≡ record session.old { at = session.new.at; accounts = session.new.accounts; stages = session.new.stages } }
    ensures later { In.faults input.old ≤ In.faults input.new }
    ensures failed { result ≡ Logged.Failed → Rose (In.faults input.old) (In.faults input.new) }
{
    let _ = session.state();
    match cutter.next(input) {
        LineStep::Line => take_logged(session, cutter.line(), arrivals, wanted, small),
        LineStep::End => Logged::Other,
        LineStep::TooLong => Logged::Other,
        LineStep::Failed => Logged::Failed,
    }
}

// Ends the audit behind the end line of a log of this many periods, where the next line has this number.
fn finish_audit<In: Source>(
    input: &mut In,
    cutter: &mut LineCutter<LOG_LINE_SIZE>,
    periods: u64,
    line: u64,
) -> AuditEnd
    ensures ends { Tells (In.left input.old) (In.left input.new) (EndsAfter periods line result cutter.old) }
    ensures later { In.faults input.old ≤ In.faults input.new }
    ensures read { result ≡ AuditEnd.Read → Rose (In.faults input.old) (In.faults input.new) }
{
    match cutter.next(input) {
        LineStep::End => AuditEnd::Done { periods },
        LineStep::Line => AuditEnd::Differs { line },
        LineStep::TooLong => AuditEnd::Differs { line },
        LineStep::Failed => AuditEnd::Read,
    }
}

// Audits the lines behind the header.
fn audit_periods<In: Source>(
    session: &mut GuardSession,
    input: &mut In,
    cutter: &mut LineCutter<LOG_LINE_SIZE>,
    wanted: &mut LineSink,
    small: &SmallNumbers,
) -> AuditEnd
    requires { IsAtOpening session.old }
    ensures ends { (whole : Option (List ℕ)) → HasSeen (header_of session.old) whole (In.left input.old) cutter.old.held → AuditsGuarded session.old.net session.old.guard (header_of session.old) result whole (In.left input.new) }
    ensures same { session.new ≡ record session.old { at = session.new.at; accounts = session.new.accounts; stages = session.new.stages } }
    ensures later { In.faults input.old ≤ In.faults input.new }
    ensures read { result ≡ AuditEnd.Read → Rose (In.faults input.old) (In.faults input.new) }
{
    let header = u64::from(header_lines(session));
    let mut arrivals = ArrayVec::new();
    loop {
        let period = session.state().period();
        let line = header + period + 1;
        match take_next(session, input, cutter, &mut arrivals, wanted, small) {
            Logged::Period => {}
            Logged::End => return finish_audit(input, cutter, period, line + 1),
            Logged::Other => return AuditEnd::Differs { line },
            Logged::Failed => return AuditEnd::Read,
        }
    }
}

/// Compares the input with the log of the session's guarded run over permitted arrivals, which are those
/// that the lines of the periods give: the header of the guard with the session's bounds and waits, a line
/// per period with the stages that the junctions take in it and the queues after it, and the end line.
///
/// `Done` comes exactly where the input is such a log as a whole, of at most 2^48 periods. `Differs` names
/// the first line that is not the log's: also a line of more than 16,384 bytes, one that gives arrivals
/// above a bucket, one behind the end line, and the missing one behind the last. `Read` comes only with a
/// fault of the source.
///
/// The session is one that was just opened, and it keeps its network, guard, bounds and waits. The audit
/// takes no memory, and reads the input once.
pub fn audit_guarded<In: Source>(session: &mut GuardSession, input: &mut In) -> AuditEnd
    requires { IsAtOpening session.old }
    ensures ends { AuditsGuarded session.old.net session.old.guard (header_of session.old) result (In.left input.old) (In.left input.new) }
    ensures same { session.new ≡ record session.old { at = session.new.at; accounts = session.new.accounts; stages = session.new.stages } }
    ensures in_later { In.faults input.old ≤ In.faults input.new }
    ensures read { result ≡ AuditEnd.Read → Rose (In.faults input.old) (In.faults input.new) }
{
    let mut cutter = LineCutter::<LOG_LINE_SIZE>::new();
    let mut wanted = LineSink::new();
    if let Some(end) = audit_header(session, input, &mut cutter, &mut wanted) {
        return end;
    }
    let small = SmallNumbers::new();
    audit_periods(session, input, &mut cutter, &mut wanted, &small)
}
