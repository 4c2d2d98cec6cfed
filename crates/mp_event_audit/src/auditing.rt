//! The audit of a log.
ghost use Rattle.std.specs.Prelude.{◌≡◌, ◌≢◌, ◌≤◌, ◌<◌, ◌+◌, ℕ, List, [], length, Option, Some, MatchOption, MatchBool};
ghost use Rattle.mp_edge.specs.Outside.{Tells, Rose};
ghost use Rattle.mp_model.specs.EventCore.{core_opening};
ghost use Rattle.mp_model.specs.Log.{header_lines};
ghost use Rattle.mp_model.specs.declared.limits.TheConstants.{MOST_LOG_LINE_BYTES};
ghost use Rattle.mp_num.specs.Fraction.{numerator, denominator};
ghost use Rattle.mp_press.specs.Queues.{naturals};
ghost use Rattle.mp_step.specs.Taken.{HasTaken};
ghost use Rattle.mp_round.specs.Events.{CanClose};
ghost use Rattle.mp_round.specs.RoundView.{core_of};
ghost use Rattle.mp_run.specs.Auditing.{HasSeen, GivesCounts, EndsAfter};
ghost use Rattle.mp_event_audit.specs.Auditing.{AuditsAs, Compares, ClosesLogged, RefutesCounts, EndsLogged, RefutesEnd, TakesLogged, MovesOn, TakesNext};

use arrayvec::ArrayVec;
use mp_edge::Source;
use mp_log::{header_lines, push_end, push_header_line, push_period, read_arrivals};
use mp_model::limits::{MOST_LINES, MOST_LOG_LINE_BYTES};
use mp_run::AuditEnd;
use mp_session::Session;
use mp_text::{LineCutter, LineSink, LineStep, SmallNumbers};

/// The size of a buffer for lines of a log, each with its line feed.
const LOG_LINE_SIZE: usize = MOST_LOG_LINE_BYTES + 1;

// What the next line is beside a wanted one.
enum Compared {
    Same,
    // Another line, or none.
    Other,
    // The source met a fault.
    Failed,
}

// What the next line behind the header is.
enum Logged {
    // The line of the next period, which was closed.
    Period,
    // The end line.
    End,
    // A line that may not follow, or none.
    Other,
    // The source met a fault.
    Failed,
}

fn is_same(a: &[u8], b: &[u8]) -> bool
    ensures { MatchBool result (a.now ≡ b.now) (a.now ≢ b.now) }
{
    a == b
}

// Takes the next line, and compares it with the wanted one.
fn compare_next<In: Source>(
    input: &mut In,
    cutter: &mut LineCutter<LOG_LINE_SIZE>,
    wanted: &[u8],
) -> Compared
    requires { length wanted.now < MOST_LOG_LINE_BYTES }
    ensures told { Tells (In.left input.old) (In.left input.new) (Compares wanted.now result cutter.old cutter.new) }
    ensures later { In.faults input.old ≤ In.faults input.new }
    ensures failed { result ≡ Compared.Failed → Rose (In.faults input.old) (In.faults input.new) }
{
    match cutter.next(input) {
        LineStep::Line => {
            if is_same(cutter.line(), wanted) {
                Compared::Same
            } else {
                Compared::Other
            }
        }
        LineStep::End => Compared::Other,
        LineStep::TooLong => Compared::Other,
        LineStep::Failed => Compared::Failed,
    }
}

// Compares the first lines of the input with the header, and gives the end of the audit at another line.
fn audit_header<In: Source>(
    session: &Session,
    input: &mut In,
    cutter: &mut LineCutter<LOG_LINE_SIZE>,
    wanted: &mut LineSink,
) -> Option<AuditEnd>
    requires { cutter.old.held ≡ [] }
    ensures ends { MatchOption result (HasSeen (header_lines session.now.net (numerator session.now.slack) (denominator session.now.slack) (naturals session.now.bounds)) (In.left input.old) (In.left input.new) cutter.new.held) (λ end. AuditsAs session.now.net (numerator session.now.slack) (denominator session.now.slack) (naturals session.now.bounds) end (In.left input.old) (In.left input.new)) }
    ensures later { In.faults input.old ≤ In.faults input.new }
    ensures read { result ≡ Some AuditEnd.Read → Rose (In.faults input.old) (In.faults input.new) }
{
    let _ = session.round();
    let net = session.net();
    for i in 0..header_lines(net) {
        wanted.clear();
        push_header_line(wanted, net, session.slack(), session.bounds(), i + 1);
        match compare_next(input, cutter, wanted.bytes()) {
            Compared::Same => {}
            Compared::Other => return Some(AuditEnd::Differs {
                line: u64::from(i) + 1,
            }),
            Compared::Failed => return Some(AuditEnd::Read),
        }
    }
    None
}

// Reads the arrivals of the next period off its line.
fn next_arrivals(session: &Session, line: &[u8], arrivals: &mut ArrayVec<u64, 128>) -> bool
    ensures { MatchBool result (GivesCounts session.now.net session.now.round.standing line.now arrivals.new.items) ((counts : List ℕ) → ¬ GivesCounts session.now.net session.now.round.standing line.now counts) }
{
    let _ = session.round();
    let net = session.net();
    let period = session.state().period();
    if period == MOST_LINES {
        return false;
    }
    read_arrivals(line, period + 1, net.fed().len(), arrivals).is_some()
}

// Closes the next period with these arrivals, and says whether the line is that of the period.
fn is_period(
    session: &mut Session,
    line: &[u8],
    arrivals: &[u64],
    wanted: &mut LineSink,
    small: &SmallNumbers,
) -> bool
    requires can { CanClose session.old.net (core_of session.old.round) arrivals.now }
    ensures closes { MatchBool result (ClosesLogged session.old.net line.now arrivals.now session.old.round session.new.round) (RefutesCounts session.old.net line.now arrivals.now session.old.round) }
    ensures same { session.new ≡ record session.old { round = session.new.round } }
{
    if session.close_all(arrivals).is_err() {
        return false;
    }
    let round = session.round();
    let state = round.state();
    let queues = state.queues();
    wanted.clear();
    push_period(
        wanted,
        small,
        state.period(),
        arrivals,
        round.stages(),
        queues,
    );
    is_same(line, wanted.bytes())
}

// Says whether the line is the end line.
fn is_end(session: &Session, line: &[u8], wanted: &mut LineSink) -> bool
    ensures { MatchBool result (EndsLogged session.now.net session.now.round line.now) (RefutesEnd session.now.net session.now.round line.now) }
{
    let _ = session.round();
    let state = session.state();
    let queued = state.total_in() - state.total_out();
    wanted.clear();
    push_end(
        wanted,
        state.period(),
        state.total_in(),
        state.total_out(),
        queued,
    );
    is_same(line, wanted.bytes())
}

// Takes a line behind the header. The arrivals and the line that is wanted go into buffers.
fn take_logged(
    session: &mut Session,
    line: &[u8],
    arrivals: &mut ArrayVec<u64, 128>,
    wanted: &mut LineSink,
    small: &SmallNumbers,
) -> Logged
    ensures takes { TakesLogged session.old.net line.now result session.old.round session.new.round }
    ensures same { session.new ≡ record session.old { round = session.new.round } }
{
    let _ = session.net().shares();
    if next_arrivals(session, line, arrivals) {
        if is_period(session, line, arrivals, wanted, small) {
            Logged::Period
        } else {
            Logged::Other
        }
    } else if is_end(session, line, wanted) {
        Logged::End
    } else {
        Logged::Other
    }
}

// Takes the next line behind the header.
fn take_next<In: Source>(
    session: &mut Session,
    input: &mut In,
    cutter: &mut LineCutter<LOG_LINE_SIZE>,
    arrivals: &mut ArrayVec<u64, 128>,
    wanted: &mut LineSink,
    small: &SmallNumbers,
) -> Logged
    ensures takes { Tells (In.left input.old) (In.left input.new) (TakesNext session.old.net result session.old.round cutter.old cutter.new) }
    ensures moves { MovesOn session.old.net cutter.new.line result session.old.round session.new.round }
    ensures same { session.new ≡ record session.old { round = session.new.round } }
    ensures later { In.faults input.old ≤ In.faults input.new }
    ensures failed { result ≡ Logged.Failed → Rose (In.faults input.old) (In.faults input.new) }
{
    let _ = session.round();
    match cutter.next(input) {
        LineStep::Line => take_logged(session, cutter.line(), arrivals, wanted, small),
        LineStep::End => Logged::Other,
        LineStep::TooLong => Logged::Other,
        LineStep::Failed => Logged::Failed,
    }
}

// Ends the audit behind the end line of a log of this many periods, where the next line has this number.
fn finish_audit<In: Source>(
    input: &mut In,
    cutter: &mut LineCutter<LOG_LINE_SIZE>,
    periods: u64,
    line: u64,
) -> AuditEnd
    ensures ends { Tells (In.left input.old) (In.left input.new) (EndsAfter periods line result cutter.old) }
    ensures later { In.faults input.old ≤ In.faults input.new }
    ensures read { result ≡ AuditEnd.Read → Rose (In.faults input.old) (In.faults input.new) }
{
    match cutter.next(input) {
        LineStep::End => AuditEnd::Done { periods },
        LineStep::Line => AuditEnd::Differs { line },
        LineStep::TooLong => AuditEnd::Differs { line },
        LineStep::Failed => AuditEnd::Read,
    }
}

// Audits the lines behind the header.
fn audit_periods<In: Source>(
    session: &mut Session,
    input: &mut In,
    cutter: &mut LineCutter<LOG_LINE_SIZE>,
    wanted: &mut LineSink,
    small: &SmallNumbers,
) -> AuditEnd
    requires start { core_of session.old.round ≡ core_opening session.old.net }
    requires taken { HasTaken session.old.net session.old.round.standing [] }
    ensures ends { (whole : Option (List ℕ)) → HasSeen (header_lines session.old.net (numerator session.old.slack) (denominator session.old.slack) (naturals session.old.bounds)) whole (In.left input.old) cutter.old.held → AuditsAs session.old.net (numerator session.old.slack) (denominator session.old.slack) (naturals session.old.bounds) result whole (In.left input.new) }
    ensures same { session.new ≡ record session.old { round = session.new.round } }
    ensures later { In.faults input.old ≤ In.faults input.new }
    ensures read { result ≡ AuditEnd.Read → Rose (In.faults input.old) (In.faults input.new) }
{
    let header = u64::from(header_lines(session.net()));
    let mut arrivals = ArrayVec::new();
    loop {
        let _ = session.round();
        let period = session.state().period();
        let line = header + period + 1;
        match take_next(session, input, cutter, &mut arrivals, wanted, small) {
            Logged::Period => {}
            Logged::End => return finish_audit(input, cutter, period, line + 1),
            Logged::Other => return AuditEnd::Differs { line },
            Logged::Failed => return AuditEnd::Read,
        }
    }
}

/// Compares the input with the log of a run of this session over permitted arrivals, which are those that the lines of
/// the periods give: the header of the session's slack and bounds, a line per period with the stages that the junctions
/// decide and the queues after it, and the end line. Each junction hears a link anew only when the report that it has
/// would be too old, as in a stream without hearings and decisions.
///
/// `Done` comes exactly where the input is such a log as a whole, of at most 2^48 periods. `Differs` names the first line
/// that is not the log's: also a line of more than 16,384 bytes, one that gives arrivals above a bucket, one behind the
/// end line, and the missing one behind the last. `Read` comes only with a fault of the source.
///
/// The session is one that was just opened, and it keeps its network, slack and bounds. The audit takes no memory, and
/// reads the input once.
pub fn audit<In: Source>(session: &mut Session, input: &mut In) -> AuditEnd
    requires start { core_of session.old.round ≡ core_opening session.old.net }
    requires taken { HasTaken session.old.net session.old.round.standing [] }
    ensures ends { AuditsAs session.old.net (numerator session.old.slack) (denominator session.old.slack) (naturals session.old.bounds) result (In.left input.old) (In.left input.new) }
    ensures same { session.new ≡ record session.old { round = session.new.round } }
    ensures in_later { In.faults input.old ≤ In.faults input.new }
    ensures read { result ≡ AuditEnd.Read → Rose (In.faults input.old) (In.faults input.new) }
{
    let mut cutter = LineCutter::<LOG_LINE_SIZE>::new();
    let mut wanted = LineSink::new();
    if let Some(end) = audit_header(session, input, &mut cutter, &mut wanted) {
        return end;
    }
    let small = SmallNumbers::new();
    audit_periods(session, input, &mut cutter, &mut wanted, &small)
}
