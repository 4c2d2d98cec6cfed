//! The controller under a guard, line by line.
ghost use Rattle.std.specs.Prelude.{◌≡◌, ◌≤◌, ◌<◌, ◌+◌, ◌++◌, ◌∷◌, [], length};
ghost use Rattle.mp_edge.specs.Outside.{Rose, Tells, Puts, HasCause};
ghost use Rattle.mp_guard_control.specs.Accounts.{accounts_by, accounts_next, answer_by, guarded_controller};
ghost use Rattle.mp_guard_control.specs.Driving.{EndsAs, OfLine, Answers, Takes, Finishes};
ghost use Rattle.mp_guard_control.specs.Kept.{CountsKeepWaits, StagesKeep};
ghost use Rattle.mp_control.specs.Input.{AreSmall};
ghost use Rattle.mp_guard_run.specs.Accounts.{AreInOrder};
ghost use Rattle.mp_model.specs.ControlLog.{plain_line};
ghost use Rattle.mp_model.specs.Guard.{Guards};
ghost use Rattle.mp_model.specs.GuardedChoice.{guarded_opening};
ghost use Rattle.mp_model.specs.Network.{entry};
ghost use Rattle.mp_model.specs.declared.limits.TheConstants.{MOST_LINES};
ghost use Rattle.mp_press.specs.Queues.{naturals};
ghost use Rattle.mp_text.specs.Cutting.{NoLineFeed};

use crate::law::{controlled_law, counted_wait_law};
use arrayvec::ArrayVec;
use mp_control::{ControlEnd, InputKind, put_answer, put_end, read_input};
use mp_edge::{Failed, Sink, Source};
use mp_guard::Guard;
use mp_guard_run::Owed;
use mp_model::limits::{MOST_LINES, MOST_LOG_LINE_BYTES};
use mp_net::{Net, StageNo};
use mp_text::{LineCutter, LineSink, LineStep, SmallNumbers, put_text};

/// The size of a buffer for lines of the input, each with its line feed.
const INPUT_LINE_SIZE: usize = MOST_LOG_LINE_BYTES + 1;

// What came of the next line.
enum Answered {
    // It has no counts, and no answer.
    Skipped,
    // The whole answer to its counts was put.
    Put,
    // It is not in the grammar.
    Bad,
    TooLong,
    // No line is left.
    End,
    // The source met a fault.
    Unread,
    // The sink met a fault.
    Unwritten,
}

// Buffers and a table that serve one line after another.
#[derive(Drop)]
struct Buffers {
    counts: ArrayVec<i128, 512>,
    stages: ArrayVec<StageNo, 64>,
    text: LineSink,
    small: SmallNumbers,
}

impl Buffers {
    fn new() -> Buffers {
        Buffers {
            counts: ArrayVec::new(),
            stages: ArrayVec::new(),
            text: LineSink::new(),
            small: SmallNumbers::new(),
        }
    }
}

// Takes the stages of the period by the counts in the buffer, pays it, and puts the answer.
fn answer_counts<Out: Sink>(
    net: &Net,
    guard: &Guard,
    owed: &mut Owed,
    period: u64,
    buffers: &mut Buffers,
    out: &mut Out,
) -> Result<(), Failed>
    requires guards { Guards net.now guard.now }
    requires period { period < MOST_LINES }
    requires order { AreInOrder net.now guard.now period owed.old }
    requires small { AreSmall buffers.old.counts.items }
    requires count { length buffers.old.counts.items ≡ length net.now.movements }
    ensures bytes { Tells (Out.held out.old) (Out.held out.new) (Puts result (answer_by net.now guard.now period owed.old (naturals buffers.old.counts.items) ++ 10 ∷ [])) }
    ensures cause { HasCause (Out.faults out.old) (Out.faults out.new) result }
    ensures paid { owed.new ≡ accounts_next net.now guard.now (entry (naturals buffers.old.counts.items)) period owed.old }
{
    let _ = net.shares();
    owed.choose(net, guard, &buffers.counts, period, &mut buffers.stages);
    owed.pay(net, guard, &buffers.counts, period, &buffers.stages);
    put_answer(
        &mut buffers.text,
        &buffers.small,
        out,
        period + 1,
        &buffers.counts,
        &buffers.stages,
    )
}

// Takes a line: one of counts is a period, which is answered.
fn answer_line<Out: Sink>(
    net: &Net,
    guard: &Guard,
    owed: &mut Owed,
    line: &[u8],
    period: u64,
    buffers: &mut Buffers,
    out: &mut Out,
) -> Answered
    requires guards { Guards net.now guard.now }
    requires period { period < MOST_LINES }
    requires order { AreInOrder net.now guard.now period owed.old }
    ensures answers { Answers (answer_by net.now guard.now period owed.old) result (plain_line net.now line.now) (Out.held out.old) (Out.held out.new) }
    ensures of_line { OfLine result }
    ensures paid { owed.new ≡ accounts_by net.now guard.now period owed.old (plain_line net.now line.now) }
    ensures later { Out.faults out.old ≤ Out.faults out.new }
    ensures write { result ≡ Answered.Unwritten → Rose (Out.faults out.old) (Out.faults out.new) }
{
    match read_input(net, line, &mut buffers.counts) {
        InputKind::Skipped => Answered::Skipped,
        InputKind::Bad => Answered::Bad,
        InputKind::Counts => match answer_counts(net, guard, owed, period, buffers, out) {
            Ok(()) => Answered::Put,
            Err(Failed) => Answered::Unwritten,
        },
    }
}

// Takes the next line off the input, and puts the answer to its counts before it is done with that line.
fn answer_next<In: Source, Out: Sink>(
    net: &Net,
    guard: &Guard,
    owed: &mut Owed,
    cutter: &mut LineCutter<INPUT_LINE_SIZE>,
    period: u64,
    buffers: &mut Buffers,
    input: &mut In,
    out: &mut Out,
) -> Answered
    requires guards { Guards net.now guard.now }
    requires period { period < MOST_LINES }
    requires order { AreInOrder net.now guard.now period owed.old }
    ensures takes { Tells (In.left input.old) (In.left input.new) (Takes result cutter.old cutter.new) }
    ensures answers { Answers (answer_by net.now guard.now period owed.old) result (plain_line net.now cutter.new.line) (Out.held out.old) (Out.held out.new) }
    ensures paid { OfLine result → owed.new ≡ accounts_by net.now guard.now period owed.old (plain_line net.now cutter.new.line) }
    ensures unasked { (¬ NoLineFeed cutter.old.held) → input.new ≡ input.old }
    ensures in_later { In.faults input.old ≤ In.faults input.new }
    ensures out_later { Out.faults out.old ≤ Out.faults out.new }
    ensures read { result ≡ Answered.Unread → Rose (In.faults input.old) (In.faults input.new) }
    ensures write { result ≡ Answered.Unwritten → Rose (Out.faults out.old) (Out.faults out.new) }
{
    match cutter.next(input) {
        LineStep::Line => answer_line(net, guard, owed, cutter.line(), period, buffers, out),
        LineStep::TooLong => Answered::TooLong,
        LineStep::End => Answered::End,
        LineStep::Failed => Answered::Unread,
    }
}

// Puts the end line.
fn finish<Out: Sink>(out: &mut Out, answers: u64) -> ControlEnd
    ensures finishes { Finishes result answers (Out.held out.old) (Out.held out.new) }
    ensures later { Out.faults out.old ≤ Out.faults out.new }
    ensures write { result ≡ ControlEnd.Write → Rose (Out.faults out.old) (Out.faults out.new) }
{
    match put_end(out, answers) {
        Ok(()) => ControlEnd::Done,
        Err(Failed) => ControlEnd::Write,
    }
}

/// Puts the header, and then reads the input to its end: each line of counts is a period, and is answered with the stages
/// that the junctions take by these counts and by what their stages are owed. An answer is put before the next line is
/// asked for, so that whoever counts can wait for it; at the end of the input comes the end line.
///
/// The accounts are those of the opening, and are kept from one line to the next; a line that is skipped is no period.
/// The counts may be wrong: so long as a count of 0 is true, no queue is above its bound; and whatever is counted, no
/// movement of which somebody is counted is without green longer than its wait. It takes no memory.
pub fn control_guarded<In: Source, Out: Sink>(
    net: &Net,
    guard: &Guard,
    header: &[u8],
    owed: &mut Owed,
    input: &mut In,
    out: &mut Out,
) -> ControlEnd
    requires guards { Guards net.now guard.now }
    requires opening { owed.old ≡ (guarded_opening net.now guard.now).accounts }
    ensures ends { EndsAs net.now (guarded_controller net.now guard.now header.now) result (In.left input.old) (In.left input.new) (Out.held out.old) (Out.held out.new) }
    ensures kept { StagesKeep net.now guard.now }
    ensures waits { CountsKeepWaits net.now guard.now }
    ensures in_later { In.faults input.old ≤ In.faults input.new }
    ensures out_later { Out.faults out.old ≤ Out.faults out.new }
    ensures read { result ≡ ControlEnd.Read → Rose (In.faults input.old) (In.faults input.new) }
    ensures write { result ≡ ControlEnd.Write → Rose (Out.faults out.old) (Out.faults out.new) }
{
    controlled_law();
    counted_wait_law();
    let _ = net.shares();
    if put_text(out, header).is_err() {
        return ControlEnd::Write;
    }
    let mut cutter = LineCutter::<INPUT_LINE_SIZE>::new();
    let mut buffers = Buffers::new();
    let mut answers = 0u64;
    for turn in 0..MOST_LINES {
        match answer_next(
            net,
            guard,
            owed,
            &mut cutter,
            answers,
            &mut buffers,
            input,
            out,
        ) {
            Answered::Skipped => {}
            Answered::Put => answers += 1,
            Answered::Bad => return ControlEnd::Grammar { line: turn + 1 },
            Answered::TooLong => return ControlEnd::Long { line: turn + 1 },
            Answered::End => return finish(out, answers),
            Answered::Unread => return ControlEnd::Read,
            Answered::Unwritten => return ControlEnd::Write,
        }
    }
    match cutter.next(input) {
        LineStep::End => finish(out, answers),
        LineStep::Failed => ControlEnd::Read,
        LineStep::Line | LineStep::TooLong => ControlEnd::LineLimit,
    }
}
