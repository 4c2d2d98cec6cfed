//! The line on the error output.
ghost use Rattle.std.specs.Prelude.{◌≡◌, ◌≤◌, ◌+◌, ◌++◌, ◌∷◌, [], length, codes, decimal};
ghost use Rattle.mp_edge.specs.Outside.{Tells, Puts, HasCause};
ghost use Rattle.mp_cli.specs.Commands.{asked};
ghost use Rattle.mp_cli.specs.Messages.{rule_number, spot_text, kind_text, cert_rule_text, guard_rule_text, place_text, run_words, event_words, message_of, words_of, vector_behind};
ghost use Rattle.mp_cli.specs.Statuses.{status_of};

use crate::command::{Command, file_of};
use crate::outcome::{CertRule, Outcome, TextKind};
use itoa::Integer;
use mp_cert::print_against;
use mp_edge::{Failed, Sink};
use mp_flow::Place;
use mp_guard::GuardFault;
use mp_log::{push_number, push_text};
use mp_net::{JunctionNo, LinkNo, NetRule, Section, Spot};
use mp_run::RunEnd;
use mp_text::LineSink;

// The number of a rule, as the line prints it.
fn rule_number(rule: NetRule) -> u8
    ensures { result ≡ rule_number rule }
{
    match rule {
        NetRule::TooLong => 0,
        NetRule::BadToml => 1,
        NetRule::UnknownKey => 2,
        NetRule::MissingKey => 3,
        NetRule::BadVersion => 4,
        NetRule::BadNumber => 5,
        NetRule::BadName => 6,
        NetRule::Repeated => 7,
        NetRule::UnknownLink => 8,
        NetRule::BadShares => 9,
        NetRule::BadStage => 10,
        NetRule::Unserved => 11,
        NetRule::NoMovement => 12,
        NetRule::NoFedLink => 13,
        NetRule::NoWayOut => 14,
    }
}

// Appends the section of a spot, and the number in it.
fn push_spot(line: &mut LineSink, spot: Spot)
    requires { length line.old.held ≤ 200 }
    ensures held { line.new.held ≡ line.old.held ++ spot_text spot }
    ensures few { length line.new.held ≤ length line.old.held + 50 }
{
    match spot.section {
        Section::Top => {
            push_text(line, b" top");
            return;
        }
        Section::Link => push_text(line, b" link "),
        Section::Movement => push_text(line, b" movement "),
        Section::Junction => push_text(line, b" junction "),
    }
    push_number(line, spot.number);
}

// Appends what the text of the other file is to be.
fn push_kind(line: &mut LineSink, kind: TextKind)
    requires { length line.old.held ≤ 200 }
    ensures held { line.new.held ≡ line.old.held ++ kind_text kind }
    ensures few { length line.new.held ≤ length line.old.held + 50 }
{
    match kind {
        TextKind::Certificate => push_text(line, b"certificate text "),
        TextKind::Vector => push_text(line, b"vector text "),
        TextKind::Guard => push_text(line, b"guard text "),
    }
}

// Appends a rule of a certificate, and its numbers.
fn push_cert_rule(line: &mut LineSink, rule: CertRule)
    requires { length line.old.held ≤ 200 }
    ensures held { line.new.held ≡ line.old.held ++ cert_rule_text rule }
    ensures few { length line.new.held ≤ length line.old.held + 120 }
{
    match rule {
        CertRule::D => push_text(line, b"d"),
        CertRule::E => push_text(line, b"e"),
        CertRule::H(k) => push_numbered(line, b"h ", k),
        CertRule::Whole(j) => push_numbered(line, b"whole ", j),
        CertRule::Part(j, s) => {
            push_numbered(line, b"part ", j);
            push_numbered(line, b" ", s);
        }
        CertRule::Mass(j) => push_numbered(line, b"mass ", j),
        CertRule::Serve(k) => push_numbered(line, b"serve ", k),
        CertRule::Balance(k) => push_numbered(line, b"balance ", k),
    }
}

// Appends a rule of a guard, and its numbers.
fn push_guard_rule(line: &mut LineSink, rule: GuardFault)
    requires { length line.old.held ≤ 200 }
    ensures held { line.new.held ≡ line.old.held ++ guard_rule_text rule }
    ensures few { length line.new.held ≤ length line.old.held + 120 }
{
    match rule {
        GuardFault::Cycle => push_text(line, b"cycle"),
        GuardFault::Lost => push_text(line, b"lost"),
        GuardFault::D => push_text(line, b"d"),
        GuardFault::H(k) => push_numbered(line, b"h ", k),
        GuardFault::Green(j, s) => {
            push_numbered(line, b"green ", j);
            push_numbered(line, b" ", s);
        }
        GuardFault::Mass(j) => push_numbered(line, b"mass ", j),
        GuardFault::Balance(k) => push_numbered(line, b"balance ", k),
        GuardFault::Serve(k) => push_numbered(line, b"serve ", k),
    }
}

// Appends a word and a number.
fn push_numbered<I: Integer>(line: &mut LineSink, word: &[u8], number: I)
    requires { (length line.old.held ≤ 300) × (length word.now ≤ 20) }
    ensures held { line.new.held ≡ line.old.held ++ (word.now ++ I.text number) }
    ensures few { length line.new.held ≤ length line.old.held + 60 }
{
    push_text(line, word);
    push_number(line, number);
}

// Appends the place of a calculation.
fn push_place(line: &mut LineSink, place: Place)
    requires { length line.old.held ≤ 200 }
    ensures held { line.new.held ≡ line.old.held ++ place_text place }
    ensures few { length line.new.held ≤ length line.old.held + 60 }
{
    match place {
        Place::Flow => push_text(line, b"flow"),
        Place::Game(j) => push_numbered(line, b"game ", j),
        Place::Adjoint => push_text(line, b"adjoint"),
        Place::Vector => push_text(line, b"vector"),
        Place::Mix(j) => push_numbered(line, b"mix ", j),
        Place::Certificate => push_text(line, b"certificate"),
        Place::Bound => push_text(line, b"bound"),
        Place::Room => push_text(line, b"room"),
    }
}

// Appends `line`, and the number of a line.
fn push_line(line: &mut LineSink, number: u64)
    requires { length line.old.held ≤ 200 }
    ensures held { line.new.held ≡ line.old.held ++ (codes "line " ++ decimal number) }
    ensures few { length line.new.held ≤ length line.old.held + 50 }
{
    push_text(line, b"line ");
    push_number(line, number);
}

// Appends the words of a run's end, and nothing where it was done.
fn push_end(line: &mut LineSink, end: RunEnd)
    requires { length line.old.held ≤ 100 }
    ensures held { line.new.held ≡ line.old.held ++ run_words end }
    ensures few { length line.new.held ≤ length line.old.held + 200 }
{
    match end {
        RunEnd::Done => {}
        RunEnd::Long { line: number } => {
            push_line(line, number);
            push_text(line, b" long");
        }
        RunEnd::Grammar { line: number } => {
            push_line(line, number);
            push_text(line, b" grammar");
        }
        RunEnd::Above {
            line: number,
            period,
            link,
        } => {
            push_line(line, number);
            push_numbered(line, b" above period ", period);
            push_numbered(line, b" link ", link);
        }
        RunEnd::LineLimit => push_text(line, b"lines"),
        RunEnd::Read => push_text(line, b"read"),
        RunEnd::Write => push_text(line, b"write"),
    }
}

// Appends the words of an event that is refused at a line.
fn push_event(line: &mut LineSink, number: u64, word: &[u8], junction: JunctionNo, link: LinkNo)
    requires { (length line.old.held ≤ 100) × (length word.now ≤ 20) }
    ensures held { line.new.held ≡ line.old.held ++ event_words number word.now junction link }
    ensures few { length line.new.held ≤ length line.old.held + 200 }
{
    push_line(line, number);
    push_text(line, b" event ");
    push_text(line, word);
    push_numbered(line, b" junction ", junction);
    push_numbered(line, b" link ", link);
}

// Makes the line of an outcome that has one and is no fault of the store, but for its line feed.
fn push_message(line: &mut LineSink, outcome: &Outcome)
    requires { line.old.held ≡ [] }
    ensures held { line.new.held ≡ words_of outcome.now }
    ensures few { length line.new.held ≤ 300 }
{
    match outcome {
        Outcome::Done | Outcome::Store(_) => {}
        Outcome::Words => push_text(line, b"words"),
        Outcome::Network { rule, spot } => {
            push_text(line, b"network N");
            push_number(line, rule_number(*rule));
            push_spot(line, *spot);
        }
        Outcome::LongText(kind) => {
            push_kind(line, *kind);
            push_text(line, b"long");
        }
        Outcome::Text { kind, line: number } => {
            push_kind(line, *kind);
            push_line(line, *number);
        }
        Outcome::Admitted => push_text(line, b"network admitted"),
        Outcome::Critical(_) => push_text(line, b"network critical"),
        Outcome::Overloaded(_) => push_text(line, b"network overloaded"),
        Outcome::Certificate(rule) => {
            push_text(line, b"certificate fails ");
            push_cert_rule(line, *rule);
        }
        Outcome::BrokenGuard(rule) => {
            push_text(line, b"guard fails ");
            push_guard_rule(line, *rule);
        }
        Outcome::ZeroVector => push_text(line, b"vector fails zero"),
        Outcome::WeakVector => push_text(line, b"vector fails weak"),
        Outcome::NoCertificate => push_text(line, b"scale none"),
        Outcome::Overflow(place) => {
            push_text(line, b"overflow ");
            push_place(line, *place);
        }
        Outcome::GrowthOverflow => push_text(line, b"overflow growth"),
        Outcome::PivotLimit(j) => push_numbered(line, b"pivots ", *j),
        Outcome::SweepLimit(e) => push_numbered(line, b"sweeps ", *e),
        Outcome::Uneven(l) => push_numbered(line, b"uneven link ", *l),
        Outcome::LongFrames => push_text(line, b"frames per"),
        Outcome::FastFrames(l) => push_numbered(line, b"frames rate ", *l),
        Outcome::CyclicPlan(l) => push_numbered(line, b"plan cycle link ", *l),
        Outcome::FullPlan(j) => push_numbered(line, b"plan full junction ", *j),
        Outcome::PlanOverflow => push_text(line, b"overflow plan"),
        Outcome::NoGuard => push_text(line, b"guard none"),
        Outcome::FullGuard(j) => push_numbered(line, b"guard full ", *j),
        Outcome::BurstLimit => push_text(line, b"sweeps bound"),
        Outcome::Run(end) => push_end(line, *end),
        Outcome::Stale {
            line: number,
            junction,
            link,
        } => push_event(line, *number, b"stale", *junction, *link),
        Outcome::NotAdjacent {
            line: number,
            junction,
            link,
        } => push_event(line, *number, b"notadjacent", *junction, *link),
        Outcome::Differs { line: number } => {
            push_text(line, b"log differs ");
            push_line(line, *number);
        }
        Outcome::Read => push_text(line, b"read"),
        Outcome::Write => push_text(line, b"write"),
        Outcome::NoMemory => push_text(line, b"memory"),
    }
}

// Puts the line of a fault of the store, which names the file.
fn put_store<Er: Sink>(err: &mut Er, name: &str) -> Result<(), Failed>
    ensures bytes { Tells (Er.held err.old) (Er.held err.new) (Puts result (codes "store " ++ (name.now ++ 10 ∷ []))) }
    ensures cause { HasCause (Er.faults err.old) (Er.faults err.new) result }
{
    err.put(b"store ")?;
    err.put(name.as_bytes())?;
    err.put(b"\n")
}

// Puts the vector that shows a critical or overloaded network.
fn put_vector<Er: Sink>(err: &mut Er, outcome: &Outcome) -> Result<(), Failed>
    ensures bytes { Tells (Er.held err.old) (Er.held err.new) (Puts result (vector_behind outcome.now)) }
    ensures cause { HasCause (Er.faults err.old) (Er.faults err.new) result }
{
    match outcome {
        Outcome::Critical(against) | Outcome::Overloaded(against) => print_against(err, against),
        _ => Ok(()),
    }
}

/// Puts what is reported of an outcome that is no success: its line, where a fault of the store names the
/// file, and the vector that shows a critical or overloaded network.
pub fn put_message<Er: Sink>(
    err: &mut Er,
    command: Command<'_>,
    outcome: &Outcome,
) -> Result<(), Failed>
    requires { ¬ (status_of outcome.now ≡ 0) }
    ensures bytes { Tells (Er.held err.old) (Er.held err.new) (Puts result (message_of (asked command.entry) outcome.now)) }
    ensures cause { HasCause (Er.faults err.old) (Er.faults err.new) result }
{
    if let Outcome::Store(role) = outcome {
        return put_store(err, file_of(command, *role));
    }
    let mut line = LineSink::new();
    push_message(&mut line, outcome);
    push_text(&mut line, b"\n");
    err.put(line.bytes())?;
    put_vector(err, outcome)
}
