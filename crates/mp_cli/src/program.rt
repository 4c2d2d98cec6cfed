//! The top call.
ghost use Rattle.std.specs.Prelude.{◌≡◌, ◌⊎◌, ◌↔◌, map, string_bytes};
ghost use Rattle.mp_edge.specs.Outside.{Rose};
ghost use Rattle.mp_cli.specs.Commands.{asked, command_of, HasRanges, Unknown};
ghost use Rattle.mp_cli.specs.Complete.{IsGood, IsExcessive};
ghost use Rattle.mp_cli.specs.Ends.{Means, IsEnd};
ghost use Rattle.mp_cli.specs.Headline.{Does, OfNetwork, KeepsPromise};
ghost use Rattle.mp_cli.specs.Statuses.{status_of};

use crate::auditing::audit;
use crate::auditing_guard::audit_guard;
use crate::auditing_with::audit_with;
use crate::certifying::certify;
use crate::checking::check;
use crate::command::{Command, command_of};
use crate::controlling::control;
use crate::controlling_guard::control_guard;
use crate::demonstrating::demo;
use crate::framing::frames;
use crate::guarding::guard;
use crate::message::put_message;
use crate::outcome::{Outcome, status_of};
use crate::overloading::overload;
use crate::planning::plan;
use crate::refuting::refute;
use crate::running::run;
use crate::running_guard::run_guard;
use crate::running_with::run_with;
use crate::scaling::scale;
use crate::showing::show;
use mp_edge::{Sink, Source, Store};
use std::alloc::Global;

// Does what the command asks for.
fn obey<St: Store, In: Source, Out: Sink>(
    alloc: Global,
    command: Command<'_>,
    store: &mut St,
    input: &mut In,
    out: &mut Out,
) -> Outcome
    requires { HasRanges (asked command) }
    ensures means { Means (asked command.entry) result (record { files = St.files store.old; input_before = In.left input.old; input_after = In.left input.new; output_before = Out.held out.old; output_after = Out.held out.new }) }
    ensures store { status_of result ≡ 2 → Rose (St.faults store.old) (St.faults store.new) }
    ensures read { status_of result ≡ 10 → Rose (In.faults input.old) (In.faults input.new) }
    ensures write { status_of result ≡ 11 → Rose (Out.faults out.old) (Out.faults out.new) }
{
    match command {
        Command::Run { net } => run(alloc, net, store, input, out),
        Command::RunWith { net, cert } => run_with(alloc, net, cert, store, input, out),
        Command::Show { net } => show(alloc, net, store, out),
        Command::Certify { net } => certify(alloc, net, store, out),
        Command::Check { net, cert } => check(alloc, net, cert, store, out),
        Command::Refute { net, vector } => refute(alloc, net, vector, store, out),
        Command::Audit { net } => audit(alloc, net, store, input, out),
        Command::AuditWith { net, cert } => audit_with(alloc, net, cert, store, input, out),
        Command::Control { net } => control(alloc, net, store, input, out),
        Command::Demo(n) => demo(alloc, n, out),
        Command::Scale { net, d } => scale(alloc, net, d, store, out),
        Command::Overload { net } => overload(alloc, net, store, out),
        Command::Frames { net, f } => frames(alloc, net, f, store, input, out),
        Command::Plan { net, c } => plan(alloc, net, c, store, input, out),
        Command::Guard {
            net,
            cycle,
            lost,
            d,
        } => guard(alloc, net, cycle, lost, d, store, out),
        Command::ControlGuard { net, guard } => {
            control_guard(alloc, net, guard, store, input, out)
        }
        Command::RunGuard { net, guard } => run_guard(alloc, net, guard, store, input, out),
        Command::AuditGuard { net, guard } => audit_guard(alloc, net, guard, store, input, out),
        Command::Unknown => Outcome::Words,
    }
}

/// The whole program: does what the words ask for, and answers the status to end with.
///
/// `run NET` certifies the network and writes the log of the run of the stream on `input`, whose header
/// has the greatest slack and a bound for every queue; `runwith NET CERT` takes the slack of a
/// certificate; `show NET` writes the network as a file; `certify NET` writes the certificate of the
/// greatest slack; `check NET CERT` writes the slack of a certificate that holds; `refute NET VECTOR`
/// writes the load and the capacity of a vector that speaks against the network; `audit NET` writes the
/// number of periods of the log on `input`, where it is a whole one; `auditwith NET CERT` takes the slack
/// of a certificate; `control NET` answers each line of counts on `input` with the stages of greatest
/// pressure at these, and seeks no certificate; `demo N` writes the summary of a long run on a network of
/// its own; `scale NET D` writes the greatest certificate over a denominator; `overload NET` writes how
/// fast the queues of an overloaded network grow, whatever its junctions show; `frames NET F` runs the
/// stream by frames of F periods, with the greatest slack of the frame network and the bounds of frames;
/// `plan NET C` runs it by a cyclic plan of C periods, with the bounds of the plan; `guard NET C L D` writes
/// a guard with a cycle of C periods, a change of stage that loses L, and the denominator D, whose rates are
/// the least; `controlguard NET GUARD` answers each line of counts on `input` with the stages under a guard;
/// `runguard NET GUARD` runs the stream under it; `auditguard NET GUARD` writes the number of periods of the log
/// on `input`, where it is a whole one under the guard.
///
/// Every status but 0 has its line on `err`, whose faults are ignored: 1 for words that are not listed,
/// 2 for a fault of the store, 3 for the first rule that the network file breaks and for another file
/// that is longer than 1,048,576 bytes, or for its first line that is not in its grammar, 4 for a network
/// that is critical, so that its rates are carried and no certificate holds, or overloaded, with the
/// vector that shows it, for the first rule that a certificate breaks, for a vector that shows nothing,
/// where no certificate has the denominator, and for a network that is admitted where only an overloaded
/// one serves, 5 for a calculation that exceeds 128 bits or a bound
/// without room, 6 for the limit of turns at a junction, 7 for the first line of the input that is too
/// long or not in the grammar, 8 for the first period of the stream in which some link does not keep to
/// its bucket, 9 for more than 2^48 lines, 10 for a fault of the input, 11 for one of the output, 12 where
/// memory ran out, which comes before the first byte is put, 13 for the first line that differs from a
/// log, 14 for the first line of the stream by which a junction hears a link that it does not feed or decides without
/// a copy that is young enough, 15 for the limit of sweeps, 16 for the least link on which even arrivals are not permitted, 17 for
/// the least link on a cycle of movements and for the first junction whose greens don't fit into the cycle
/// of a plan, 18 for a rate length or the least link with a rate that no frame network has, and 19 where no
/// guard has the denominator, or for the first junction whose greens don't fit into the cycle of a guard.
///
/// Refusals come in the order of the layers: the network file, the frame network, the other file, the plan
/// or the verdict, the check of the certificate, its bounds, and then the input and the output, which no
/// refusal before touches. Each layer says both ways whether it refuses: a stream is run, and a log read,
/// only on a network whose verdict, check and bounds, or whose plan, exceed nothing.
pub fn top<St: Store, In: Source, Out: Sink, Er: Sink>(
    alloc: Global,
    words: &[String],
    store: &mut St,
    input: &mut In,
    out: &mut Out,
    err: &mut Er,
) -> u8
    // What the status says of the words, the files, the input and both outputs.
    ensures ends { IsEnd result (map string_bytes words.now) (record { files = St.files store.old; input_before = In.left input.old; input_after = In.left input.new; output_before = Out.held out.old; output_after = Out.held out.new })
        (record { before = Er.held err.old; after = Er.held err.new; faults_before = Er.faults err.old; faults_after = Er.faults err.new }) }

    // The headline: the whole log of the stream's run, or what else the words ask for, and nothing else;
    // and what is so of every run on the network, and of its slack.
    ensures done { result ≡ 0 → Does (command_of (map string_bytes words.now)) (record { files = St.files store.old; input_before = In.left input.old; input_after = In.left input.new; output_before = Out.held out.old; output_after = Out.held out.new }) }
    ensures promised { result ≡ 0 → OfNetwork (command_of (map string_bytes words.now)) (record { files = St.files store.old; input_before = In.left input.old; input_after = In.left input.new; output_before = Out.held out.old; output_after = Out.held out.new }) KeepsPromise }
    ensures quiet { result ≡ 0 → err.new ≡ err.old }

    // Causes by the words and by the counts of faults.
    ensures words { (result ≡ 1) ↔ (command_of (map string_bytes words.now) ≡ Unknown) }
    ensures store { result ≡ 2 → Rose (St.faults store.old) (St.faults store.new) }
    ensures read { result ≡ 10 → Rose (In.faults input.old) (In.faults input.new) }
    ensures write { result ≡ 11 → Rose (Out.faults out.old) (Out.faults out.new) }

    // Where nothing is wrong with what was given or outside, all is done, or memory ran out.
    ensures complete { IsGood (command_of (map string_bytes words.now)) (St.files store.old) (In.left input.old) →
        ¬ Rose (St.faults store.old) (St.faults store.new) → ¬ Rose (In.faults input.old) (In.faults input.new) → ¬ Rose (Out.faults out.old) (Out.faults out.new) →
        (result ≡ 0) ⊎ (result ≡ 12) }

    // Where nothing is wrong but that the stream is above a bucket, it is refused as that.
    ensures excessive { IsExcessive (command_of (map string_bytes words.now)) (St.files store.old) (In.left input.old) →
        ¬ Rose (St.faults store.old) (St.faults store.new) → ¬ Rose (In.faults input.old) (In.faults input.new) → ¬ Rose (Out.faults out.old) (Out.faults out.new) →
        (result ≡ 8) ⊎ (result ≡ 12) }
{
    let command = command_of(words);
    let outcome = obey(alloc, command, store, input, out);
    let status = status_of(&outcome);
    if status == 0 {
        return 0;
    }
    let _ = put_message(err, command, &outcome);
    status
}
