//! A vector against a network.
ghost use Rattle.std.specs.Prelude.{◌≡◌, ◌≤◌, ◌↔◌, ℕ, List, Option, IsTrue, length, unsigned_abs, int_lt};
ghost use Rattle.mp_edge.specs.Outside.{Rose, Tells, Puts, HasCause};
ghost use Rattle.mp_cli.specs.Outcomes.{word_of};
ghost use Rattle.mp_cli.specs.Refuting.{sums_line, IsZero, Refutes};
ghost use Rattle.mp_cli.specs.Statuses.{status_of};

use crate::opening::{open_net, open_vector};
use crate::outcome::Outcome;
use mp_cert::{Weighed, weigh};
use mp_edge::{Failed, Sink, Store};
use mp_flow::Place;
use mp_log::{push_number, push_text};
use mp_text::LineSink;
use std::alloc::Global;

// Puts the line of a word and the two sums of a vector.
fn put_sums<Out: Sink>(out: &mut Out, word: &[u8], sums: Weighed) -> Result<(), Failed>
    requires { length word.now ≤ 100 }
    ensures bytes { Tells (Out.held out.old) (Out.held out.new) (Puts result (sums_line word.now (unsigned_abs sums.load) (unsigned_abs sums.served))) }
    ensures cause { HasCause (Out.faults out.old) (Out.faults out.new) result }
{
    let mut line = LineSink::new();
    push_text(&mut line, word);
    push_text(&mut line, b" load ");
    push_number(&mut line, sums.load.unsigned_abs());
    push_text(&mut line, b" cap ");
    push_number(&mut line, sums.served.unsigned_abs());
    push_text(&mut line, b"\n");
    out.put(line.bytes())
}

// Puts what the two sums of a vector show.
fn put_verdict<Out: Sink>(out: &mut Out, sums: Weighed) -> Result<(), Failed>
    ensures bytes { Tells (Out.held out.old) (Out.held out.new) (Puts result (sums_line (word_of sums) (unsigned_abs sums.load) (unsigned_abs sums.served))) }
    ensures cause { HasCause (Out.faults out.old) (Out.faults out.new) result }
{
    if sums.load > sums.served {
        put_sums(out, b"overloaded", sums)
    } else {
        put_sums(out, b"tight", sums)
    }
}

// All numbers are 0.
fn is_zero(p: &[i128]) -> bool
    ensures { IsTrue result ↔ IsZero p.now }
{
    p.iter().all(|n| *n == 0)
}

// The load is below what is served.
fn is_weak(sums: Weighed) -> bool
    ensures { result ≡ int_lt sums.load sums.served }
{
    sums.load < sums.served
}

/// Weighs the vector in the other file, and writes its two sums.
pub fn refute<St: Store, Out: Sink>(
    alloc: Global,
    name: &str,
    other: &str,
    store: &mut St,
    out: &mut Out,
) -> Outcome
    ensures means { (left : Option (List ℕ)) → Refutes result name.now other.now (record { files = St.files store.old; input_before = left; input_after = left; output_before = Out.held out.old; output_after = Out.held out.new }) }
    ensures store { status_of result ≡ 2 → Rose (St.faults store.old) (St.faults store.new) }
    ensures write { status_of result ≡ 11 → Rose (Out.faults out.old) (Out.faults out.new) }
    ensures unread { ¬ (status_of result ≡ 10) }
{
    let net = match open_net(alloc, name, store) {
        Ok(net) => net,
        Err(outcome) => return outcome,
    };
    let against = match open_vector(alloc, &net, other, store) {
        Ok(against) => against,
        Err(outcome) => return outcome,
    };
    if is_zero(against.p.as_slice()) {
        return Outcome::ZeroVector;
    }
    // A network's share total comes with what its rules say.
    let _ = net.shares();
    let Ok(sums) = weigh(&net, &against) else {
        return Outcome::Overflow(Place::Vector);
    };
    if is_weak(sums) {
        return Outcome::WeakVector;
    }
    match put_verdict(out, sums) {
        Ok(()) => Outcome::Done,
        Err(Failed) => Outcome::Write,
    }
}
