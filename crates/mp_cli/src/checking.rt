//! The check of a certificate.
ghost use Rattle.std.specs.Prelude.{◌≡◌, ℕ, List, Option, unsigned_abs};
ghost use Rattle.mp_edge.specs.Outside.{Rose, Tells, Puts, HasCause};
ghost use Rattle.mp_cli.specs.Checking.{accepted_line, Checks};
ghost use Rattle.mp_cli.specs.Statuses.{status_of};

use crate::opening::{open_cert, open_net};
use crate::outcome::Outcome;
use crate::session::outcome_of_fault;
use mp_cert::slack;
use mp_edge::{Failed, Sink, Store};
use mp_log::{push_number, push_text};
use mp_num::Frac;
use mp_text::LineSink;
use std::alloc::Global;

// Puts the line of a certificate that holds, with its slack.
fn put_accepted<Out: Sink>(out: &mut Out, slack: &Frac) -> Result<(), Failed>
    ensures bytes { Tells (Out.held out.old) (Out.held out.new) (Puts result (accepted_line (unsigned_abs slack.now.num) (unsigned_abs slack.now.den))) }
    ensures cause { HasCause (Out.faults out.old) (Out.faults out.new) result }
{
    let mut line = LineSink::new();
    push_text(&mut line, b"certificate ok slack ");
    push_number(&mut line, slack.num().unsigned_abs());
    push_text(&mut line, b"/");
    push_number(&mut line, slack.den().unsigned_abs());
    push_text(&mut line, b"\n");
    out.put(line.bytes())
}

/// Checks the certificate in the other file, and writes its slack.
pub fn check<St: Store, Out: Sink>(
    alloc: Global,
    name: &str,
    other: &str,
    store: &mut St,
    out: &mut Out,
) -> Outcome
    ensures means { (left : Option (List ℕ)) → Checks result name.now other.now (record { files = St.files store.old; input_before = left; input_after = left; output_before = Out.held out.old; output_after = Out.held out.new }) }
    ensures store { status_of result ≡ 2 → Rose (St.faults store.old) (St.faults store.new) }
    ensures write { status_of result ≡ 11 → Rose (Out.faults out.old) (Out.faults out.new) }
    ensures unread { ¬ (status_of result ≡ 10) }
{
    let net = match open_net(alloc, name, store) {
        Ok(net) => net,
        Err(outcome) => return outcome,
    };
    let cert = match open_cert(alloc, &net, other, store) {
        Ok(cert) => cert,
        Err(outcome) => return outcome,
    };
    if let Err(fault) = mp_cert::check(&net, &cert) {
        return outcome_of_fault(fault);
    }
    match put_accepted(out, &slack(&cert)) {
        Ok(()) => Outcome::Done,
        Err(Failed) => Outcome::Write,
    }
}
