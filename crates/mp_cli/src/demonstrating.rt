//! The demonstration.
ghost use Rattle.std.specs.Prelude.{◌≡◌, ℕ, List, Option};
ghost use Rattle.mp_edge.specs.Outside.{Rose};
ghost use Rattle.mp_model.specs.Certificate.{HasLengths};
ghost use Rattle.mp_cert.specs.Views.{cert_of};
ghost use Rattle.mp_gen.specs.DemoNetwork.{demo_network};
ghost use Rattle.mp_cli.specs.Demonstrating.{Demonstrates, ShowsUnder};
ghost use Rattle.mp_cli.specs.Ports.{Files};
ghost use Rattle.mp_cli.specs.Statuses.{status_of};

use crate::outcome::Outcome;
use crate::session::{admitted, open_session};
use mp_cert::Cert;
use mp_edge::{Failed, Sink};
use mp_gen::{demo_certified_law, demo_net, demonstrate, put_demo};
use mp_net::Net;
use std::alloc::Global;

// Runs the demonstration under a certificate, and writes its summary.
fn show_under<Out: Sink>(alloc: Global, net: &Net, n: u64, cert: &Cert, out: &mut Out) -> Outcome
    requires network { net.now ≡ demo_network n }
    requires lengths { HasLengths net.now (cert_of cert.now) }
    ensures so { (files : Files) (left : Option (List ℕ)) → ShowsUnder result net.now n (cert_of cert.now) (record { files = files; input_before = left; input_after = left; output_before = Out.held out.old; output_after = Out.held out.new }) }
    ensures unstored { ¬ (status_of result ≡ 2) }
    ensures write { status_of result ≡ 11 → Rose (Out.faults out.old) (Out.faults out.new) }
    ensures unread { ¬ (status_of result ≡ 10) }
{
    let mut session = match open_session(alloc, net, cert) {
        Ok(session) => session,
        Err(outcome) => return outcome,
    };
    // A session's round comes with what the session keeps.
    let _ = session.round();
    let greatest = demonstrate(&mut session, n);
    match put_demo(out, n, &session, greatest) {
        Ok(()) => Outcome::Done,
        Err(Failed) => Outcome::Write,
    }
}

/// Runs 2^20 periods on the demonstration network of this number, and writes a summary.
pub fn demo<Out: Sink>(alloc: Global, n: u64, out: &mut Out) -> Outcome
    ensures means { (files : Files) (left : Option (List ℕ)) → Demonstrates result n (record { files = files; input_before = left; input_after = left; output_before = Out.held out.old; output_after = Out.held out.new }) }
    ensures unstored { ¬ (status_of result ≡ 2) }
    ensures write { status_of result ≡ 11 → Rose (Out.faults out.old) (Out.faults out.new) }
    ensures unread { ¬ (status_of result ≡ 10) }
{
    demo_certified_law();
    let Ok(net) = demo_net(alloc, n) else {
        return Outcome::NoMemory;
    };
    // A network's share total comes with what its rules say.
    let _ = net.shares();
    match admitted(alloc, &net) {
        Ok(cert) => show_under(alloc, &net, n, &cert, out),
        Err(outcome) => outcome,
    }
}
