//! The certificate of the greatest slack.
ghost use Rattle.std.specs.Prelude.{◌≡◌, ℕ, List, Option};
ghost use Rattle.mp_edge.specs.Outside.{Rose};
ghost use Rattle.mp_cli.specs.Certifying.{FindsCertificate};
ghost use Rattle.mp_cli.specs.Statuses.{status_of};

use crate::opening::open_net;
use crate::outcome::Outcome;
use crate::session::admitted;
use mp_cert::print_cert;
use mp_edge::{Failed, Sink, Store};
use std::alloc::Global;

/// Finds the verdict on the network, and writes the certificate of the greatest slack.
pub fn certify<St: Store, Out: Sink>(
    alloc: Global,
    name: &str,
    store: &mut St,
    out: &mut Out,
) -> Outcome
    ensures means { (left : Option (List ℕ)) → FindsCertificate result name.now (record { files = St.files store.old; input_before = left; input_after = left; output_before = Out.held out.old; output_after = Out.held out.new }) }
    ensures store { status_of result ≡ 2 → Rose (St.faults store.old) (St.faults store.new) }
    ensures write { status_of result ≡ 11 → Rose (Out.faults out.old) (Out.faults out.new) }
    ensures unread { ¬ (status_of result ≡ 10) }
{
    let net = match open_net(alloc, name, store) {
        Ok(net) => net,
        Err(outcome) => return outcome,
    };
    let cert = match admitted(alloc, &net) {
        Ok(cert) => cert,
        Err(outcome) => return outcome,
    };
    match print_cert(out, &cert) {
        Ok(()) => Outcome::Done,
        Err(Failed) => Outcome::Write,
    }
}
