//! The audit of a log with the slack of a certificate.
ghost use Rattle.std.specs.Prelude.{◌≡◌};
ghost use Rattle.mp_edge.specs.Outside.{Rose};
ghost use Rattle.mp_cli.specs.AuditingWith.{AuditsWith};
ghost use Rattle.mp_cli.specs.Statuses.{status_of};

use crate::auditing::audit_under;
use crate::opening::{open_cert, open_net};
use crate::outcome::Outcome;
use mp_edge::{Sink, Source, Store};
use std::alloc::Global;

/// Compares the input with the network's log under the slack of the certificate in the other file.
pub fn audit_with<St: Store, In: Source, Out: Sink>(
    alloc: Global,
    name: &str,
    other: &str,
    store: &mut St,
    input: &mut In,
    out: &mut Out,
) -> Outcome
    ensures means { AuditsWith result name.now other.now (record { files = St.files store.old; input_before = In.left input.old; input_after = In.left input.new; output_before = Out.held out.old; output_after = Out.held out.new }) }
    ensures store { status_of result ≡ 2 → Rose (St.faults store.old) (St.faults store.new) }
    ensures read { status_of result ≡ 10 → Rose (In.faults input.old) (In.faults input.new) }
    ensures write { status_of result ≡ 11 → Rose (Out.faults out.old) (Out.faults out.new) }
{
    let net = match open_net(alloc, name, store) {
        Ok(net) => net,
        Err(outcome) => return outcome,
    };
    match open_cert(alloc, &net, other, store) {
        Ok(cert) => audit_under(alloc, &net, &cert, input, out),
        Err(outcome) => outcome,
    }
}
