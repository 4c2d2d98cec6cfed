//! The audit of a log.
ghost use Rattle.std.specs.Prelude.{◌≡◌, ℕ, List, Option};
ghost use Rattle.mp_edge.specs.Outside.{Rose, Tells, Puts, HasCause};
ghost use Rattle.mp_model.specs.Certificate.{HasLengths};
ghost use Rattle.mp_cert.specs.Views.{cert_of};
ghost use Rattle.mp_cli.specs.Auditing.{audit_line, Audits, AuditsUnder, EndsAudit};
ghost use Rattle.mp_cli.specs.Ports.{Files};
ghost use Rattle.mp_cli.specs.Statuses.{status_of};

use crate::opening::open_net;
use crate::outcome::Outcome;
use crate::session::{admitted, open_session};
use mp_cert::Cert;
use mp_edge::{Failed, Sink, Source, Store};
use mp_log::{push_number, push_text};
use mp_net::Net;
use mp_run::AuditEnd;
use mp_text::LineSink;
use std::alloc::Global;

// Puts the line of a whole log, with the number of its periods.
fn put_whole<Out: Sink>(out: &mut Out, periods: u64) -> Result<(), Failed>
    ensures bytes { Tells (Out.held out.old) (Out.held out.new) (Puts result (audit_line periods)) }
    ensures cause { HasCause (Out.faults out.old) (Out.faults out.new) result }
{
    let mut line = LineSink::new();
    push_text(&mut line, b"log ok ");
    push_number(&mut line, periods);
    push_text(&mut line, b"\n");
    out.put(line.bytes())
}

/// The outcome of an audit that ended so. Of a whole log the line is put.
pub fn tell_end<Out: Sink>(end: AuditEnd, out: &mut Out) -> Outcome
    ensures so { (files : Files) (left rest : Option (List ℕ)) → EndsAudit result (record { files = files; input_before = left; input_after = rest; output_before = Out.held out.old; output_after = Out.held out.new }) (λ how. how ≡ end) }
    ensures unstored { ¬ (status_of result ≡ 2) }
    ensures read { status_of result ≡ 10 → end ≡ AuditEnd.Read }
    ensures write { status_of result ≡ 11 → Rose (Out.faults out.old) (Out.faults out.new) }
{
    match end {
        AuditEnd::Differs { line } => Outcome::Differs { line },
        AuditEnd::Read => Outcome::Read,
        AuditEnd::Done { periods } => match put_whole(out, periods) {
            Ok(()) => Outcome::Done,
            Err(Failed) => Outcome::Write,
        },
    }
}

/// Compares the input with the log under a certificate.
pub fn audit_under<In: Source, Out: Sink>(
    alloc: Global,
    net: &Net,
    cert: &Cert,
    input: &mut In,
    out: &mut Out,
) -> Outcome
    requires { HasLengths net.now (cert_of cert.now) }
    ensures so { (files : Files) → AuditsUnder result net.now (cert_of cert.now) (record { files = files; input_before = In.left input.old; input_after = In.left input.new; output_before = Out.held out.old; output_after = Out.held out.new }) }
    ensures unstored { ¬ (status_of result ≡ 2) }
    ensures read { status_of result ≡ 10 → Rose (In.faults input.old) (In.faults input.new) }
    ensures write { status_of result ≡ 11 → Rose (Out.faults out.old) (Out.faults out.new) }
{
    let mut session = match open_session(alloc, net, cert) {
        Ok(session) => session,
        Err(outcome) => return outcome,
    };
    // A session's round comes with what the session keeps.
    let _ = session.round();
    tell_end(mp_event_audit::audit(&mut session, input), out)
}

/// Certifies the network, and compares the input with its log under the greatest slack.
pub fn audit<St: Store, In: Source, Out: Sink>(
    alloc: Global,
    name: &str,
    store: &mut St,
    input: &mut In,
    out: &mut Out,
) -> Outcome
    ensures means { Audits result name.now (record { files = St.files store.old; input_before = In.left input.old; input_after = In.left input.new; output_before = Out.held out.old; output_after = Out.held out.new }) }
    ensures store { status_of result ≡ 2 → Rose (St.faults store.old) (St.faults store.new) }
    ensures read { status_of result ≡ 10 → Rose (In.faults input.old) (In.faults input.new) }
    ensures write { status_of result ≡ 11 → Rose (Out.faults out.old) (Out.faults out.new) }
{
    let net = match open_net(alloc, name, store) {
        Ok(net) => net,
        Err(outcome) => return outcome,
    };
    match admitted(alloc, &net) {
        Ok(cert) => audit_under(alloc, &net, &cert, input, out),
        Err(outcome) => outcome,
    }
}
