//! The run of a stream under a certificate.
ghost use Rattle.std.specs.Prelude.{◌≡◌};
ghost use Rattle.mp_edge.specs.Outside.{Rose};
ghost use Rattle.mp_model.specs.Certificate.{HasLengths};
ghost use Rattle.mp_cert.specs.Views.{cert_of};
ghost use Rattle.mp_cli.specs.Ports.{Files};
ghost use Rattle.mp_cli.specs.Running.{StreamsUnder};
ghost use Rattle.mp_cli.specs.Statuses.{status_of};

use crate::ending::outcome_of_run;
use crate::outcome::Outcome;
use crate::session::open_session;
use mp_cert::Cert;
use mp_edge::{Failed, Sink, Source};
use mp_event_run::run_stream;
use mp_log::put_header;
use mp_net::Net;
use mp_run::RunEnd;
use std::alloc::Global;

/// Runs the stream under a certificate. All memory is taken before the first byte is put.
pub fn stream_under<In: Source, Out: Sink>(
    alloc: Global,
    net: &Net,
    cert: &Cert,
    input: &mut In,
    out: &mut Out,
) -> Outcome
    requires { HasLengths net.now (cert_of cert.now) }
    ensures so { (files : Files) → StreamsUnder result net.now (cert_of cert.now) (record { files = files; input_before = In.left input.old; input_after = In.left input.new; output_before = Out.held out.old; output_after = Out.held out.new }) }
    ensures unstored { ¬ (status_of result ≡ 2) }
    ensures read { status_of result ≡ 10 → Rose (In.faults input.old) (In.faults input.new) }
    ensures write { status_of result ≡ 11 → Rose (Out.faults out.old) (Out.faults out.new) }
{
    let mut session = match open_session(alloc, net, cert) {
        Ok(session) => session,
        Err(outcome) => return outcome,
    };
    // A session's round comes with what the session keeps.
    let _ = session.round();
    if let Err(Failed) = put_header(out, session.net(), session.slack(), session.bounds()) {
        return Outcome::Run(RunEnd::Write);
    }
    outcome_of_run(run_stream(&mut session, input, out))
}
