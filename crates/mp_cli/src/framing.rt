//! A run by frames.
ghost use Rattle.std.specs.Prelude.{◌≡◌, ◌≤◌};
ghost use Rattle.mp_edge.specs.Outside.{Rose};
ghost use Rattle.mp_model.specs.Certificate.{HasLengths};
ghost use Rattle.mp_model.specs.Frames.{frame_network};
ghost use Rattle.mp_cert.specs.Views.{cert_of};
ghost use Rattle.mp_cli.specs.Framing.{RunsFrames, FramesUnder};
ghost use Rattle.mp_cli.specs.Outcomes.{outcome_of_framing, outcome_of_frames};
ghost use Rattle.mp_cli.specs.Ports.{Files};
ghost use Rattle.mp_cli.specs.Statuses.{status_of};
ghost use Rattle.mp_cli.specs.Verdicts.{OfAdmitted};

use crate::ending::run_end;
use crate::opening::open_net;
use crate::outcome::Outcome;
use crate::session::{admitted, outcome_of_fault};
use mp_cert::Cert;
use mp_edge::{Failed, Sink, Source, Store};
use mp_flow::Place;
use mp_frame::{FrameFault, frame_net};
use mp_frame_run::{FrameOpen, FrameSession, run_frames};
use mp_log::put_header;
use mp_net::Net;
use mp_run::RunEnd;
use std::alloc::Global;

// The outcome of a frame network that there is not.
fn outcome_of_framing(fault: FrameFault) -> Outcome
    ensures { result ≡ outcome_of_framing fault }
{
    match fault {
        FrameFault::Per => Outcome::LongFrames,
        FrameFault::Rate { link } => Outcome::FastFrames(link),
        FrameFault::NoMemory => Outcome::NoMemory,
    }
}

// The outcome of a session of frames that was not opened.
fn outcome_of_frames(fault: FrameOpen) -> Outcome
    ensures { result ≡ outcome_of_frames fault }
{
    match fault {
        FrameOpen::Cert(broken) => outcome_of_fault(broken),
        FrameOpen::Bound => Outcome::Overflow(Place::Bound),
        FrameOpen::Room => Outcome::Overflow(Place::Room),
        FrameOpen::NoMemory => Outcome::NoMemory,
    }
}

// Runs the stream by frames of f periods under a certificate of the frame network. All memory is taken before the first
// byte is put.
fn stream_frames<In: Source, Out: Sink>(
    alloc: Global,
    net: &Net,
    f: u32,
    framed: &Net,
    cert: &Cert,
    input: &mut In,
    out: &mut Out,
) -> Outcome
    requires range { (2 ≤ f) × (f ≤ 60) }
    requires framed { framed.now ≡ frame_network net.now f }
    requires admitted { OfAdmitted framed.now (λ c. c ≡ cert_of cert.now) }
    requires lengths { HasLengths framed.now (cert_of cert.now) }
    ensures so { (files : Files) → FramesUnder result net.now f (cert_of cert.now) (record { files = files; input_before = In.left input.old; input_after = In.left input.new; output_before = Out.held out.old; output_after = Out.held out.new }) }
    ensures unstored { ¬ (status_of result ≡ 2) }
    ensures read { status_of result ≡ 10 → Rose (In.faults input.old) (In.faults input.new) }
    ensures write { status_of result ≡ 11 → Rose (Out.faults out.old) (Out.faults out.new) }
{
    let mut session = match FrameSession::open(alloc, net, f, framed, cert) {
        Ok(session) => session,
        Err(fault) => return outcome_of_frames(fault),
    };
    // A session's state comes with what the session keeps.
    let _ = session.state();
    if let Err(Failed) = put_header(out, session.net(), session.slack(), session.bounds()) {
        return Outcome::Run(RunEnd::Write);
    }
    Outcome::Run(run_end(run_frames(&mut session, input, out)))
}

/// Certifies the frame network, and runs the stream by frames of f periods with its greatest slack.
pub fn frames<St: Store, In: Source, Out: Sink>(
    alloc: Global,
    name: &str,
    f: u32,
    store: &mut St,
    input: &mut In,
    out: &mut Out,
) -> Outcome
    requires { (2 ≤ f) × (f ≤ 60) }
    ensures means { RunsFrames result name.now f (record { files = St.files store.old; input_before = In.left input.old; input_after = In.left input.new; output_before = Out.held out.old; output_after = Out.held out.new }) }
    ensures store { status_of result ≡ 2 → Rose (St.faults store.old) (St.faults store.new) }
    ensures read { status_of result ≡ 10 → Rose (In.faults input.old) (In.faults input.new) }
    ensures write { status_of result ≡ 11 → Rose (Out.faults out.old) (Out.faults out.new) }
{
    let net = match open_net(alloc, name, store) {
        Ok(net) => net,
        Err(outcome) => return outcome,
    };
    let framed = match frame_net(alloc, &net, f) {
        Ok(framed) => framed,
        Err(fault) => return outcome_of_framing(fault),
    };
    match admitted(alloc, &framed) {
        Ok(cert) => stream_frames(alloc, &net, f, &framed, &cert, input, out),
        Err(outcome) => outcome,
    }
}
