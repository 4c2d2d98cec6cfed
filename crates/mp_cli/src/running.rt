//! A run with the greatest slack.
ghost use Rattle.std.specs.Prelude.{◌≡◌};
ghost use Rattle.mp_edge.specs.Outside.{Rose};
ghost use Rattle.mp_cli.specs.Running.{Runs};
ghost use Rattle.mp_cli.specs.Statuses.{status_of};

use crate::opening::open_net;
use crate::outcome::Outcome;
use crate::session::admitted;
use crate::streaming::stream_under;
use mp_edge::{Sink, Source, Store};
use std::alloc::Global;

/// Certifies the network, and runs the stream with its greatest slack.
pub fn run<St: Store, In: Source, Out: Sink>(
    alloc: Global,
    name: &str,
    store: &mut St,
    input: &mut In,
    out: &mut Out,
) -> Outcome
    ensures means { Runs result name.now (record { files = St.files store.old; input_before = In.left input.old; input_after = In.left input.new; output_before = Out.held out.old; output_after = Out.held out.new }) }
    ensures store { status_of result ≡ 2 → Rose (St.faults store.old) (St.faults store.new) }
    ensures read { status_of result ≡ 10 → Rose (In.faults input.old) (In.faults input.new) }
    ensures write { status_of result ≡ 11 → Rose (Out.faults out.old) (Out.faults out.new) }
{
    let net = match open_net(alloc, name, store) {
        Ok(net) => net,
        Err(outcome) => return outcome,
    };
    match admitted(alloc, &net) {
        Ok(cert) => stream_under(alloc, &net, &cert, input, out),
        Err(outcome) => outcome,
    }
}
