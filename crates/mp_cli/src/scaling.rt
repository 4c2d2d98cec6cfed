//! The greatest certificate over a denominator.
ghost use Rattle.std.specs.Prelude.{◌≡◌, ◌≤◌, ◌<◌, ◌^◌, ℕ, List, Option};
ghost use Rattle.mp_edge.specs.Outside.{Rose};
ghost use Rattle.mp_cli.specs.Outcomes.{outcome_of_scaling};
ghost use Rattle.mp_cli.specs.Scaling.{Scales};
ghost use Rattle.mp_cli.specs.Statuses.{status_of};

use crate::opening::open_net;
use crate::outcome::Outcome;
use mp_cert::print_cert;
use mp_edge::{Failed, Sink, Store};
use mp_flow::Place;
use mp_scaled::{ScaleFault, greatest};
use std::alloc::Global;

// The outcome of a search without a result.
fn outcome_of_scaling(fault: ScaleFault) -> Outcome
    ensures { result ≡ outcome_of_scaling fault }
{
    match fault {
        ScaleFault::Sweeps { e } => Outcome::SweepLimit(e),
        ScaleFault::Overflow(j) => Outcome::Overflow(Place::Game(j)),
        ScaleFault::PivotLimit(j) => Outcome::PivotLimit(j),
        ScaleFault::NoMemory => Outcome::NoMemory,
    }
}

/// Finds the greatest certificate over the denominator, and writes it.
pub fn scale<St: Store, Out: Sink>(
    alloc: Global,
    name: &str,
    d: u32,
    store: &mut St,
    out: &mut Out,
) -> Outcome
    requires { (1 ≤ d) × (d < 10 ^ 9) }
    ensures means { (left : Option (List ℕ)) → Scales result name.now d (record { files = St.files store.old; input_before = left; input_after = left; output_before = Out.held out.old; output_after = Out.held out.new }) }
    ensures store { status_of result ≡ 2 → Rose (St.faults store.old) (St.faults store.new) }
    ensures write { status_of result ≡ 11 → Rose (Out.faults out.old) (Out.faults out.new) }
    ensures unread { ¬ (status_of result ≡ 10) }
{
    let net = match open_net(alloc, name, store) {
        Ok(net) => net,
        Err(outcome) => return outcome,
    };
    match greatest(alloc, &net, d) {
        Ok(None) => Outcome::NoCertificate,
        Err(fault) => outcome_of_scaling(fault),
        Ok(Some(cert)) => match print_cert(out, &cert) {
            Ok(()) => Outcome::Done,
            Err(Failed) => Outcome::Write,
        },
    }
}
