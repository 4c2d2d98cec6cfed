//! A network, as a file.
ghost use Rattle.std.specs.Prelude.{◌≡◌, ℕ, List, Option};
ghost use Rattle.mp_edge.specs.Outside.{Rose};
ghost use Rattle.mp_cli.specs.Showing.{Shows};
ghost use Rattle.mp_cli.specs.Statuses.{status_of};

use crate::opening::open_net;
use crate::outcome::Outcome;
use mp_edge::{Failed, Sink, Store};
use mp_netfile::print_net;
use std::alloc::Global;

/// Writes the network, as a file.
pub fn show<St: Store, Out: Sink>(
    alloc: Global,
    name: &str,
    store: &mut St,
    out: &mut Out,
) -> Outcome
    ensures means { (left : Option (List ℕ)) → Shows result name.now (record { files = St.files store.old; input_before = left; input_after = left; output_before = Out.held out.old; output_after = Out.held out.new }) }
    ensures store { status_of result ≡ 2 → Rose (St.faults store.old) (St.faults store.new) }
    ensures write { status_of result ≡ 11 → Rose (Out.faults out.old) (Out.faults out.new) }
    ensures unread { ¬ (status_of result ≡ 10) }
{
    let net = match open_net(alloc, name, store) {
        Ok(net) => net,
        Err(outcome) => return outcome,
    };
    let Ok(text) = print_net(alloc, &net) else {
        return Outcome::NoMemory;
    };
    match out.put(text.as_bytes()) {
        Ok(()) => Outcome::Done,
        Err(Failed) => Outcome::Write,
    }
}
