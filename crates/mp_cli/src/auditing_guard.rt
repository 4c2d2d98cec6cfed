//! The audit of a log under a guard.
ghost use Rattle.std.specs.Prelude.{◌≡◌};
ghost use Rattle.mp_edge.specs.Outside.{Rose};
ghost use Rattle.mp_model.specs.Guard.{Guards};
ghost use Rattle.mp_cli.specs.GuardAuditing.{AuditsBy, AuditsUnderGuard};
ghost use Rattle.mp_cli.specs.Ports.{Files};
ghost use Rattle.mp_cli.specs.Statuses.{status_of};

use crate::auditing::tell_end;
use crate::guard_session::open_guard_session;
use crate::opening::{open_guard, open_net};
use crate::outcome::Outcome;
use mp_edge::{Sink, Source, Store};
use mp_guard::{Guard, check};
use mp_guard_audit::audit_guarded;
use mp_net::Net;
use std::alloc::Global;

// Compares the input with the log under a guard that keeps all rules.
fn audit_by<In: Source, Out: Sink>(
    alloc: Global,
    net: &Net,
    guard: &Guard,
    input: &mut In,
    out: &mut Out,
) -> Outcome
    requires { Guards net.now guard.now }
    ensures so { (files : Files) → AuditsBy result net.now guard.now (record { files = files; input_before = In.left input.old; input_after = In.left input.new; output_before = Out.held out.old; output_after = Out.held out.new }) }
    ensures unstored { ¬ (status_of result ≡ 2) }
    ensures read { status_of result ≡ 10 → Rose (In.faults input.old) (In.faults input.new) }
    ensures write { status_of result ≡ 11 → Rose (Out.faults out.old) (Out.faults out.new) }
{
    let mut session = match open_guard_session(alloc, net, guard) {
        Ok(session) => session,
        Err(outcome) => return outcome,
    };
    tell_end(audit_guarded(&mut session, input), out)
}

/// Compares the input with the network's log under the guard of the other file.
pub fn audit_guard<St: Store, In: Source, Out: Sink>(
    alloc: Global,
    name: &str,
    other: &str,
    store: &mut St,
    input: &mut In,
    out: &mut Out,
) -> Outcome
    ensures means { AuditsUnderGuard result name.now other.now (record { files = St.files store.old; input_before = In.left input.old; input_after = In.left input.new; output_before = Out.held out.old; output_after = Out.held out.new }) }
    ensures store { status_of result ≡ 2 → Rose (St.faults store.old) (St.faults store.new) }
    ensures read { status_of result ≡ 10 → Rose (In.faults input.old) (In.faults input.new) }
    ensures write { status_of result ≡ 11 → Rose (Out.faults out.old) (Out.faults out.new) }
{
    let net = match open_net(alloc, name, store) {
        Ok(net) => net,
        Err(outcome) => return outcome,
    };
    let guard = match open_guard(alloc, &net, other, store) {
        Ok(guard) => guard,
        Err(outcome) => return outcome,
    };
    match check(&net, &guard) {
        Ok(()) => audit_by(alloc, &net, &guard, input, out),
        Err(fault) => Outcome::BrokenGuard(fault),
    }
}
