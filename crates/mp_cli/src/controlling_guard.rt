//! The controller in the loop, under a guard.
ghost use Rattle.std.specs.Prelude.{◌≡◌, IfOk, IfErr};
ghost use Rattle.mp_edge.specs.Outside.{Rose};
ghost use Rattle.mp_model.specs.Guard.{Guards};
ghost use Rattle.mp_cli.specs.GuardControlling.{ControlsBy, ControlsGuarded, IsHeader};
ghost use Rattle.mp_cli.specs.Guarding.{HasNoBursts};
ghost use Rattle.mp_cli.specs.Ports.{Files};
ghost use Rattle.mp_cli.specs.Statuses.{status_of, HasNoFault};

use crate::controlling::run_end;
use crate::guarding::outcome_of_bursts;
use crate::opening::{open_guard, open_net};
use crate::outcome::Outcome;
use mp_edge::{Sink, Source, Store};
use mp_guard::{Guard, bounds, bursts, check, header_text, surpluses, waits};
use mp_guard_control::control_guarded;
use mp_guard_run::Owed;
use mp_net::Net;
use std::alloc::Global;

// The header of the guard, or why it has none.
fn header_of(alloc: Global, net: &Net, guard: &Guard) -> Result<Vec<u8>, Outcome>
    requires { Guards net.now guard.now }
    ensures header { IfOk result (λ text. IsHeader net.now guard.now text.items) }
    ensures refused { IfErr result (λ outcome. HasNoBursts outcome net.now guard.now) }
    ensures inside { IfErr result HasNoFault }
{
    let Ok(surpluses) = surpluses(alloc, net) else {
        return Err(Outcome::NoMemory);
    };
    let bursts = match bursts(alloc, net, guard, &surpluses) {
        Ok(bursts) => bursts,
        Err(fault) => return Err(outcome_of_bursts(fault)),
    };
    let Ok(bounds) = bounds(alloc, net, guard, &surpluses, &bursts) else {
        return Err(Outcome::NoMemory);
    };
    let Ok(waits) = waits(alloc, net, guard) else {
        return Err(Outcome::NoMemory);
    };
    match header_text(alloc, net, guard, &bounds, &waits) {
        Ok(text) => Ok(text),
        Err(_) => Err(Outcome::NoMemory),
    }
}

// Answers the lines of counts under a guard that keeps all rules. All memory is taken before the first byte is put.
fn control_by<In: Source, Out: Sink>(
    alloc: Global,
    net: &Net,
    guard: &Guard,
    input: &mut In,
    out: &mut Out,
) -> Outcome
    requires { Guards net.now guard.now }
    ensures so { (files : Files) → ControlsBy result net.now guard.now (record { files = files; input_before = In.left input.old; input_after = In.left input.new; output_before = Out.held out.old; output_after = Out.held out.new }) }
    ensures unstored { ¬ (status_of result ≡ 2) }
    ensures read { status_of result ≡ 10 → Rose (In.faults input.old) (In.faults input.new) }
    ensures write { status_of result ≡ 11 → Rose (Out.faults out.old) (Out.faults out.new) }
{
    let header = match header_of(alloc, net, guard) {
        Ok(header) => header,
        Err(outcome) => return outcome,
    };
    let Ok(mut owed) = Owed::new(alloc, net, guard) else {
        return Outcome::NoMemory;
    };
    Outcome::Run(run_end(control_guarded(net, guard, &header, &mut owed, input, out)))
}

/// Answers each line of counts on the input with the stages under the guard of the other file.
pub fn control_guard<St: Store, In: Source, Out: Sink>(
    alloc: Global,
    name: &str,
    other: &str,
    store: &mut St,
    input: &mut In,
    out: &mut Out,
) -> Outcome
    ensures means { ControlsGuarded result name.now other.now (record { files = St.files store.old; input_before = In.left input.old; input_after = In.left input.new; output_before = Out.held out.old; output_after = Out.held out.new }) }
    ensures store { status_of result ≡ 2 → Rose (St.faults store.old) (St.faults store.new) }
    ensures read { status_of result ≡ 10 → Rose (In.faults input.old) (In.faults input.new) }
    ensures write { status_of result ≡ 11 → Rose (Out.faults out.old) (Out.faults out.new) }
{
    let net = match open_net(alloc, name, store) {
        Ok(net) => net,
        Err(outcome) => return outcome,
    };
    let guard = match open_guard(alloc, &net, other, store) {
        Ok(guard) => guard,
        Err(outcome) => return outcome,
    };
    match check(&net, &guard) {
        Ok(()) => control_by(alloc, &net, &guard, input, out),
        Err(fault) => Outcome::BrokenGuard(fault),
    }
}
