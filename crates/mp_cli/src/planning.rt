//! A run by a cyclic plan.
ghost use Rattle.std.specs.Prelude.{◌≡◌, ◌≤◌};
ghost use Rattle.mp_edge.specs.Outside.{Rose};
ghost use Rattle.mp_plan.specs.Made.{IsPlanOn};
ghost use Rattle.mp_cli.specs.Outcomes.{outcome_of_plan};
ghost use Rattle.mp_cli.specs.Planning.{RunsPlan, StreamsUnderPlan};
ghost use Rattle.mp_cli.specs.Ports.{Files};
ghost use Rattle.mp_cli.specs.Statuses.{status_of};

use crate::ending::run_end;
use crate::opening::open_net;
use crate::outcome::Outcome;
use mp_edge::{Failed, Sink, Source, Store};
use mp_flow::Place;
use mp_net::Net;
use mp_plan::{Plan, PlanFault, make};
use mp_plan_run::{PlanSession, put_plan_header, run_plan};
use mp_run::RunEnd;
use std::alloc::Global;

// The outcome of a plan that was not made.
fn outcome_of_plan(fault: PlanFault) -> Outcome
    ensures { result ≡ outcome_of_plan fault }
{
    match fault {
        PlanFault::Cycle { link } => Outcome::CyclicPlan(link),
        PlanFault::Flow => Outcome::Overflow(Place::Flow),
        PlanFault::Full { junction } => Outcome::FullPlan(junction),
        PlanFault::Overflow => Outcome::PlanOverflow,
        PlanFault::NoMemory => Outcome::NoMemory,
    }
}

// Runs the stream by the plan. All memory is taken before the first byte is put.
fn stream_plan<In: Source, Out: Sink>(
    alloc: Global,
    net: &Net,
    plan: Plan,
    input: &mut In,
    out: &mut Out,
) -> Outcome
    requires { IsPlanOn net.now plan }
    ensures so { (files : Files) → StreamsUnderPlan result net.now plan (record { files = files; input_before = In.left input.old; input_after = In.left input.new; output_before = Out.held out.old; output_after = Out.held out.new }) }
    ensures unstored { ¬ (status_of result ≡ 2) }
    ensures read { status_of result ≡ 10 → Rose (In.faults input.old) (In.faults input.new) }
    ensures write { status_of result ≡ 11 → Rose (Out.faults out.old) (Out.faults out.new) }
{
    let Ok(mut session) = PlanSession::open(alloc, net, plan) else {
        return Outcome::NoMemory;
    };
    // A session's state comes with what the session keeps.
    let _ = session.state();
    if let Err(Failed) = put_plan_header(out, session.net(), session.plan()) {
        return Outcome::Run(RunEnd::Write);
    }
    Outcome::Run(run_end(run_plan(&mut session, input, out)))
}

/// Makes the plan of c periods, and runs the stream by it.
pub fn plan<St: Store, In: Source, Out: Sink>(
    alloc: Global,
    name: &str,
    c: u32,
    store: &mut St,
    input: &mut In,
    out: &mut Out,
) -> Outcome
    requires { (1 ≤ c) × (c ≤ 3600) }
    ensures means { RunsPlan result name.now c (record { files = St.files store.old; input_before = In.left input.old; input_after = In.left input.new; output_before = Out.held out.old; output_after = Out.held out.new }) }
    ensures store { status_of result ≡ 2 → Rose (St.faults store.old) (St.faults store.new) }
    ensures read { status_of result ≡ 10 → Rose (In.faults input.old) (In.faults input.new) }
    ensures write { status_of result ≡ 11 → Rose (Out.faults out.old) (Out.faults out.new) }
{
    let net = match open_net(alloc, name, store) {
        Ok(net) => net,
        Err(outcome) => return outcome,
    };
    match make(alloc, &net, c) {
        Ok(plan) => stream_plan(alloc, &net, plan, input, out),
        Err(fault) => outcome_of_plan(fault),
    }
}
