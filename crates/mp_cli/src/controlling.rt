//! The controller in the loop.
ghost use Rattle.std.specs.Prelude.{◌≡◌};
ghost use Rattle.mp_edge.specs.Outside.{Rose};
ghost use Rattle.mp_cli.specs.Controlling.{run_end, Controls};
ghost use Rattle.mp_cli.specs.Statuses.{status_of};

use crate::opening::open_net;
use crate::outcome::Outcome;
use mp_control::ControlEnd;
use mp_edge::{Sink, Source, Store};
use mp_run::RunEnd;
use std::alloc::Global;

/// The end of the controller, told as that of a run.
pub fn run_end(end: ControlEnd) -> RunEnd
    ensures { result ≡ run_end end }
{
    match end {
        ControlEnd::Done => RunEnd::Done,
        ControlEnd::Read => RunEnd::Read,
        ControlEnd::Write => RunEnd::Write,
        ControlEnd::LineLimit => RunEnd::LineLimit,
        ControlEnd::Long { line } => RunEnd::Long { line },
        ControlEnd::Grammar { line } => RunEnd::Grammar { line },
    }
}

/// Answers each line of counts on the input with the stages of greatest pressure on the network.
pub fn control<St: Store, In: Source, Out: Sink>(
    alloc: Global,
    name: &str,
    store: &mut St,
    input: &mut In,
    out: &mut Out,
) -> Outcome
    ensures means { Controls result name.now (record { files = St.files store.old; input_before = In.left input.old; input_after = In.left input.new; output_before = Out.held out.old; output_after = Out.held out.new }) }
    ensures store { status_of result ≡ 2 → Rose (St.faults store.old) (St.faults store.new) }
    ensures read { status_of result ≡ 10 → Rose (In.faults input.old) (In.faults input.new) }
    ensures write { status_of result ≡ 11 → Rose (Out.faults out.old) (Out.faults out.new) }
{
    let net = match open_net(alloc, name, store) {
        Ok(net) => net,
        Err(outcome) => return outcome,
    };
    Outcome::Run(run_end(mp_control::control(&net, input, out)))
}
