//! The opening of a session under a guard.
ghost use Rattle.std.specs.Prelude.{◌≡◌, IfOk, IfErr, length};
ghost use Rattle.mp_guard.specs.GuardHeader.{guard_header};
ghost use Rattle.mp_guard_run.specs.Running.{IsAtOpening};
ghost use Rattle.mp_model.specs.Guard.{Guards};
ghost use Rattle.mp_cli.specs.GuardRunning.{RunsUnder};
ghost use Rattle.mp_cli.specs.Guarding.{HasNoBursts};
ghost use Rattle.mp_cli.specs.Statuses.{HasNoFault};

use crate::guarding::outcome_of_bursts;
use crate::outcome::Outcome;
use mp_guard::{Guard, bursts, surpluses};
use mp_guard_control::controlled_law;
use mp_guard_run::GuardSession;
use mp_net::Net;
use std::alloc::Global;

/// Opens a session under a guard that keeps all rules, or says why its bursts are not found.
pub fn open_guard_session<'a>(
    alloc: Global,
    net: &'a Net,
    guard: &'a Guard,
) -> Result<GuardSession<'a>, Outcome>
    requires { Guards net.now guard.now }
    ensures net { IfOk result (λ s. s.net ≡ net.now) }
    ensures guard { IfOk result (λ s. s.guard ≡ guard.now) }
    ensures bounds { IfOk result (λ s. length s.bounds ≡ length net.now.movements) }
    ensures waits { IfOk result (λ s. length s.waits ≡ length net.now.movements) }
    ensures start { IfOk result IsAtOpening }
    ensures runs { IfOk result (λ s. RunsUnder net.now guard.now (λ header. header ≡ guard_header net.now guard.now s.bounds s.waits)) }
    ensures refused { IfErr result (λ outcome. HasNoBursts outcome net.now guard.now) }
    ensures inside { IfErr result HasNoFault }
{
    controlled_law();
    let Ok(surpluses) = surpluses(alloc, net) else {
        return Err(Outcome::NoMemory);
    };
    let bursts = match bursts(alloc, net, guard, &surpluses) {
        Ok(bursts) => bursts,
        Err(fault) => return Err(outcome_of_bursts(fault)),
    };
    let Ok(session) = GuardSession::open(alloc, net, guard, &surpluses, &bursts) else {
        return Err(Outcome::NoMemory);
    };
    // A session's state comes with what the session keeps.
    let _ = session.state();
    Ok(session)
}
