//! The verdict on a network.
ghost use Rattle.std.specs.Prelude.{◌≡◌, ◌≤◌, length, Some, IfOk};
ghost use Rattle.mp_model.specs.NetworkRules.{IsNetwork};
ghost use Rattle.mp_flow.specs.Systems.{AreFlows};
ghost use Rattle.mp_flow.specs.Calculating.{flows_of};
ghost use Rattle.mp_cert.specs.Weighing.{weighed};
ghost use Rattle.mp_verdict.specs.Verdict.{judged, verdict_after, verdict};
ghost use Rattle.mp_verdict.specs.Stated.{Gives};
ghost use Rattle.mp_verdict.specs.Laws.{IsNatural, Holds, IsExact};
ghost use Rattle.mp_admit.specs.Scores.{score_of, StandsIn};
ghost use Rattle.mp_admit.specs.Verdicts.{verdict_of};

use crate::game::game;
use crate::mix::certificate_at;
use crate::score::Score;
use crate::vector::vector_of;
use mp_cert::{Against, Cert, Overflow, weigh};
use mp_flow::{CalcFault, FlowPair, Place, flows};
use mp_net::Net;
use mp_num::Frac;
use std::alloc::Global;

/// What a network's greatest slack says of it.
#[derive(Drop)]
pub enum Verdict {
    /// The greatest slack is above 0: the certificate has it, and the vector shows that none has more.
    Admitted {
        cert: Cert,
        against: Against,
        slack: Frac,
    },
    /// The network carries its rates with nothing to spare: the vector loads it with just what it can serve.
    Critical {
        against: Against,
    },
    /// The network does not carry its rates: the vector loads it with more than it can serve.
    Overloaded {
        against: Against,
    },
}

/// The verdict by the sign of the slack; only above 0 there is a certificate.
#[tactic(auto, using(crate::proofs::VerdictLemmas::judging))]
fn judge(
    alloc: Global,
    net: &Net,
    flows: &FlowPair,
    slack: Frac,
    against: Against,
) -> Result<Verdict, CalcFault>
    requires network { IsNetwork net.now }
    requires flows { AreFlows net.now (flows_of flows.now) }
    ensures { Gives verdict_of result (judged net.now (flows_of flows.now) slack against.p slack.num) }
{
    let num = slack.num();
    if num == 0 {
        return Ok(Verdict::Critical { against });
    }
    if num < 0 {
        return Ok(Verdict::Overloaded { against });
    }
    match certificate_at(alloc, net, flows, &slack) {
        Ok(cert) => Ok(Verdict::Admitted {
            cert,
            against,
            slack,
        }),
        Err(fault) => Err(fault),
    }
}

/// The verdict after the game: the vector is found, its two sums are formed for their overflow, and the slack decides.
#[tactic(auto, using(crate::proofs::VerdictLemmas::judging))]
fn decide(alloc: Global, net: &Net, flows: &FlowPair, score: &Score) -> Result<Verdict, CalcFault>
    requires network { IsNetwork net.now }
    requires flows { AreFlows net.now (flows_of flows.now) }
    requires stands { StandsIn net.now score.now }
    ensures { Gives verdict_of result (verdict_after net.now (weighed net.now) (flows_of flows.now) (Some (score_of score.now))) }
{
    let against = match vector_of(alloc, net, score) {
        Ok(against) => against,
        Err(fault) => return Err(fault),
    };
    match weigh(net, &against) {
        Ok(_sums) => judge(alloc, net, flows, score.slack, against),
        Err(Overflow) => Err(CalcFault::Overflow(Place::Vector)),
    }
}

/// The verdict on a network.
///
/// `Admitted` comes exactly where the greatest slack is above 0, `Critical` exactly where the network is critical, and
/// `Overloaded` exactly where it is overloaded. `Overflow` and `PivotLimit` come first, exactly where the stated
/// calculation exceeds 128 bits or comes to the limit of turns.
#[tactic(auto, using(crate::proofs::VerdictLemmas::admitting))]
pub fn admit(alloc: Global, net: &Net) -> Result<Verdict, CalcFault>
    ensures calculation { Gives verdict_of result (verdict net.now (weighed net.now)) }
    ensures holds { IfOk result (λ v. Holds net.now (verdict_of v)) }
    ensures exact { IfOk result (λ v. IsExact net.now (verdict_of v)) }
{
    // A network's share total comes with what its rules say.
    let _shares = net.shares();
    let flows = match flows(alloc, net) {
        Ok(flows) => flows,
        Err(fault) => return Err(fault),
    };
    let score = match game(alloc, net, &flows) {
        Ok(score) => score,
        Err(fault) => return Err(fault),
    };
    match score {
        Some(score) => decide(alloc, net, &flows, &score),
        // A network has a movement, and each movement its junction.
        None => unreachable!(),
    }
}
