//! The game of the junctions: the slack falls from junction to junction until all carry it.
ghost use Rattle.std.specs.Prelude.{◌≡◌, ◌≤◌, length, None, IfOk};
ghost use Rattle.mp_model.specs.NetworkRules.{IsNetwork};
ghost use Rattle.mp_flow.specs.Systems.{AreFlows};
ghost use Rattle.mp_flow.specs.Calculating.{flows_of};
ghost use Rattle.mp_verdict.specs.Game.{after_junction, game};
ghost use Rattle.mp_verdict.specs.Stated.{Gives};
ghost use Rattle.mp_admit.specs.Scores.{scores_of, IfStands};

use crate::alone::try_movements;
use crate::score::Score;
use crate::turns::play;
use mp_flow::{CalcFault, FlowPair};
use mp_net::{JunctionNo, Net};
use std::alloc::Global;

/// The score after junction `j`: its movements were tried alone, and then its stages together.
#[tactic(auto, using(crate::proofs::GameLemmas::passing))]
fn pass_junction(
    alloc: Global,
    net: &Net,
    flows: &FlowPair,
    j: JunctionNo,
    before: Option<Score>,
) -> Result<Option<Score>, CalcFault>
    requires network { IsNetwork net.now }
    requires flows { AreFlows net.now (flows_of flows.now) }
    requires junction { (1 ≤ j) × (j ≤ length net.now.junctions) }
    requires stands { IfStands net.now before }
    ensures calculation { Gives scores_of result (after_junction net.now (flows_of flows.now) (scores_of before) j) }
    ensures stands { IfOk result (IfStands net.now) }
{
    let tried = match try_movements(alloc, net, flows, j, before) {
        Ok(tried) => tried,
        Err(fault) => return Err(fault),
    };
    let Some(start) = tried else {
        return Ok(None);
    };
    match play(alloc, net, flows, j, start) {
        Ok(score) => Ok(Some(score)),
        Err(fault) => Err(fault),
    }
}

/// The score at the end of the game, after all junctions in order; its slack is the greatest of the network.
#[tactic(auto, using(crate::proofs::GameLemmas::games))]
pub fn game(alloc: Global, net: &Net, flows: &FlowPair) -> Result<Option<Score>, CalcFault>
    requires network { IsNetwork net.now }
    requires flows { AreFlows net.now (flows_of flows.now) }
    ensures calculation { Gives scores_of result (game net.now (flows_of flows.now)) }
    ensures stands { IfOk result (IfStands net.now) }
{
    let mut score = None;
    for j in 0..net.junctions() {
        score = match pass_junction(alloc, net, flows, j + 1, score) {
            Ok(next) => next,
            Err(fault) => return Err(fault),
        };
    }
    Ok(score)
}
