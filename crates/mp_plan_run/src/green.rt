//! Which stages run in a period of a plan, and which movements are green.
ghost use Rattle.std.specs.Prelude.{◌≡◌, ◌≤◌, ◌-◌, length, map};
ghost use Rattle.mp_model.specs.Network.{movement_numbers, junction_at, stage_at, has};
ghost use Rattle.mp_model.specs.NetworkRules.{IsAcceptable};
ghost use Rattle.mp_plan.specs.Made.{IsPlanOn};
ghost use Rattle.mp_plan_run.specs.Green.{running_stages, AreRunning, is_green_in};

use arrayvec::ArrayVec;
use mp_cert::places::junction_of;
use mp_net::{JunctionNo, MovementNo, Net, StageNo};
use mp_plan::{Plan, running};

/// Makes the list that of the stages that run in a period, numbered from 1, one per junction, and 0
/// where a junction is idle.
pub fn list_running(net: &Net, plan: &Plan, period: u64, into: &mut ArrayVec<StageNo, 64>)
    requires plan { IsPlanOn net.now plan.now }
    requires period { 1 ≤ period }
    ensures { into.new.items ≡ running_stages net.now plan.now (period - 1) }
{
    let _ = net.shares();
    into.clear();
    for i in 0..net.junctions() {
        into.push(running(plan, i + 1, period));
    }
}

// The stage holds the movement.
fn holds(net: &Net, j: JunctionNo, s: StageNo, k: MovementNo) -> bool
    requires junction { (1 ≤ j) × (j ≤ length net.now.junctions) }
    requires stage { (1 ≤ s) × (s ≤ length (junction_at net.now j).stages) }
    ensures { result ≡ has (stage_at (junction_at net.now j) s) k }
{
    net.stage(j, s).contains(&k)
}

// The movement stands in the stage that its junction runs.
fn is_green(net: &Net, stages: &[StageNo], k: MovementNo) -> bool
    requires acceptable { IsAcceptable net.now }
    requires running { AreRunning net.now stages.now }
    requires known { (1 ≤ k) × (k ≤ length net.now.movements) }
    ensures { result ≡ is_green_in net.now stages.now k }
{
    let j = junction_of(net, k);
    let s = stages[usize::from(j) - 1];
    if s == 0 {
        return false;
    }
    holds(net, j, s, k)
}

/// Makes the list that of one flag per movement: whether it stands in the stage that its junction runs.
pub fn list_green(net: &Net, stages: &[StageNo], into: &mut ArrayVec<bool, 512>)
    requires running { AreRunning net.now stages.now }
    ensures { into.new.items ≡ map (is_green_in net.now stages.now) (movement_numbers net.now) }
{
    let _ = net.shares();
    into.clear();
    for i in 0..net.movements() {
        into.push(is_green(net, stages, i + 1));
    }
}
