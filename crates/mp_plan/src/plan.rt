//! A cyclic plan, and the stage that it runs in a period.
ghost use Rattle.std.specs.Prelude.{◌≡◌, ◌≤◌, ◌-◌, length, map, sum};
ghost use Rattle.mp_model.specs.Network.{entry};
ghost use Rattle.mp_model.specs.Plans.{greens_in_plan, running, running_from};

use mp_net::{JunctionNo, MovementNo, StageNo};
use std::marker::Model;

/// A cyclic plan: in each cycle a junction runs its stages in order for their greens, and is then idle.
/// It has the greens of the stages of each junction, in periods per cycle, and a bound per movement, in vehicles.
#[derive(Debug, Drop)]
pub struct Plan {
    cycle: u32,
    greens: Vec<Vec<u32>>,
    bounds: Vec<u64>,
}

impl Model for Plan {
    ghost use Rattle.mp_model.specs.Plans as model;
    ghost use Rattle.mp_plan.specs.PlanView.{plan_of};

    ghost Value = { model.Plan };

    ghost view = { plan_of };
}

impl Plan {
    /// The plan with this cycle, these greens per junction and stage, and these bounds per movement.
    pub(crate) fn new(cycle: u32, greens: Vec<Vec<u32>>, bounds: Vec<u64>) -> Plan
        ensures { result ≡ record { cycle = cycle; greens = map (λ row. row.items) greens.items; bounds = bounds.items } }
    {
        Plan {
            cycle,
            greens,
            bounds,
        }
    }

    /// The cycle, in periods.
    pub fn cycle(&self) -> u32
        ensures { result ≡ self.now.cycle }
    {
        self.cycle
    }

    /// How many junctions have greens.
    pub fn junctions(&self) -> usize
        ensures { result ≡ length self.now.greens }
    {
        self.greens.len()
    }

    /// The greens of the stages of the junction, in periods per cycle.
    pub fn greens(&self, j: JunctionNo) -> &[u32]
        requires { (1 ≤ j) × (j ≤ length self.now.greens) }
        ensures { result.now ≡ greens_in_plan self.now j }
    {
        &self.greens[usize::from(j) - 1]
    }

    /// The bounds, in vehicles, one per movement in movement order.
    pub fn bounds(&self) -> &[u64]
        ensures { result.now ≡ self.now.bounds }
    {
        self.bounds.as_slice()
    }

    /// The bound of the movement's queue, in vehicles.
    pub fn bound(&self, k: MovementNo) -> u64
        requires { (1 ≤ k) × (k ≤ length self.now.bounds) }
        ensures { result ≡ entry self.now.bounds k }
    {
        self.bounds[usize::from(k) - 1]
    }
}

// The stage that runs in period n of a cycle, from 0, or 0 behind the greens.
#[tactic(auto, using(crate::proofs::StageLemmas::stages))]
fn running_in(greens: &[u32], n: u32) -> StageNo
    requires { length greens.now ≤ 16 }
    ensures { result ≡ running_from 1 greens.now n }
{
    let mut left = n;
    for i in 0..greens.len() {
        if left < greens[i] {
            return i as u16 + 1;
        }
        left -= greens[i];
    }
    0
}

/// The stage that runs at the junction in a period, numbered from 1, or 0 where the junction is idle.
pub fn running(plan: &Plan, j: JunctionNo, period: u64) -> StageNo
    requires period { 1 ≤ period }
    requires cycle { 1 ≤ plan.now.cycle }
    requires known { (1 ≤ j) × (j ≤ length plan.now.greens) }
    requires few { length (greens_in_plan plan.now j) ≤ 16 }
    requires fit { sum (greens_in_plan plan.now j) ≤ plan.now.cycle }
    ensures stage { result ≡ running plan.now j (period - 1) }
{
    running_in(
        plan.greens(j),
        ((period - 1) % u64::from(plan.cycle)) as u32,
    )
}
