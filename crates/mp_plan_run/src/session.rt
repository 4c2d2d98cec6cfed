//! A run by a plan, whose queues stay within their bounds.
ghost use Rattle.std.specs.Prelude.{◌≡◌, ◌<◌, ◌+◌, ◌^◌, ◌++◌, ◌∷◌, [], ℕ, List, All, IfOk, IfErr, OnOk, OnErr};
ghost use Rattle.mp_model.specs.Arrivals.{HasCounts};
ghost use Rattle.mp_model.specs.Plans.{planned_advance};
ghost use Rattle.mp_model.specs.Run.{opening};
ghost use Rattle.mp_model.specs.Step.{State as StateOfModel};
ghost use Rattle.mp_model.specs.declared.limits.TheConstants.{MOST_LINES};
ghost use Rattle.mp_laws.specs.Buckets.{IsFirstAbove};
ghost use Rattle.mp_plan.specs.Made.{IsPlanOn};
ghost use Rattle.mp_step.specs.Standing.{Stands};
ghost use Rattle.mp_step.specs.Taken.{HasTaken};
ghost use Rattle.mp_plan_run.specs.Green.{running_stages};
ghost use Rattle.mp_plan_run.specs.Planned.{IsPlanned, IsWithin};

use crate::green::{list_green, list_running};
use arrayvec::ArrayVec;
use mp_net::{Net, NoMemory, StageNo};
use mp_plan::Plan;
use mp_step::{AboveAt, State};
use std::alloc::Global;
use std::marker::Model;

/// A run by a cyclic plan on a network without cycles of movements.
///
/// Its type keeps that each queue is at most the bound that the plan has for it (Cruz 1991): the run
/// is one over permitted arrivals.
#[derive(Drop)]
pub struct PlanSession<'a> {
    net: &'a Net,
    plan: Plan,
    state: State,
    // The stages of the last closed period.
    stages: ArrayVec<StageNo, 64>,
}

impl<'a> Model for PlanSession<'a> {
    ghost use Rattle.mp_plan_run.specs.Planned.{Planned};
    ghost use Rattle.mp_plan_run.specs.SessionView.{planned_of, IsSession};

    ghost Value = { Planned };

    ghost view = { planned_of };

    ghost invariant = { IsSession };
}

impl<'a> PlanSession<'a> {
    /// Stands at the opening of a run by the plan, which is one that was made for this network.
    /// `NoMemory` comes only where memory runs out.
    pub fn open(alloc: Global, net: &'a Net, plan: Plan) -> Result<PlanSession<'a>, NoMemory>
        requires { IsPlanOn net.now plan }
        ensures net { IfOk result (λ s. s.net ≡ net.now) }
        ensures plan { IfOk result (λ s. s.plan ≡ plan) }
        ensures opening { IfOk result (λ s. Stands net.now s.at (opening net.now)) }
        ensures taken { IfOk result (λ s. HasTaken net.now s.at []) }
        ensures stages { IfOk result (λ s. s.stages ≡ []) }
    {
        let _ = net.shares();
        let Ok(state) = State::empty(alloc, net) else {
            return Err(NoMemory);
        };
        Ok(PlanSession {
            net,
            plan,
            state,
            stages: ArrayVec::new(),
        })
    }

    /// The network of the run.
    pub fn net(&self) -> &Net
        ensures { result.now ≡ self.now.net }
    {
        self.net
    }

    /// The plan that was handed to `open`.
    pub fn plan(&self) -> &Plan
        ensures value { result.now ≡ self.now.plan }
        ensures on { IsPlanOn self.now.net self.now.plan }
    {
        &self.plan
    }

    /// Where the run stands. Each queue is at most its bound.
    pub fn state(&self) -> &State
        ensures value { result.now ≡ self.now.at }
        ensures planned { IsPlanned self.now }
        ensures within { IsWithin self.now }
    {
        &self.state
    }

    /// The stages of the last closed period, one per junction, 0 where it was idle, and none before the
    /// first period.
    pub fn stages(&self) -> &[StageNo]
        ensures { result.now ≡ self.now.stages }
    {
        &self.stages
    }

    /// One period in which these many vehicles arrive, one count of at most 9 digits per fed link, and
    /// each junction runs the stage of its plan or is idle.
    ///
    /// A movement of a stage that runs passes the lesser of its flow and its queue, whatever its weight,
    /// and all others pass 0.
    ///
    /// `AboveAt` comes exactly where some fed link would be above its bucket: it names the least, and
    /// the session stays as it was. A period takes no memory.
    pub fn period(&mut self, arrivals: &[u64]) -> Result<(), AboveAt>
        requires counts { HasCounts self.old.net arrivals.now }
        requires digits { All (λ a. a < 10 ^ 9) arrivals.now }
        requires period { self.old.at.period < MOST_LINES }
        ensures excess { IfErr result (λ above. (A : List (List ℕ)) → HasTaken self.old.net self.old.at A → IsFirstAbove self.old.net A arrivals.now above.link) }
        ensures stays { OnErr result (self.new ≡ self.old) }
        ensures taken { OnOk result ((A : List (List ℕ)) → HasTaken self.old.net self.old.at A → HasTaken self.old.net self.new.at (A ++ arrivals.now ∷ [])) }
        ensures step { OnOk result ((state : StateOfModel) → Stands self.old.net self.old.at state → Stands self.old.net self.new.at (planned_advance self.old.net self.old.plan arrivals.now state)) }
        ensures stages { OnOk result (self.new.stages ≡ running_stages self.old.net self.old.plan self.old.at.period) }
        ensures period { OnOk result (self.new.at.period ≡ self.old.at.period + 1) }
        ensures same { OnOk result (self.new ≡ record self.old { at = self.new.at; stages = self.new.stages }) }
    {
        let _ = self.net.shares();
        let mut stages = ArrayVec::new();
        list_running(self.net, &self.plan, self.state.period() + 1, &mut stages);
        let mut green = ArrayVec::new();
        list_green(self.net, &stages, &mut green);
        self.state.close_open(self.net, &green, arrivals)?;
        self.stages = stages;
        Ok(())
    }
}
