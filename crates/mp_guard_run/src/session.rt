//! A run under a guard, whose queues stay within their bounds.
ghost use Rattle.std.specs.Prelude.{◌≡◌, ◌≤◌, ◌<◌, ◌+◌, ◌^◌, ◌++◌, ◌∷◌, [], ℕ, List, All, IfOk, IfErr, OnOk, OnErr, length};
ghost use Rattle.mp_model.specs.Arrivals.{HasCounts};
ghost use Rattle.mp_model.specs.Guard.{Guards};
ghost use Rattle.mp_model.specs.GuardedChoice.{GuardedState, guarded_opening, guarded_advance};
ghost use Rattle.mp_model.specs.Network.{entry};
ghost use Rattle.mp_model.specs.Run.{opening};
ghost use Rattle.mp_model.specs.declared.limits.TheConstants.{MOST_LINES};
ghost use Rattle.mp_laws.specs.Buckets.{IsFirstAbove};
ghost use Rattle.mp_guard.specs.Bursts.{AreBursts, bounds_of, waits_of};
ghost use Rattle.mp_guard.specs.Surpluses.{AreSurpluses};
ghost use Rattle.mp_step.specs.Standing.{Stands};
ghost use Rattle.mp_step.specs.Taken.{HasTaken};
ghost use Rattle.mp_guard_run.specs.Accounts.{AreKnown, stages_by};
ghost use Rattle.mp_guard_run.specs.Running.{IsAtOpening};
ghost use Rattle.mp_guard_run.specs.Session.{IsGuarding, StandsAt};

use crate::owed::Owed;
use arrayvec::ArrayVec;
use mp_guard::{Guard, bounds, waits};
use mp_net::{Net, NoMemory, StageNo};
use mp_step::{AboveAt, State};
use std::alloc::Global;
use std::marker::Model;

// Copies the queues, so that they stay while a period closes.
fn copy(queues: &[i128], into: &mut [i128])
    requires { length into.old ≡ length queues.now }
    ensures { into.new ≡ queues.now }
{
    into.copy_from_slice(queues);
}

/// A run of max-pressure control under a guard that owes each stage its greens in each cycle.
#[derive(Drop)]
pub struct GuardSession<'a> {
    net: &'a Net,
    guard: &'a Guard,
    bounds: Vec<u128>,
    waits: Vec<u128>,
    state: State,
    owed: Owed,
    // Room for the queues at the begin of a period.
    counts: Vec<i128>,
    // Room for the flags of the movements that are green.
    green: Vec<bool>,
    // The stages of the last closed period.
    stages: ArrayVec<StageNo, 64>,
}

impl<'a> Model for GuardSession<'a> {
    ghost use Rattle.mp_guard_run.specs.Session.{Guarded};
    ghost use Rattle.mp_guard_run.specs.SessionView.{guarded_of, IsSession};

    ghost Value = { Guarded };

    ghost view = { guarded_of };

    ghost invariant = { IsSession };
}

impl<'a> GuardSession<'a> {
    /// Forms the bounds and waits under these bursts, and stands at the opening of a run.
    ///
    /// The guard is one that `mp_guard::check` accepts, and the surpluses and bursts are those that
    /// `mp_guard::surpluses` and `mp_guard::bursts` give of it. `NoMemory` comes only where memory runs out.
    pub fn open(
        alloc: Global,
        net: &'a Net,
        guard: &'a Guard,
        surpluses: &[u64],
        bursts: &[u128],
    ) -> Result<GuardSession<'a>, NoMemory>
        requires guards { Guards net.now guard.now }
        requires surpluses { AreSurpluses net.now surpluses.now }
        requires bursts { AreBursts net.now guard.now surpluses.now bursts.now }
        ensures net { IfOk result (λ s. s.net ≡ net.now) }
        ensures guard { IfOk result (λ s. s.guard ≡ guard.now) }
        ensures bounds { IfOk result (λ s. s.bounds ≡ bounds_of net.now guard.now surpluses.now bursts.now) }
        ensures waits { IfOk result (λ s. s.waits ≡ waits_of net.now guard.now) }
        ensures opening { IfOk result (λ s. StandsAt s (guarded_opening net.now guard.now)) }
        ensures taken { IfOk result (λ s. HasTaken net.now s.at []) }
        ensures start { IfOk result IsAtOpening }
    {
        let _ = net.shares();
        let bounds = bounds(alloc, net, guard, surpluses, bursts)?;
        let waits = waits(alloc, net, guard)?;
        let Ok(state) = State::empty(alloc, net) else {
            return Err(NoMemory);
        };
        let owed = Owed::new(alloc, net, guard)?;
        let counts = vec![in alloc; 0i128; usize::from(net.movements())]?;
        let green = vec![in alloc; false; usize::from(net.movements())]?;
        Ok(GuardSession {
            net,
            guard,
            bounds,
            waits,
            state,
            owed,
            counts,
            green,
            stages: ArrayVec::new(),
        })
    }

    /// The network of the run.
    pub fn net(&self) -> &Net
        ensures { result.now ≡ self.now.net }
    {
        self.net
    }

    /// The guard of the run.
    pub fn guard(&self) -> &Guard
        ensures { result.now ≡ self.now.guard }
    {
        self.guard
    }

    /// The bounds of the queues, in vehicles, one per movement in movement order.
    pub fn bounds(&self) -> &[u128]
        ensures { result.now ≡ self.now.bounds }
    {
        self.bounds.as_slice()
    }

    /// For each movement, in movement order, the number of periods that nobody on it waits longer than.
    pub fn waits(&self) -> &[u128]
        ensures { result.now ≡ self.now.waits }
    {
        self.waits.as_slice()
    }

    /// Where the run stands.
    pub fn state(&self) -> &State
        ensures value { result.now ≡ self.now.at }
        ensures guarding { IsGuarding self.now }
    {
        &self.state
    }

    /// The stages of the last closed period, one per junction, and none before the first.
    pub fn stages(&self) -> &[StageNo]
        ensures { result.now ≡ self.now.stages }
    {
        &self.stages
    }

    /// One period in which these many vehicles arrive, one count of at most 9 digits per fed link, and each junction
    /// takes a stage under the guard by its own queues.
    ///
    /// `AboveAt` comes exactly where some fed link would be above its bucket: it names the least, and the session
    /// stays as it was, so nothing is paid. A period takes no memory.
    pub fn period(&mut self, arrivals: &[u64]) -> Result<(), AboveAt>
        requires counts { HasCounts self.old.net arrivals.now }
        requires digits { All (λ a. a < 10 ^ 9) arrivals.now }
        requires period { self.old.at.period < MOST_LINES }
        ensures excess { IfErr result (λ above. (A : List (List ℕ)) → HasTaken self.old.net self.old.at A → IsFirstAbove self.old.net A arrivals.now above.link) }
        ensures stays { OnErr result (self.new ≡ self.old) }
        ensures taken { OnOk result ((A : List (List ℕ)) → HasTaken self.old.net self.old.at A → HasTaken self.old.net self.new.at (A ++ arrivals.now ∷ [])) }
        ensures step { OnOk result ((now : GuardedState) → StandsAt self.old now → StandsAt self.new (guarded_advance self.old.net self.old.guard arrivals.now now)) }
        ensures stages { OnOk result (self.new.stages ≡ stages_by self.old.net self.old.guard (entry self.old.at.queues) self.old.at.period self.old.accounts) }
        ensures known { OnOk result (AreKnown self.old.net self.new.stages) }
        ensures period { OnOk result (self.new.at.period ≡ self.old.at.period + 1) }
        ensures same { OnOk result (self.new ≡ record self.old { at = self.new.at; accounts = self.new.accounts; stages = self.new.stages }) }
    {
        let _ = self.net.shares();
        let period = self.state.period();
        copy(self.state.queues(), &mut self.counts);
        let counts = self.counts.as_slice();
        let mut stages = ArrayVec::new();
        self.owed
            .choose(self.net, self.guard, counts, period, &mut stages);
        self.owed
            .put_green(self.net, self.guard, &stages, &mut self.green);
        self.state.close_open(self.net, &self.green, arrivals)?;
        self.owed.pay(self.net, self.guard, counts, period, &stages);
        self.stages = stages;
        Ok(())
    }
}
