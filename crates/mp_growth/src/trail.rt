//! A run under even arrivals, in which the caller chooses the stages.
ghost use Rattle.std.specs.Prelude.{◌≡◌, ◌≤◌, ◌<◌, ◌+◌, ◌^◌, ◌≤ℤ◌, ℕ, All, None, IfOk, IfErr, OnOk, pos, length};
ghost use Rattle.mp_model.specs.Network.{Network, entry};
ghost use Rattle.mp_model.specs.Run.{opening};
ghost use Rattle.mp_model.specs.Step.{State as StateOfModel, AreStages};
ghost use Rattle.mp_cert.specs.Views.{vector_of};
ghost use Rattle.mp_step.specs.Standing.{Stands, closed};
ghost use Rattle.mp_overload.specs.Evens.{even_arrivals, uneven_link};
ghost use Rattle.mp_overload.specs.Trails.{trail_period};
ghost use Rattle.mp_overload.specs.Forming.{queues_formed};
ghost use Rattle.mp_overload.specs.Growing.{weighed_queues, HasGrown};
ghost use Rattle.mp_growth.specs.Formed.{ComesTo};
ghost use Rattle.mp_growth.specs.OnTrail.{IsTrail, HasNoTrail};

use crate::evens::{even_arrivals, uneven_link};
use crate::weighing::weigh_queues;
use crate::{GrowthFault, TrailFault};
use arrayvec::ArrayVec;
use mp_cert::Against;
use mp_net::{Net, StageNo};
use mp_step::{AboveAt, State};
use std::alloc::Global;
use std::marker::Model;

/// A run under even arrivals, in which the caller chooses the stages of each period.
///
/// Its type keeps the growth law: what each movement passed in all is bounded by its stages' flows, so after T periods
/// the queues that a vector weighs are at least T times its growth, less what is lost to rounding.
#[derive(Drop)]
pub struct Trail {
    state: State,
}

impl Model for Trail {
    ghost use Rattle.mp_step.specs.Standing.{Standing};
    ghost use Rattle.mp_growth.specs.TrailView.{standing_of, IsKept};

    ghost Value = { Standing };

    ghost view = { standing_of };

    ghost invariant = { IsKept };
}

impl Trail {
    /// The opening of the network, with its start queues.
    ///
    /// `Uneven` comes exactly where some fed link has a burst of 0 and a rate that is not a multiple of the rate length,
    /// and names the least; on every other network even arrivals are permitted. `NoMemory` comes only where memory ran
    /// out.
    pub fn new(alloc: Global, net: &Net) -> Result<Trail, TrailFault>
        ensures on { IfOk result (λ trail. IsTrail net.now trail) }
        ensures opening { IfOk result (λ trail. Stands net.now trail (opening net.now)) }
        ensures even { OnOk result (uneven_link net.now ≡ None) }
        ensures none { IfErr result (λ fault. HasNoTrail fault (uneven_link net.now)) }
    {
        // A network's share total comes with what its rules say.
        let _shares = net.shares();
        if let Some(link) = uneven_link(net) {
            return Err(TrailFault::Uneven { link });
        }
        match State::empty(alloc, net) {
            Ok(state) => Ok(Trail { state }),
            Err(_) => Err(TrailFault::NoMemory),
        }
    }

    /// One period with even arrivals in which the junctions show these stages, one per junction. It never refuses, and
    /// takes no memory.
    ///
    /// The network is the one that the trail was made on.
    pub fn step(&mut self, net: &Net, stages: &[StageNo])
        requires on { IsTrail net.now self.old }
        requires stages { AreStages net.now.junctions stages.now }
        requires period { self.old.period < 2 ^ 32 }
        ensures closed { self.new ≡ closed net.now self.old stages.now (even_arrivals net.now (self.old.period + 1)) }
        ensures step { (state : StateOfModel) → Stands net.now self.old state → Stands net.now self.new (trail_period net.now stages.now state) }
        ensures period { self.new.period ≡ self.old.period + 1 }
        ensures on { IsTrail net.now self.new }
    {
        // A network's share total comes with what its rules say.
        let _shares = net.shares();
        let mut arrivals = ArrayVec::new();
        even_arrivals(net, self.state.period() + 1, &mut arrivals);
        match self.state.close(net, stages, &arrivals) {
            Ok(()) => {}
            Err(AboveAt { .. }) => unreachable!(),
        }
    }

    /// Where the run stands.
    pub fn state(&self) -> &State
        ensures value { result.now ≡ self.now }
        ensures grown { (net : Network) → IsTrail net self.now → (p : ℕ → ℕ) → HasGrown net p self.now.period (entry self.now.queues) }
    {
        &self.state
    }

    /// What a vector with one number of at least 0 per movement weighs of the queues: the share total times the rate
    /// length, times the sum of its numbers times the queues.
    ///
    /// The network is the one that the trail was made on. `Growth` comes exactly where a calculation exceeds 128 bits.
    pub fn sum(&self, net: &Net, against: &Against) -> Result<i128, GrowthFault>
        requires on { IsTrail net.now self.now }
        requires lengths { length against.now.p ≡ length net.now.movements }
        requires signs { All (λ x. pos 0 ≤ℤ x) against.now.p }
        ensures calculation { ComesTo result (queues_formed net.now against.now.p (entry self.now.queues)) }
        ensures value { IfOk result (λ sum. sum ≡ pos (weighed_queues net.now (entry (vector_of against.now)) (entry self.now.queues))) }
        ensures grown { HasGrown net.now (entry (vector_of against.now)) self.now.period (entry self.now.queues) }
    {
        // A network's share total comes with what its rules say.
        let _shares = net.shares();
        match weigh_queues(net, against.p.as_slice(), self.state.queues()) {
            Some(sum) => Ok(sum),
            None => Err(GrowthFault::Growth),
        }
    }
}
