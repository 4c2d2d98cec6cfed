//! A run whose queues stay within their bounds.
ghost use Rattle.std.specs.Prelude.{◌≡◌, ◌≤◌, ◌<◌, ◌+◌, ◌-◌, ◌^◌, ◌++◌, ◌∷◌, [], ℕ, List, All, IfOk, IfErr, OnOk, OnErr, length, slice_index_or, pos, unsigned_abs};
ghost use Rattle.mp_model.specs.Arrivals.{HasCounts};
ghost use Rattle.mp_model.specs.Certificate.{HasLengths, Certifies};
ghost use Rattle.mp_model.specs.Network.{entry};
ghost use Rattle.mp_model.specs.Run.{opening, advance, greatest_stages};
ghost use Rattle.mp_model.specs.Slack.{IsSlack};
ghost use Rattle.mp_model.specs.Step.{State as StateOfModel};
ghost use Rattle.mp_model.specs.declared.limits.TheConstants.{MOST_LINES};
ghost use Rattle.mp_laws.specs.Buckets.{IsFirstAbove};
ghost use Rattle.mp_cert.specs.Views.{cert_of};
ghost use Rattle.mp_step.specs.Standing.{Stands};
ghost use Rattle.mp_step.specs.Taken.{HasTaken};
ghost use Rattle.mp_num.specs.Fraction.{numerator, denominator};
ghost use Rattle.mp_drift.specs.Bounded.{FindsGreatest};
ghost use Rattle.mp_drift.specs.Session.{IsAccepted, IsBounded, IsRefused, open_fault};

use crate::numbers::constants;
use crate::queue_bounds::bounds;
use arrayvec::ArrayVec;
use mp_cert::{Cert, CertFault, check, slack};
use mp_flow::CalcFault;
use mp_net::{JunctionNo, MovementNo, Net, StageNo};
use mp_num::{Frac, Numbers};
use mp_press::Cache;
use mp_step::{AboveAt, State};
use std::alloc::Global;
use std::marker::Model;

// The bound of the movement, in a list of one per movement.
fn bound_at(bounds: &[i128], k: MovementNo) -> i128
    requires { (1 ≤ k) × (k ≤ length bounds.now) }
    ensures { result ≡ slice_index_or bounds.now (k - 1) (pos 0) }
{
    bounds[usize::from(k) - 1]
}

/// Why a session can't be opened.
#[derive(Clone, Copy, Debug, PartialEq, Eq)]
pub enum OpenFault {
    /// The certificate is not accepted: the first rule that it breaks, or a calculation that exceeds 128 bits.
    Cert(CertFault),
    /// A bound exceeds 128 bits, or has no room.
    Calc(CalcFault),
    /// There was no memory.
    NoMemory,
}

// The fault of the bounds, as that of an opening.
fn open_fault(fault: CalcFault) -> OpenFault
    ensures { result ≡ open_fault fault }
{
    match fault {
        CalcFault::NoMemory => OpenFault::NoMemory,
        _ => OpenFault::Calc(fault),
    }
}

/// A run of max-pressure control on a network with a checked certificate.
///
/// Its type keeps the drift theorem (Tassiulas and Ephremides 1992): after every period the drift
/// value is at most its greatest, and so each queue is at most its bound.
#[derive(Drop)]
pub struct Session<'a> {
    net: &'a Net,
    slack: Frac,
    bound: Numbers,
    state: State,
    // It stands for the queues of the state.
    cache: Cache,
    // The stages of the last closed period.
    stages: ArrayVec<StageNo, 64>,
}

impl<'a> Model for Session<'a> {
    ghost use Rattle.mp_drift.specs.Session.{Bounded};
    ghost use Rattle.mp_drift.specs.SessionView.{bounded_of, IsSession};

    ghost Value = { Bounded };

    ghost view = { bounded_of };

    ghost invariant = { IsSession };
}

impl<'a> Session<'a> {
    /// Checks the certificate, finds the bounds for its slack, and stands at the opening of a run.
    ///
    /// A fault of the certificate comes exactly where the check has it, and one of a bound exactly where the check
    /// accepts the certificate and the bounds have the fault.
    pub fn open(alloc: Global, net: &'a Net, cert: &Cert) -> Result<Session<'a>, OpenFault>
        requires { HasLengths net.now (cert_of cert.now) }
        ensures net { IfOk result (λ s. s.net ≡ net.now) }
        ensures checked { OnOk result (IsAccepted net.now (cert_of cert.now)) }
        ensures certifies { IfOk result (λ s. Certifies net.now (cert_of cert.now)) }
        ensures slack { IfOk result (λ s. IsSlack (cert_of cert.now) (numerator s.slack) (denominator s.slack)) }
        ensures found { IfOk result (λ s. FindsGreatest net.now (numerator s.slack) (denominator s.slack)) }
        ensures opening { IfOk result (λ s. Stands net.now s.at (opening net.now)) }
        ensures taken { IfOk result (λ s. HasTaken net.now s.at []) }
        ensures refused { IfErr result (IsRefused net.now (cert_of cert.now)) }
    {
        let _ = net.shares();
        if let Err(fault) = check(net, cert) {
            return Err(OpenFault::Cert(fault));
        }
        let slack = slack(cert);
        let Ok(constants) = constants(alloc, net) else {
            return Err(OpenFault::NoMemory);
        };
        let bound = match bounds(alloc, net, &constants, &slack) {
            Ok(found) => found.bound,
            Err(fault) => return Err(open_fault(fault)),
        };
        let Ok(state) = State::empty(alloc, net) else {
            return Err(OpenFault::NoMemory);
        };
        let Ok(cache) = Cache::new(alloc, net) else {
            return Err(OpenFault::NoMemory);
        };
        Ok(Session {
            net,
            slack,
            bound,
            state,
            cache,
            stages: ArrayVec::new(),
        })
    }

    /// The network of the run.
    pub fn net(&self) -> &Net
        ensures { result.now ≡ self.now.net }
    {
        self.net
    }

    /// The slack of the certificate, in vehicles per period.
    pub fn slack(&self) -> &Frac
        ensures { result.now ≡ self.now.slack }
    {
        &self.slack
    }

    /// The bounds of the queues, one per movement in movement order.
    pub fn bounds(&self) -> &[i128]
        ensures { result.now ≡ self.now.bounds }
    {
        self.bound.as_slice()
    }

    /// The most vehicles that the movement ever has queued.
    pub fn bound(&self, k: MovementNo) -> i128
        requires { (1 ≤ k) × (k ≤ length self.now.net.movements) }
        ensures value { result ≡ slice_index_or self.now.bounds (k - 1) (pos 0) }
        ensures holds { entry self.now.at.queues k ≤ unsigned_abs result }
    {
        bound_at(self.bound.as_slice(), k)
    }

    /// Where the run stands.
    pub fn state(&self) -> &State
        ensures value { result.now ≡ self.now.at }
        ensures bounded { IsBounded self.now }
    {
        &self.state
    }

    /// The stages of the last closed period, one per junction, and none before the first.
    pub fn stages(&self) -> &[StageNo]
        ensures { result.now ≡ self.now.stages }
    {
        &self.stages
    }

    /// The stage of the junction in the last closed period.
    pub fn stage(&self, j: JunctionNo) -> StageNo
        requires { (1 ≤ j) × (j ≤ length self.now.stages) }
        ensures { result ≡ entry self.now.stages j }
    {
        self.stages[usize::from(j) - 1]
    }

    /// One period in which these many vehicles arrive, one count of at most 9 digits per fed link, and
    /// each junction shows its stage of greatest pressure, the lowest on ties (Varaiya 2013).
    ///
    /// `AboveAt` comes exactly where some fed link would be above its bucket: it names the least, and
    /// the session stays as it was. A period takes no memory.
    pub fn period(&mut self, arrivals: &[u64]) -> Result<(), AboveAt>
        requires counts { HasCounts self.old.net arrivals.now }
        requires digits { All (λ a. a < 10 ^ 9) arrivals.now }
        requires period { self.old.at.period < MOST_LINES }
        ensures excess { IfErr result (λ above. (A : List (List ℕ)) → HasTaken self.old.net self.old.at A → IsFirstAbove self.old.net A arrivals.now above.link) }
        ensures stays { OnErr result (self.new ≡ self.old) }
        ensures taken { OnOk result ((A : List (List ℕ)) → HasTaken self.old.net self.old.at A → HasTaken self.old.net self.new.at (A ++ arrivals.now ∷ [])) }
        ensures step { OnOk result ((state : StateOfModel) → Stands self.old.net self.old.at state → Stands self.old.net self.new.at (advance self.old.net arrivals.now state)) }
        ensures stages { OnOk result (self.new.stages ≡ greatest_stages self.old.net (entry self.old.at.queues)) }
        ensures period { OnOk result (self.new.at.period ≡ self.old.at.period + 1) }
        ensures same { OnOk result (self.new ≡ record self.old { at = self.new.at; stages = self.new.stages }) }
    {
        let _ = self.net.shares();
        let mut stages = ArrayVec::new();
        self.cache.choose_all(self.net, &mut stages);
        self.state
            .close_queued(self.net, &stages, self.cache.queued(), arrivals)?;
        self.cache.renew(self.net, self.state.queues());
        self.stages = stages;
        Ok(())
    }
}
