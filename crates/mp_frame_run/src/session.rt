//! A run by frames whose queues stay within their bounds.
ghost use Rattle.std.specs.Prelude.{◌≡◌, ◌≤◌, ◌<◌, ◌+◌, ◌-◌, ◌^◌, ◌++◌, ◌∷◌, [], ℕ, List, All, IfOk, IfErr, OnOk, OnErr, length, slice_index_or, pos, unsigned_abs};
ghost use Rattle.mp_model.specs.Arrivals.{HasCounts};
ghost use Rattle.mp_model.specs.Certificate.{HasLengths, Certifies};
ghost use Rattle.mp_model.specs.Frames.{FramedState, frame_network, framed_advance};
ghost use Rattle.mp_model.specs.Network.{entry};
ghost use Rattle.mp_model.specs.Slack.{IsSlack};
ghost use Rattle.mp_model.specs.Step.{AreStages};
ghost use Rattle.mp_model.specs.declared.limits.TheConstants.{MOST_LINES};
ghost use Rattle.mp_laws.specs.Buckets.{IsFirstAbove};
ghost use Rattle.mp_cert.specs.Views.{cert_of};
ghost use Rattle.mp_num.specs.Fraction.{numerator, denominator};
ghost use Rattle.mp_drift.specs.Session.{IsAccepted};
ghost use Rattle.mp_step.specs.Taken.{HasTaken};
ghost use Rattle.mp_frame.specs.FrameBounds.{FindsFrameGreatest, HoldsFrameBounds};
ghost use Rattle.mp_frame_run.specs.FrameNow.{StandsFramed};
ghost use Rattle.mp_frame_run.specs.Framed.{HasLowQueues, IsFramed, IsRefused, open_fault};
ghost use Rattle.mp_frame_run.specs.Running.{IsAtOpening};

use crate::choosing::stage_of;
use crate::frame::{Frame, frame_period, no_frame};
use mp_cert::{Cert, CertFault, check, slack};
use mp_flow::{CalcFault, Place};
use mp_frame::frame_bounds;
use mp_net::{JunctionNo, MovementNo, Net, StageNo};
use mp_num::{Frac, Numbers};
use mp_step::{AboveAt, State};
use std::alloc::Global;
use std::marker::Model;

// The bound of the movement, in a list of one per movement.
fn bound_at(bounds: &[i128], k: MovementNo) -> i128
    requires { (1 ≤ k) × (k ≤ length bounds.now) }
    ensures { result ≡ slice_index_or bounds.now (k - 1) (pos 0) }
{
    bounds[usize::from(k) - 1]
}

/// Why a session by frames can't be opened.
#[derive(Clone, Copy, Debug, PartialEq, Eq)]
pub enum FrameOpen {
    /// The certificate is not accepted for the frame network: the first rule that it breaks, or a
    /// calculation that exceeds 128 bits.
    Cert(CertFault),
    /// The calculation of the bounds exceeds 128 bits.
    Bound,
    /// A bound is above 2^62.
    Room,
    /// There was no memory.
    NoMemory,
}

// The fault of the bounds, as that of an opening; they have no others than these.
fn open_fault(fault: CalcFault) -> FrameOpen
    ensures { result ≡ open_fault fault }
{
    match fault {
        CalcFault::Overflow(Place::Bound) => FrameOpen::Bound,
        CalcFault::Overflow(Place::Room) => FrameOpen::Room,
        _ => FrameOpen::NoMemory,
    }
}

/// A run by frames on a network with a checked certificate of its frame network.
///
/// At the beginning of each frame the junctions take their stages of greatest pressure for all its
/// periods, and a junction that changes its stage loses the first of them. Its type keeps the drift
/// theorem (Tassiulas and Ephremides 1992) over frames: at the beginning of each the drift value is at
/// most its greatest, and so each queue is at most its bound, within frames too.
#[derive(Drop)]
pub struct FrameSession<'a> {
    net: &'a Net,
    f: u32,
    slack: Frac,
    bound: Numbers,
    state: State,
    frame: Frame,
}

impl<'a> Model for FrameSession<'a> {
    ghost use Rattle.mp_frame_run.specs.Framed.{Framed};
    ghost use Rattle.mp_frame_run.specs.FramedView.{framed_of, IsSession};

    ghost Value = { Framed };

    ghost view = { framed_of };

    ghost invariant = { IsSession };
}

impl<'a> FrameSession<'a> {
    /// Checks the certificate of the frame network, finds the bounds of frames for its slack, and
    /// stands at the opening of a run by frames of `f` periods.
    ///
    /// A fault of the certificate comes exactly where the check has it, and one of a bound exactly where
    /// the check accepts the certificate and the bounds have the fault.
    pub fn open(
        alloc: Global,
        net: &'a Net,
        f: u32,
        framed: &Net,
        cert: &Cert,
    ) -> Result<FrameSession<'a>, FrameOpen>
        requires frames { (2 ≤ f) × (f ≤ 60) }
        requires framed { framed.now ≡ frame_network net.now f }
        requires lengths { HasLengths framed.now (cert_of cert.now) }
        ensures net { IfOk result (λ s. s.net ≡ net.now) }
        ensures frames { IfOk result (λ s. s.periods ≡ f) }
        ensures checked { OnOk result (IsAccepted framed.now (cert_of cert.now)) }
        ensures certifies { OnOk result (Certifies framed.now (cert_of cert.now)) }
        ensures slack { IfOk result (λ s. IsSlack (cert_of cert.now) (numerator s.slack) (denominator s.slack)) }
        ensures found { IfOk result (λ s. FindsFrameGreatest net.now f (numerator s.slack) (denominator s.slack)) }
        ensures bounds { IfOk result (λ s. HoldsFrameBounds net.now f (numerator s.slack) (denominator s.slack) s.bounds) }
        ensures opening { IfOk result IsAtOpening }
        ensures refused { IfErr result (IsRefused net.now f (cert_of cert.now)) }
    {
        let _ = net.shares();
        if let Err(fault) = check(framed, cert) {
            return Err(FrameOpen::Cert(fault));
        }
        let slack = slack(cert);
        let bound = match frame_bounds(alloc, net, f, &slack) {
            Ok(found) => found.bound,
            Err(fault) => return Err(open_fault(fault)),
        };
        let Ok(state) = State::empty(alloc, net) else {
            return Err(FrameOpen::NoMemory);
        };
        let Ok(frame) = no_frame(alloc, net, &state) else {
            return Err(FrameOpen::NoMemory);
        };
        Ok(FrameSession {
            net,
            f,
            slack,
            bound,
            state,
            frame,
        })
    }

    /// The network of the run.
    pub fn net(&self) -> &Net
        ensures { result.now ≡ self.now.net }
    {
        self.net
    }

    /// How many periods a frame has.
    pub fn periods(&self) -> u32
        ensures { result ≡ self.now.periods }
    {
        self.f
    }

    /// The slack of the certificate of the frame network, in vehicles per period.
    pub fn slack(&self) -> &Frac
        ensures { result.now ≡ self.now.slack }
    {
        &self.slack
    }

    /// The bounds of the queues, one per movement in movement order.
    pub fn bounds(&self) -> &[i128]
        ensures { result.now ≡ self.now.bounds }
    {
        self.bound.as_slice()
    }

    /// The most vehicles that the movement ever has queued.
    pub fn bound(&self, k: MovementNo) -> i128
        requires { (1 ≤ k) × (k ≤ length self.now.net.movements) }
        ensures value { result ≡ slice_index_or self.now.bounds (k - 1) (pos 0) }
        ensures holds { entry self.now.at.queues k ≤ unsigned_abs result }
    {
        bound_at(self.bound.as_slice(), k)
    }

    /// Where the run stands.
    pub fn state(&self) -> &State
        ensures value { result.now ≡ self.now.at }
        ensures framed { IsFramed self.now }
        ensures bounded { HasLowQueues self.now }
    {
        &self.state
    }

    /// The stages of the frame of the last period, one per junction, and 0 before the first period.
    pub fn stages(&self) -> &[StageNo]
        ensures value { result.now ≡ self.now.frame.stages }
        ensures len { length result.now ≡ length self.now.net.junctions }
    {
        &self.frame.stages
    }

    /// The stage of the junction in the frame of the last period, and 0 before the first period.
    pub fn stage(&self, j: JunctionNo) -> StageNo
        requires { (1 ≤ j) × (j ≤ length self.now.net.junctions) }
        ensures { result ≡ entry self.now.frame.stages j }
    {
        stage_of(&self.frame.stages, j)
    }

    /// One period in which these many vehicles arrive, one count of at most 9 digits per fed link.
    ///
    /// Where it begins a frame, each junction takes its stage of greatest pressure, the lowest on ties
    /// (Varaiya 2013), and loses the period where this is not its stage of the frame before. In all
    /// other periods of the frame the movements pass that have green and had a positive weight at its
    /// beginning.
    ///
    /// `AboveAt` comes exactly where some fed link would be above its bucket: it names the least, and
    /// the session stays as it was, its frame too. A period takes no memory.
    pub fn period(&mut self, arrivals: &[u64]) -> Result<(), AboveAt>
        requires counts { HasCounts self.old.net arrivals.now }
        requires digits { All (λ a. a < 10 ^ 9) arrivals.now }
        requires period { self.old.at.period < MOST_LINES }
        ensures excess { IfErr result (λ above. (A : List (List ℕ)) → HasTaken self.old.net self.old.at A → IsFirstAbove self.old.net A arrivals.now above.link) }
        ensures stays { OnErr result (self.new ≡ self.old) }
        ensures taken { OnOk result ((A : List (List ℕ)) → HasTaken self.old.net self.old.at A → HasTaken self.old.net self.new.at (A ++ arrivals.now ∷ [])) }
        ensures step { OnOk result ((now : FramedState) → StandsFramed self.old.net self.old.periods self.old.at self.old.frame now → StandsFramed self.old.net self.old.periods self.new.at self.new.frame (framed_advance self.old.net self.old.periods arrivals.now now)) }
        ensures stages { OnOk result (AreStages self.old.net.junctions self.new.frame.stages) }
        ensures period { OnOk result (self.new.at.period ≡ self.old.at.period + 1) }
        ensures same { self.new ≡ record self.old { at = self.new.at; frame = self.new.frame } }
    {
        let _ = self.net.shares();
        frame_period(self.net, self.f, &mut self.frame, &mut self.state, arrivals)
    }
}
