//! A run by events whose queues stay within their bounds.
ghost use Rattle.std.specs.Prelude.{◌≡◌, ◌≤◌, ◌-◌, [], List, ℕ, IfOk, IfErr, OnOk, OnErr, length, slice_index_or, pos, unsigned_abs};
ghost use Rattle.mp_model.specs.Certificate.{HasLengths, Certifies};
ghost use Rattle.mp_model.specs.EventCore.{apply, all_lacking, arrivals_events, core_after, core_opening};
ghost use Rattle.mp_model.specs.EventCore.Event.{close};
ghost use Rattle.mp_model.specs.Network.{entry};
ghost use Rattle.mp_model.specs.Run.{greatest_stages, opening};
ghost use Rattle.mp_model.specs.Slack.{IsSlack};
ghost use Rattle.mp_laws.specs.Buckets.{IsFirstAbove};
ghost use Rattle.mp_cert.specs.Views.{cert_of};
ghost use Rattle.mp_step.specs.Standing.{Stands};
ghost use Rattle.mp_step.specs.Taken.{HasTaken};
ghost use Rattle.mp_num.specs.Fraction.{numerator, denominator};
ghost use Rattle.mp_drift.specs.Bounded.{FindsGreatest};
ghost use Rattle.mp_drift.specs.Session.{IsAccepted, IsRefused, open_fault};
ghost use Rattle.mp_round.specs.Advancing.{Advances};
ghost use Rattle.mp_round.specs.Events.{answer_of, closing_answer, event_of, CanApply, CanClose};
ghost use Rattle.mp_round.specs.RoundView.{core_of};
ghost use Rattle.mp_session.specs.SessionView.{IsBounded, StaysBounded};

use mp_cert::{Cert, check, slack};
use mp_drift::{OpenFault, bounds, constants};
use mp_flow::CalcFault;
use mp_net::{JunctionNo, MovementNo, Net, StageNo};
use mp_num::{Frac, Numbers};
use mp_round::{Answer, Event, Round};
use mp_step::{AboveAt, State};
use std::alloc::Global;
use std::marker::Model;

// The bound of the movement, in a list of one per movement.
fn bound_at(bounds: &[i128], k: MovementNo) -> i128
    requires { (1 ≤ k) × (k ≤ length bounds.now) }
    ensures { result ≡ slice_index_or bounds.now (k - 1) (pos 0) }
{
    bounds[usize::from(k) - 1]
}

// The fault of the bounds, as that of an opening.
fn open_fault(fault: CalcFault) -> OpenFault
    ensures { result ≡ open_fault fault }
{
    match fault {
        CalcFault::NoMemory => OpenFault::NoMemory,
        _ => OpenFault::Calc(fault),
    }
}

/// A run by events of max-pressure control on a network with a checked certificate.
///
/// Its type keeps the drift theorem (Tassiulas and Ephremides 1992): whatever junctions heard and decided, also by
/// reports that are as old as the delay allows, each queue is at most its bound.
#[derive(Drop)]
pub struct Session<'a> {
    net: &'a Net,
    slack: Frac,
    bound: Numbers,
    round: Round,
}

impl<'a> Model for Session<'a> {
    ghost use Rattle.mp_session.specs.SessionView.{SessionView};
    ghost use Rattle.mp_session.specs.Showing.{shown_of, IsSession};

    ghost Value = { SessionView };

    ghost view = { shown_of };

    ghost invariant = { IsSession };
}

impl<'a> Session<'a> {
    /// Checks the certificate, finds the bounds for its slack, and stands at the opening of a run.
    ///
    /// A fault of the certificate comes exactly where the check has it, and one of a bound exactly where the check
    /// accepts the certificate and the bounds have the fault. No other call takes memory.
    pub fn open(alloc: Global, net: &'a Net, cert: &Cert) -> Result<Session<'a>, OpenFault>
        requires { HasLengths net.now (cert_of cert.now) }
        ensures net { IfOk result (λ s. s.net ≡ net.now) }
        ensures checked { OnOk result (IsAccepted net.now (cert_of cert.now)) }
        ensures certifies { IfOk result (λ s. Certifies net.now (cert_of cert.now)) }
        ensures slack { IfOk result (λ s. IsSlack (cert_of cert.now) (numerator s.slack) (denominator s.slack)) }
        ensures found { IfOk result (λ s. FindsGreatest net.now (numerator s.slack) (denominator s.slack)) }
        ensures opening { IfOk result (λ s. core_of s.round ≡ core_opening net.now) }
        ensures stands { IfOk result (λ s. Stands net.now s.round.standing (opening net.now)) }
        ensures taken { IfOk result (λ s. HasTaken net.now s.round.standing []) }
        ensures refused { IfErr result (IsRefused net.now (cert_of cert.now)) }
    {
        let _ = net.shares();
        if let Err(fault) = check(net, cert) {
            return Err(OpenFault::Cert(fault));
        }
        let slack = slack(cert);
        let Ok(constants) = constants(alloc, net) else {
            return Err(OpenFault::NoMemory);
        };
        let bound = match bounds(alloc, net, &constants, &slack) {
            Ok(found) => found.bound,
            Err(fault) => return Err(open_fault(fault)),
        };
        let Ok(round) = Round::new(alloc, net) else {
            return Err(OpenFault::NoMemory);
        };
        Ok(Session {
            net,
            slack,
            bound,
            round,
        })
    }

    /// The network of the run.
    pub fn net(&self) -> &Net
        ensures { result.now ≡ self.now.net }
    {
        self.net
    }

    /// The slack of the certificate, in vehicles per period.
    pub fn slack(&self) -> &Frac
        ensures { result.now ≡ self.now.slack }
    {
        &self.slack
    }

    /// The bounds of the queues, one per movement in movement order.
    pub fn bounds(&self) -> &[i128]
        ensures { result.now ≡ self.now.bounds }
    {
        self.bound.as_slice()
    }

    /// The most vehicles that the movement ever has queued.
    pub fn bound(&self, k: MovementNo) -> i128
        requires { (1 ≤ k) × (k ≤ length self.now.net.movements) }
        ensures value { result ≡ slice_index_or self.now.bounds (k - 1) (pos 0) }
        ensures holds { entry self.now.round.standing.queues k ≤ unsigned_abs result }
    {
        bound_at(self.bound.as_slice(), k)
    }

    /// Where the run stands within a period.
    pub fn round(&self) -> &Round
        ensures value { result.now ≡ self.now.round }
        ensures kept { IsBounded self.now }
        ensures bounded { StaysBounded self.now }
    {
        &self.round
    }

    /// Where the run stands.
    pub fn state(&self) -> &State
        ensures { result.now ≡ self.now.round.standing }
    {
        self.round.state()
    }

    /// The stages of the last closed period, one per junction; none where no period has closed.
    pub fn stages(&self) -> &[StageNo]
        ensures { result.now ≡ self.now.round.last }
    {
        self.round.stages()
    }

    /// The stage of the junction in the last closed period.
    pub fn stage(&self, j: JunctionNo) -> StageNo
        requires { (1 ≤ j) × (j ≤ length self.now.round.last) }
        ensures { result ≡ entry self.now.round.last j }
    {
        self.round.stage(j)
    }

    /// Applies an event: it does what it says, or nothing where it is refused, as a round does.
    pub fn apply(&mut self, ev: &Event) -> Answer
        requires can { CanApply self.old.net (core_of self.old.round) (event_of ev.now) }
        ensures applied { (answer_of result, core_of self.new.round) ≡ apply self.old.net (core_of self.old.round) (event_of ev.now) }
        ensures same { self.new ≡ record self.old { round = self.new.round } }
    {
        let _ = self.net.shares();
        self.round.apply(self.net, ev)
    }

    /// Performs the hearings and decisions that the period still lacks, and then closes it with these
    /// arrivals, one count of at most 9 digits per fed link.
    ///
    /// `AboveAt` comes exactly where some fed link would be above its bucket: it names the least, and the
    /// hearings and decisions stay. Where the delay is 0, a period closes with the stages of greatest pressure
    /// at the queues of now.
    pub fn close_all(&mut self, arrivals: &[u64]) -> Result<(), AboveAt>
        requires can { CanClose self.old.net (core_of self.old.round) arrivals.now }
        ensures core { core_of self.new.round ≡ core_after self.old.net (core_of self.old.round) (arrivals_events self.old.net (core_of self.old.round) arrivals.now) }
        ensures answer { closing_answer result ≡ (apply self.old.net (core_after self.old.net (core_of self.old.round) (all_lacking self.old.net (core_of self.old.round))) (close arrivals.now)).0 }
        ensures refused { OnErr result (core_of self.new.round ≡ core_after self.old.net (core_of self.old.round) (all_lacking self.old.net (core_of self.old.round))) }
        ensures stays { OnErr result (self.new.round.standing ≡ self.old.round.standing) }
        ensures excess { IfErr result (λ above. (A : List (List ℕ)) → HasTaken self.old.net self.old.round.standing A → IsFirstAbove self.old.net A arrivals.now above.link) }
        ensures advances { OnOk result (Advances self.old.net self.old.round.standing self.new.round.standing self.new.round.last arrivals.now) }
        ensures prompt { self.old.net.delay ≡ 0 → OnOk result (self.new.round.last ≡ greatest_stages self.old.net (entry self.old.round.standing.queues)) }
        ensures same { self.new ≡ record self.old { round = self.new.round } }
    {
        let _ = self.net.shares();
        self.round.close_all(self.net, arrivals)
    }
}
