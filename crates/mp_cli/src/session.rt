//! The certificate that a network is admitted with, and the opening of sessions under one.
ghost use Rattle.std.specs.Prelude.{◌≡◌, IfOk, IfErr, OnOk, []};
ghost use Rattle.mp_model.specs.Certificate.{HasLengths, Certifies};
ghost use Rattle.mp_model.specs.EventCore.{core_opening};
ghost use Rattle.mp_model.specs.Run.{opening};
ghost use Rattle.mp_model.specs.Slack.{IsSlack};
ghost use Rattle.mp_cert.specs.Views.{cert_of};
ghost use Rattle.mp_num.specs.Fraction.{numerator, denominator};
ghost use Rattle.mp_drift.specs.Bounded.{FindsGreatest};
ghost use Rattle.mp_drift.specs.Session.{IsAccepted};
ghost use Rattle.mp_round.specs.RoundView.{core_of};
ghost use Rattle.mp_step.specs.Standing.{Stands};
ghost use Rattle.mp_step.specs.Taken.{HasTaken};
ghost use Rattle.mp_cli.specs.Outcomes.{outcome_of_fault, outcome_of_calculation, outcome_of_opening};
ghost use Rattle.mp_cli.specs.Statuses.{HasNoFault};
ghost use Rattle.mp_cli.specs.Sessions.{IsUnaccepted};
ghost use Rattle.mp_cli.specs.Verdicts.{IsUnadmitted, OfAdmitted};

use crate::outcome::{Outcome, broken_rule};
use mp_admit::{Verdict, admit};
use mp_cert::{Cert, CertFault};
use mp_drift::OpenFault;
use mp_flow::{CalcFault, Place};
use mp_net::Net;
use mp_session::Session;
use std::alloc::Global;

/// The outcome of a certificate that is not accepted.
pub fn outcome_of_fault(fault: CertFault) -> Outcome
    ensures { result ≡ outcome_of_fault fault }
{
    match broken_rule(fault) {
        Some(rule) => Outcome::Certificate(rule),
        None => Outcome::Overflow(Place::Certificate),
    }
}

/// The outcome of a calculation that has no result.
pub fn outcome_of_calculation(fault: CalcFault) -> Outcome
    ensures { result ≡ outcome_of_calculation fault }
{
    match fault {
        CalcFault::Overflow(place) => Outcome::Overflow(place),
        CalcFault::PivotLimit(j) => Outcome::PivotLimit(j),
        CalcFault::NoMemory => Outcome::NoMemory,
    }
}

// The outcome of a session that was not opened.
fn outcome_of_opening(fault: OpenFault) -> Outcome
    ensures { result ≡ outcome_of_opening fault }
{
    match fault {
        OpenFault::Cert(broken) => outcome_of_fault(broken),
        OpenFault::Calc(broken) => outcome_of_calculation(broken),
        OpenFault::NoMemory => Outcome::NoMemory,
    }
}

/// The certificate of the greatest slack, or why the network has none.
pub fn admitted(alloc: Global, net: &Net) -> Result<Cert, Outcome>
    ensures admitted { IfOk result (λ cert. OfAdmitted net.now (λ c. c ≡ cert_of cert)) }
    ensures lengths { IfOk result (λ cert. HasLengths net.now (cert_of cert)) }
    ensures refused { IfErr result (λ outcome. IsUnadmitted outcome net.now) }
    ensures inside { IfErr result HasNoFault }
{
    // A network's share total comes with what its rules say.
    let _ = net.shares();
    match admit(alloc, net) {
        Ok(Verdict::Admitted { cert, .. }) => Ok(cert),
        Ok(Verdict::Critical { against }) => Err(Outcome::Critical(against)),
        Ok(Verdict::Overloaded { against }) => Err(Outcome::Overloaded(against)),
        Err(fault) => Err(outcome_of_calculation(fault)),
    }
}

/// Opens a session under a certificate.
pub fn open_session<'a>(alloc: Global, net: &'a Net, cert: &Cert) -> Result<Session<'a>, Outcome>
    requires { HasLengths net.now (cert_of cert.now) }
    ensures net { IfOk result (λ s. s.net ≡ net.now) }
    ensures checked { OnOk result (IsAccepted net.now (cert_of cert.now)) }
    ensures certifies { IfOk result (λ s. Certifies net.now (cert_of cert.now)) }
    ensures slack { IfOk result (λ s. IsSlack (cert_of cert.now) (numerator s.slack) (denominator s.slack)) }
    ensures found { IfOk result (λ s. FindsGreatest net.now (numerator s.slack) (denominator s.slack)) }
    ensures opening { IfOk result (λ s. core_of s.round ≡ core_opening net.now) }
    ensures stands { IfOk result (λ s. Stands net.now s.round.standing (opening net.now)) }
    ensures taken { IfOk result (λ s. HasTaken net.now s.round.standing []) }
    ensures refused { IfErr result (λ outcome. IsUnaccepted outcome net.now (cert_of cert.now)) }
    ensures inside { IfErr result HasNoFault }
{
    match Session::open(alloc, net, cert) {
        Ok(session) => Ok(session),
        Err(fault) => Err(outcome_of_opening(fault)),
    }
}
