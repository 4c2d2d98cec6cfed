//! The check of a certificate: its rules, one after the other.
ghost use Rattle.std.specs.Prelude.{◌≡◌, ◌≤◌, ◌↔◌, length, IsOk, IfErr, IsOkUnless};
ghost use Rattle.std.specs.List.{AllByRecursion};
ghost use Rattle.mp_model.specs.Network.{junction_at, movement_numbers, junction_numbers, stage_numbers};
ghost use Rattle.mp_model.specs.NetworkRules.{IsAcceptable};
ghost use Rattle.mp_model.specs.Certificate.{HasLengths, Certifies};
ghost use Rattle.mp_cert.specs.Checking.{mix_rules, rules_of, outcome_of, first_of, tried, check_outcome};
ghost use Rattle.mp_cert.specs.FirstBroken.{IsFirstFault, IsFormed};
ghost use Rattle.mp_cert.specs.Views.{cert_of};

use crate::rules::{balance_holds, mass_holds, mix_at, part, rate, serve_holds};
use crate::{Cert, CertFault};
use mp_net::{JunctionNo, MovementNo, Net, StageNo};

/// The outcome of a rule, where it is known whether it holds.
fn outcome(rule: CertFault, holds: Option<bool>) -> Result<(), CertFault>
    ensures { result ≡ outcome_of rule holds }
{
    match holds {
        Some(true) => Ok(()),
        Some(false) => Err(rule),
        None => Err(CertFault::Overflow),
    }
}

fn check_denominator(net: &Net, cert: &Cert) -> Result<(), CertFault>
    ensures { result ≡ tried net.now (cert_of cert.now) CertFault.D }
{
    outcome(CertFault::D, Some(cert.d >= 1))
}

fn check_excess(net: &Net, cert: &Cert) -> Result<(), CertFault>
    ensures { result ≡ tried net.now (cert_of cert.now) CertFault.E }
{
    outcome(CertFault::E, Some(cert.e >= 1))
}

fn check_rate(net: &Net, cert: &Cert, k: MovementNo) -> Result<(), CertFault>
    requires lengths { HasLengths net.now (cert_of cert.now) }
    requires movement { (1 ≤ k) × (k ≤ length net.now.movements) }
    ensures { result ≡ tried net.now (cert_of cert.now) (CertFault.H k) }
{
    outcome(CertFault::H(k), Some(rate(cert, k) >= 0))
}

fn check_whole(net: &Net, cert: &Cert, j: JunctionNo) -> Result<(), CertFault>
    requires lengths { HasLengths net.now (cert_of cert.now) }
    requires junction { (1 ≤ j) × (j ≤ length net.now.junctions) }
    ensures { result ≡ tried net.now (cert_of cert.now) (CertFault.Whole j) }
{
    outcome(CertFault::Whole(j), Some(mix_at(cert, j).whole >= 1))
}

fn check_part(net: &Net, cert: &Cert, j: JunctionNo, s: StageNo) -> Result<(), CertFault>
    requires lengths { HasLengths net.now (cert_of cert.now) }
    requires junction { (1 ≤ j) × (j ≤ length net.now.junctions) }
    requires stage { (1 ≤ s) × (s ≤ length (junction_at net.now j).stages) }
    ensures { result ≡ tried net.now (cert_of cert.now) (CertFault.Part j s) }
{
    outcome(CertFault::Part(j, s), Some(part(net, cert, j, s) >= 0))
}

fn check_mass(net: &Net, cert: &Cert, j: JunctionNo) -> Result<(), CertFault>
    requires lengths { HasLengths net.now (cert_of cert.now) }
    requires junction { (1 ≤ j) × (j ≤ length net.now.junctions) }
    ensures { result ≡ tried net.now (cert_of cert.now) (CertFault.Mass j) }
{
    outcome(CertFault::Mass(j), mass_holds(cert, j))
}

fn check_serve(net: &Net, cert: &Cert, k: MovementNo) -> Result<(), CertFault>
    requires acceptable { IsAcceptable net.now }
    requires lengths { HasLengths net.now (cert_of cert.now) }
    requires movement { (1 ≤ k) × (k ≤ length net.now.movements) }
    ensures { result ≡ tried net.now (cert_of cert.now) (CertFault.Serve k) }
{
    outcome(CertFault::Serve(k), serve_holds(net, cert, k))
}

fn check_balance(net: &Net, cert: &Cert, k: MovementNo) -> Result<(), CertFault>
    requires acceptable { IsAcceptable net.now }
    requires lengths { HasLengths net.now (cert_of cert.now) }
    requires movement { (1 ≤ k) × (k ≤ length net.now.movements) }
    ensures { result ≡ tried net.now (cert_of cert.now) (CertFault.Balance k) }
{
    outcome(CertFault::Balance(k), balance_holds(net, cert, k))
}

/// Each rate is at least 0.
#[tactic(auto, using(crate::proofs::FirstLemmas::firsts))]
fn check_rates(net: &Net, cert: &Cert) -> Result<(), CertFault>
    requires lengths { HasLengths net.now (cert_of cert.now) }
    ensures { result ≡ first_of (λ k. tried net.now (cert_of cert.now) (CertFault.H k)) (movement_numbers net.now) }
{
    for k in 0..net.movements() {
        check_rate(net, cert, k + 1)?;
    }
    Ok(())
}

/// Each part of the junction is at least 0.
#[tactic(auto, using(crate::proofs::FirstLemmas::firsts))]
fn check_parts(net: &Net, cert: &Cert, j: JunctionNo) -> Result<(), CertFault>
    requires lengths { HasLengths net.now (cert_of cert.now) }
    requires junction { (1 ≤ j) × (j ≤ length net.now.junctions) }
    ensures { result ≡ first_of (λ s. tried net.now (cert_of cert.now) (CertFault.Part j s)) (stage_numbers (junction_at net.now j)) }
{
    for s in 0..net.stages(j) {
        check_part(net, cert, j, s + 1)?;
    }
    Ok(())
}

/// The rules on the mix of the junction.
#[tactic(auto, using(crate::proofs::FirstLemmas::parts))]
fn check_mix(net: &Net, cert: &Cert, j: JunctionNo) -> Result<(), CertFault>
    requires lengths { HasLengths net.now (cert_of cert.now) }
    requires junction { (1 ≤ j) × (j ≤ length net.now.junctions) }
    ensures { result ≡ first_of (tried net.now (cert_of cert.now)) (mix_rules net.now j) }
{
    check_whole(net, cert, j)?;
    check_parts(net, cert, j)?;
    check_mass(net, cert, j)
}

/// The rules on the mix of each junction.
#[tactic(auto, using(crate::proofs::FirstLemmas::firsts))]
fn check_mixes(net: &Net, cert: &Cert) -> Result<(), CertFault>
    requires lengths { HasLengths net.now (cert_of cert.now) }
    ensures { result ≡ first_of (λ j. first_of (tried net.now (cert_of cert.now)) (mix_rules net.now j)) (junction_numbers net.now) }
{
    for j in 0..net.junctions() {
        check_mix(net, cert, j + 1)?;
    }
    Ok(())
}

/// Each movement is served.
#[tactic(auto, using(crate::proofs::FirstLemmas::firsts))]
fn check_serves(net: &Net, cert: &Cert) -> Result<(), CertFault>
    requires acceptable { IsAcceptable net.now }
    requires lengths { HasLengths net.now (cert_of cert.now) }
    ensures { result ≡ first_of (λ k. tried net.now (cert_of cert.now) (CertFault.Serve k)) (movement_numbers net.now) }
{
    for k in 0..net.movements() {
        check_serve(net, cert, k + 1)?;
    }
    Ok(())
}

/// Each movement is in balance.
#[tactic(auto, using(crate::proofs::FirstLemmas::firsts))]
fn check_balances(net: &Net, cert: &Cert) -> Result<(), CertFault>
    requires acceptable { IsAcceptable net.now }
    requires lengths { HasLengths net.now (cert_of cert.now) }
    ensures { result ≡ first_of (λ k. tried net.now (cert_of cert.now) (CertFault.Balance k)) (movement_numbers net.now) }
{
    for k in 0..net.movements() {
        check_balance(net, cert, k + 1)?;
    }
    Ok(())
}

/// Tries all rules in order.
#[tactic(auto, using(crate::proofs::FirstLemmas::rules))]
fn try_rules(net: &Net, cert: &Cert) -> Result<(), CertFault>
    requires acceptable { IsAcceptable net.now }
    requires lengths { HasLengths net.now (cert_of cert.now) }
    ensures { result ≡ check_outcome net.now (cert_of cert.now) }
{
    check_denominator(net, cert)?;
    check_excess(net, cert)?;
    check_rates(net, cert)?;
    check_mixes(net, cert)?;
    check_serves(net, cert)?;
    check_balances(net, cert)
}

/// Checks a certificate that has the network's lengths.
///
/// The fault is the first rule that is broken, in the order in which `CertFault` lists them (the rules on a mix
/// junction by junction), or an overflow where a calculation of a rule exceeds 128 bits before that.
pub fn check(net: &Net, cert: &Cert) -> Result<(), CertFault>
    requires { HasLengths net.now (cert_of cert.now) }
    ensures outcome { result ≡ check_outcome net.now (cert_of cert.now) }
    ensures accepts { IsOk result ↔ (Certifies net.now (cert_of cert.now) × AllByRecursion (IsFormed net.now (cert_of cert.now)) (rules_of net.now)) }
    ensures first { IfErr result (IsFirstFault net.now (cert_of cert.now)) }
    ensures complete { Certifies net.now (cert_of cert.now) → IsOkUnless result CertFault.Overflow }
{
    let _shares = net.shares();
    try_rules(net, cert)
}
