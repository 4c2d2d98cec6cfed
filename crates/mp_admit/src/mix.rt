//! The certificate at the slack of the game's end: its rates, and a mix for each junction.
ghost use Rattle.std.specs.Prelude.{◌≡◌, ◌+◌, ◌≤◌, length, drop, map, IfOk};
ghost use Rattle.mp_model.specs.NetworkRules.{IsNetwork};
ghost use Rattle.mp_flow.specs.Systems.{AreFlows};
ghost use Rattle.mp_flow.specs.Calculating.{flows_of};
ghost use Rattle.mp_cert.specs.Views.{mix_of, cert_of};
ghost use Rattle.mp_verdict.specs.Rates.{rates_in};
ghost use Rattle.mp_verdict.specs.Mixes.{mixed, mixes, certificate_at};
ghost use Rattle.mp_verdict.specs.Stated.{Gives};
ghost use Rattle.mp_admit.specs.Mixings.{certified_with};

use crate::junction::optimum_at;
use crate::rates::rates_at;
use mp_cert::{Cert, Mix, Mixes};
use mp_flow::{CalcFault, FlowPair, Place};
use mp_net::{JunctionNo, Net};
use mp_num::{Frac, Numbers};
use mp_verdict::TURN_LIMIT;
use std::alloc::{AllocError, Global};

/// The mix of junction `j` at the rates: the dual of its program.
#[tactic(auto, using(crate::proofs::MixLemmas::mixing))]
fn mix_at(alloc: Global, net: &Net, j: JunctionNo, rates: &[i128]) -> Result<Mix, CalcFault>
    requires network { IsNetwork net.now }
    requires junction { (1 ≤ j) × (j ≤ length net.now.junctions) }
    requires rates { length rates.now ≡ 2 + length net.now.movements }
    ensures { Gives mix_of result (mixed net.now (rates_in rates.now) j) }
{
    match optimum_at(alloc, net, j, rates, TURN_LIMIT, Place::Mix(j)) {
        Ok(optimum) => Ok(Mix {
            whole: optimum.dual_den,
            parts: optimum.dual,
        }),
        Err(fault) => Err(fault),
    }
}

/// The mixes of all junctions in order.
#[tactic(auto, using(crate::proofs::MixLemmas::mixing))]
fn mixes_at(alloc: Global, net: &Net, rates: &[i128]) -> Result<Vec<Mix>, CalcFault>
    requires network { IsNetwork net.now }
    requires rates { length rates.now ≡ 2 + length net.now.movements }
    ensures { Gives (λ v. map mix_of v.items) result (mixes net.now (rates_in rates.now)) }
{
    let mut list = Vec::new(alloc);
    for j in 0..net.junctions() {
        let mix = match mix_at(alloc, net, j + 1, rates) {
            Ok(mix) => mix,
            Err(fault) => return Err(fault),
        };
        let Ok(()) = list.push(mix) else {
            return Err(CalcFault::NoMemory);
        };
    }
    Ok(list)
}

/// The rates of the movements behind the first two numbers.
fn movement_rates(alloc: Global, rates: &[i128]) -> Result<Numbers, AllocError>
    requires { 2 ≤ length rates.now }
    ensures { IfOk result (λ n. n ≡ drop 2 rates.now) }
{
    let mut numbers = Vec::new(alloc);
    numbers.extend_from_slice(&rates[2..])?;
    Ok(Numbers::new(numbers))
}

/// The certificate of the rates, with the mix of each junction.
#[tactic(auto, using(crate::proofs::MixLemmas::certifying))]
fn certificate_of(alloc: Global, net: &Net, rates: &[i128]) -> Result<Cert, CalcFault>
    requires network { IsNetwork net.now }
    requires rates { length rates.now ≡ 2 + length net.now.movements }
    ensures { Gives cert_of result (certified_with net.now (rates_in rates.now)) }
{
    let list = match mixes_at(alloc, net, rates) {
        Ok(list) => list,
        Err(fault) => return Err(fault),
    };
    let Ok(h) = movement_rates(alloc, rates) else {
        return Err(CalcFault::NoMemory);
    };
    Ok(Cert {
        d: rates[0],
        e: rates[1],
        h,
        mix: Mixes::new(list),
    })
}

/// The certificate at a slack, whose rates stand at the first junction's mix.
#[tactic(auto, using(crate::proofs::MixLemmas::certifying))]
pub fn certificate_at(
    alloc: Global,
    net: &Net,
    flows: &FlowPair,
    slack: &Frac,
) -> Result<Cert, CalcFault>
    requires network { IsNetwork net.now }
    requires flows { AreFlows net.now (flows_of flows.now) }
    ensures { Gives cert_of result (certificate_at net.now (flows_of flows.now) slack.now) }
{
    let rates = match rates_at(alloc, net, flows, slack, Place::Mix(1)) {
        Ok(rates) => rates,
        Err(fault) => return Err(fault),
    };
    certificate_of(alloc, net, &rates)
}
