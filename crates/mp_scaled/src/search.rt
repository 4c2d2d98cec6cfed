//! The search for the greatest excess over a denominator.
ghost use Rattle.std.specs.Prelude.{◌≡◌, ◌+◌, ◌*◌, ◌<◌, ◌≤◌, ◌^◌, IfOk, IfSome, IfNone, Result, Option, length, Ok, Err, Some, None};
ghost use Rattle.mp_cert.specs.Views.{cert_of};
ghost use Rattle.mp_model.specs.NetworkRules.{IsAcceptable};
ghost use Rattle.mp_trial.specs.Trials.{trial};
ghost use Rattle.mp_trial.specs.Search.{halved, least_flow, scaled, too_great, HasGreatestExcess, HasNone};
ghost use Rattle.mp_scaled.specs.Giving.{GivesFound, GivesScaled, GivesTrial};

use crate::ScaleFault;
use crate::serve::serve;
use crate::sweep::{Swept, sweep_all};
use mp_cert::Cert;
use mp_net::Net;
use std::alloc::{AllocError, Global};

/// So many zeros.
fn zeros(alloc: Global, count: u16) -> Result<Vec<u64>, AllocError>
    ensures { IfOk result (λ v. length v.items ≡ count) }
{
    let mut numbers = Vec::new(alloc);
    for _i in 0..count {
        numbers.push(0)?;
    }
    Ok(numbers)
}

/// The trial of the excess `e`, in buffers for the rates and for what comes to the links.
fn run_trial(
    alloc: Global,
    net: &Net,
    d: u64,
    e: u64,
    rates: &mut [u64],
    brought: &mut [u64],
) -> Result<Option<Cert>, ScaleFault>
    requires acceptable { IsAcceptable net.now }
    requires denominator { d ≤ 10 ^ 9 }
    requires excess { e ≤ 10 ^ 12 }
    requires size { length rates.old ≡ length net.now.movements }
    requires room { length brought.old ≡ length net.now.links }
    ensures { GivesTrial e result (trial net.now d e) }
{
    match sweep_all(net, d, e, rates, brought) {
        Swept::Above => Ok(None),
        Swept::Stable => serve(alloc, net, d, e, rates),
        Swept::Moving => Err(ScaleFault::Sweeps { e }),
    }
}

/// The trial of the excess `e` over the denominator `d`: the least rates that carry what comes to each movement and the
/// excess, with a mix for each junction that serves them, or none exactly where the trial is unfit.
///
/// `Sweeps` comes exactly where the trial ends neither way within its limit of sweeps, `Overflow` and `PivotLimit`
/// exactly where a junction ends it so. `NoMemory` comes only where memory ran out.
#[tactic(auto, using(crate::proofs::Searching::trying))]
pub fn try_excess(alloc: Global, net: &Net, d: u32, e: u64) -> Result<Option<Cert>, ScaleFault>
    requires denominator { d ≤ 10 ^ 9 }
    requires excess { e ≤ 10 ^ 12 }
    ensures { GivesTrial e result (trial net.now d e) }
{
    // A network's share total comes with what its rules say.
    let _shares = net.shares();
    let (Ok(mut rates), Ok(mut brought)) = (
        zeros(alloc, net.movements()),
        zeros(alloc, net.links()),
    ) else {
        return Err(ScaleFault::NoMemory);
    };
    run_trial(alloc, net, u64::from(d), e, &mut rates, &mut brought)
}

/// The least flow of the movements.
#[tactic(auto, using(crate::proofs::Leasts::leasting))]
fn least_flow(net: &Net) -> u64
    requires { IsAcceptable net.now }
    ensures value { result ≡ least_flow net.now.movements }
    ensures few { (1 ≤ result) × (result ≤ 1000) }
{
    let mut least = u64::from(net.movement(1).flow);
    for i in 0..net.movements() {
        least = least.min(u64::from(net.movement(i + 1).flow));
    }
    least
}

/// The least excess that is too great without a trial.
fn too_great(net: &Net, d: u32) -> u64
    requires acceptable { IsAcceptable net.now }
    requires denominator { d ≤ 10 ^ 9 }
    ensures value { result ≡ too_great net.now d }
    ensures few { (1 ≤ result) × (result ≤ 10 ^ 12 + 1) }
{
    u64::from(d) * least_flow(net) + 1
}

/// The certificate of the greatest excess below `limit` that fits, where that of 1 is given.
#[tactic(auto, using(crate::proofs::Searching::halving))]
fn halve(alloc: Global, net: &Net, d: u32, limit: u64, first: Cert) -> Result<Cert, ScaleFault>
    requires denominator { d ≤ 10 ^ 9 }
    requires limit { (1 ≤ limit) × (limit ≤ 10 ^ 12 + 1) }
    ensures { GivesFound result (halved net.now d limit 1 limit (cert_of first)) }
{
    let mut cert = first;
    let mut low = 1;
    let mut high = limit;
    while low + 1 < high {
        let middle = (low + high) / 2;
        match try_excess(alloc, net, d, middle) {
            Ok(Some(better)) => {
                cert = better;
                low = middle;
            }
            Ok(None) => high = middle,
            Err(fault) => return Err(fault),
        }
    }
    Ok(cert)
}

/// The search over the denominator `d`.
fn search(alloc: Global, net: &Net, d: u32) -> Result<Option<Cert>, ScaleFault>
    requires acceptable { IsAcceptable net.now }
    requires denominator { d ≤ 10 ^ 9 }
    ensures { GivesScaled result (scaled net.now d) }
{
    match try_excess(alloc, net, d, 1) {
        Ok(Some(first)) => {
            let limit = too_great(net, d);
            match halve(alloc, net, d, limit, first) {
                Ok(cert) => Ok(Some(cert)),
                Err(fault) => Err(fault),
            }
        }
        Ok(None) => Ok(None),
        Err(fault) => Err(fault),
    }
}

/// The certificate of the greatest excess over the denominator `d`, or none exactly where the network has no
/// certificate over it.
///
/// `Sweeps` comes exactly where a trial of the search ends neither way within its limit of sweeps, `Overflow` and
/// `PivotLimit` exactly where a junction ends the search so first. `NoMemory` comes only where memory ran out.
#[tactic(auto, using(crate::proofs::Searching::searching))]
pub fn greatest(alloc: Global, net: &Net, d: u32) -> Result<Option<Cert>, ScaleFault>
    requires { (1 ≤ d) × (d < 10 ^ 9) }
    ensures calculation { GivesScaled result (scaled net.now d) }
    ensures found { IfOk result (λ answer. IfSome answer (λ cert. HasGreatestExcess net.now d (cert_of cert))) }
    ensures none { IfOk result (λ answer. IfNone answer (HasNone net.now d)) }
{
    // A network's share total comes with what its rules say.
    let _shares = net.shares();
    search(alloc, net, d)
}
