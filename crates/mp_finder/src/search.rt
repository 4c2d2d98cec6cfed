//! The finder of a guard.
ghost use Rattle.std.specs.Prelude.{◌≡◌, ◌≤◌, ◌<◌, ◌≤ℤ◌, ◌^◌, All, IfErr, IfOk, [], length, map, pos, unsigned_abs};
ghost use Rattle.mp_cert.specs.Views.{cert_of, mix_of};
ghost use Rattle.mp_model.specs.Certificate.{mix_at, MeetsRules};
ghost use Rattle.mp_model.specs.Guard.{Guards};
ghost use Rattle.mp_model.specs.Network.{junction_numbers};
ghost use Rattle.mp_model.specs.NetworkRules.{IsAcceptable};
ghost use Rattle.mp_finder.specs.Finding.{finding, found_by, AreLeast, HasNoGuard, IsAsked};
ghost use Rattle.mp_finder.specs.Greens.{all_wanted, greens_by};
ghost use Rattle.mp_finder.specs.Giving.{GivesFinding, GivesGreens};

use crate::FindFault;
use crate::greens::greens_by;
use crate::wants::all_wants;
use mp_cert::{Cert, Mix};
use mp_guard::Guard;
use mp_guard::greens::taken;
use mp_net::{JunctionNo, Net};
use mp_scaled::{ScaleFault, try_excess};
use std::alloc::{AllocError, Global};

/// The rates of the certificate.
#[tactic(auto, using(crate::proofs::Lists::copying))]
fn rates_of(alloc: Global, cert: &Cert) -> Result<Vec<u128>, AllocError>
    ensures { IfOk result (λ rates. rates.items ≡ map unsigned_abs cert.now.h) }
{
    let mut rates = Vec::new(alloc);
    for rate in cert.h.as_slice() {
        rates.push(rate.unsigned_abs())?;
    }
    Ok(rates)
}

/// The mix of the junction.
fn mix_at(cert: &Cert, j: JunctionNo) -> &Mix
    requires { (1 ≤ j) × (j ≤ length cert.now.mix) }
    ensures mix { mix_of result.now ≡ mix_at (cert_of cert.now) j }
    ensures parts { result.now.parts ≡ (mix_at (cert_of cert.now) j).parts }
{
    &cert.mix.as_slice()[usize::from(j) - 1]
}

/// The greens of the junction, or why the finder ends there.
fn greens_at(
    alloc: Global,
    net: &Net,
    cycle: u32,
    lost: u32,
    d: u32,
    wants: &[u128],
    cert: &Cert,
    j: JunctionNo,
) -> Result<Vec<u128>, FindFault>
    requires acceptable { IsAcceptable net.now }
    requires cycle { cycle ≤ 3600 }
    requires lost { lost ≤ 1 }
    requires denominator { 1 ≤ d }
    requires wants { length wants.now ≡ length net.now.movements }
    requires wants_few { All (λ n. n ≤ 10 ^ 20) wants.now }
    requires junction { (1 ≤ j) × (j ≤ length net.now.junctions) }
    requires rules { MeetsRules net.now (cert_of cert.now) }
    requires over { cert.now.d ≡ pos d }
    requires excess { pos 0 ≤ℤ cert.now.e }
    ensures { GivesGreens cycle lost j (greens_by net.now cycle d wants.now j (mix_at (cert_of cert.now) j)) result }
{
    match greens_by(alloc, net, cycle, d, wants, j, mix_at(cert, j)) {
        Ok(Some(greens)) => {
            if taken(u128::from(lost), &greens) <= u128::from(cycle) {
                Ok(greens)
            } else {
                Err(FindFault::Full { junction: j })
            }
        }
        Ok(None) => Err(FindFault::Overflow(j)),
        Err(_) => Err(FindFault::NoMemory),
    }
}

/// The rates of the certificate with the greens of all junctions, or why the finder ends at one.
#[tactic(auto, using(crate::proofs::Finding::going))]
fn find_greens(
    alloc: Global,
    net: &Net,
    cycle: u32,
    lost: u32,
    d: u32,
    cert: &Cert,
) -> Result<Guard, FindFault>
    requires acceptable { IsAcceptable net.now }
    requires cycle { cycle ≤ 3600 }
    requires lost { lost ≤ 1 }
    requires denominator { (1 ≤ d) × (d < 10 ^ 9) }
    requires rules { MeetsRules net.now (cert_of cert.now) }
    requires over { cert.now.d ≡ pos d }
    requires excess { pos 0 ≤ℤ cert.now.e }
    requires few { All (λ rate. rate ≤ 10 ^ 12) (map unsigned_abs cert.now.h) }
    ensures calculation { GivesFinding result (found_by net.now cycle lost d (cert_of cert.now) (map unsigned_abs cert.now.h) [] (junction_numbers net.now)) }
    ensures numbers { IfOk result (IsAsked cycle lost d) }
{
    let Ok(rates) = rates_of(alloc, cert) else {
        return Err(FindFault::NoMemory);
    };
    let Ok(wants) = all_wants(alloc, net, cycle, d, &rates) else {
        return Err(FindFault::NoMemory);
    };
    let mut greens = Vec::new(alloc);
    for j in 0..net.junctions() {
        match greens_at(alloc, net, cycle, lost, d, &wants, cert, j + 1) {
            Ok(own) => {
                let Ok(()) = greens.push(own) else {
                    return Err(FindFault::NoMemory);
                };
            }
            Err(fault) => return Err(fault),
        }
    }
    let (cycle, lost, d) = (u128::from(cycle), u128::from(lost), u128::from(d));
    Ok(Guard::new(cycle, lost, d, rates, greens))
}

/// The guard of the network with a cycle of so many periods, of which each change of stage loses `lost`, and the
/// denominator `d`.
///
/// Its rates are the least that carry what comes: those of the trial of the excess 0. `NoRates` comes exactly where that
/// trial is unfit, `Sweeps` exactly where it ends neither way within its limit of sweeps, and `Overflow` and `PivotLimit`
/// exactly where a junction ends it so. Then come the greens, junction by junction: `Overflow` exactly where a product for
/// them exceeds 128 bits, and `Full` exactly where they and the lost periods don't fit into the cycle. `NoMemory` comes
/// only where memory ran out.
pub fn find(alloc: Global, net: &Net, cycle: u32, lost: u32, d: u32) -> Result<Guard, FindFault>
    requires cycle { (1 ≤ cycle) × (cycle ≤ 3600) }
    requires lost { lost ≤ 1 }
    requires denominator { (1 ≤ d) × (d < 10 ^ 9) }
    ensures calculation { GivesFinding result (finding net.now cycle lost d) }
    ensures numbers { IfOk result (IsAsked cycle lost d) }
    ensures guards { IfOk result (Guards net.now) }
    ensures least { IfOk result (λ guard. AreLeast net.now d guard.rates) }
    ensures none { IfErr result (λ fault. fault ≡ FindFault.NoRates → HasNoGuard net.now d) }
{
    // A network's share total comes with what its rules say.
    let _shares = net.shares();
    match try_excess(alloc, net, d, 0) {
        Ok(Some(cert)) => find_greens(alloc, net, cycle, lost, d, &cert),
        Ok(None) => Err(FindFault::NoRates),
        Err(ScaleFault::Sweeps { .. }) => Err(FindFault::Sweeps),
        Err(ScaleFault::Overflow(j)) => Err(FindFault::Overflow(j)),
        Err(ScaleFault::PivotLimit(j)) => Err(FindFault::PivotLimit(j)),
        Err(ScaleFault::NoMemory) => Err(FindFault::NoMemory),
    }
}
