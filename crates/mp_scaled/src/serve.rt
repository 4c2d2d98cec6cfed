//! Whether the junctions serve some rates over a denominator: a program for each.
ghost use Rattle.std.specs.Prelude.{◌≡◌, ◌∷◌, ◌+◌, ◌≤◌, length, map, pos, drop, IfOk, []};
ghost use Rattle.mp_model.specs.Network.{junction_at, junction_numbers};
ghost use Rattle.mp_model.specs.NetworkRules.{IsNetwork};
ghost use Rattle.mp_simplex.specs.Outcome.{maximised};
ghost use Rattle.mp_verdict.specs.declared.TheConstants.{TURN_LIMIT};
ghost use Rattle.mp_verdict.specs.Program.{program};
ghost use Rattle.mp_verdict.specs.Mixes as stated;
ghost use Rattle.mp_trial.specs.Trials.{is_above_whole, served_by};
ghost use Rattle.mp_cert.specs.Views.{cert_of, mix_of};
ghost use Rattle.mp_scaled.specs.Giving.{certificate_in, GivesMix, GivesTrial};

use crate::ScaleFault;
use mp_admit::optimum_at;
use mp_cert::{Cert, Mix, Mixes};
use mp_flow::{CalcFault, Place};
use mp_net::{JunctionNo, Net};
use mp_num::{Numbers, mul};
use mp_simplex::Optimum;
use mp_verdict::TURN_LIMIT;
use std::alloc::{AllocError, Global};

/// The denominator and the excess, and then the rates of the movements.
#[tactic(auto, using(crate::proofs::Serving::rowing))]
fn row_of(alloc: Global, d: u64, e: u64, rates: &[u64]) -> Result<Vec<i128>, AllocError>
    ensures { IfOk result (λ row. row.items ≡ pos d ∷ pos e ∷ map (λ rate. pos rate) rates.now) }
{
    let mut row = Vec::from_slice(alloc, &[i128::from(d), i128::from(e)])?;
    for rate in rates {
        row.push(i128::from(*rate))?;
    }
    Ok(row)
}

/// Whether the value of the program is above the denominator, or none exactly where their comparison exceeds 128 bits.
#[tactic(auto, using(crate::proofs::Serving::comparing), unfolding(mp_trial::specs::Trials::is_above_whole))]
fn is_above_whole(d: u64, optimum: &Optimum) -> Option<bool>
    ensures { result ≡ is_above_whole d optimum.now }
{
    let most = mul(i128::from(d), optimum.value.den())?;
    Some(optimum.value.num() > most)
}

/// The mix of an optimum: its dual, with the denominator as the whole.
fn mix_of(optimum: Optimum) -> Mix
    ensures { mix_of result ≡ stated.mix_of optimum }
{
    Mix {
        whole: optimum.dual_den,
        parts: optimum.dual,
    }
}

/// The mix of junction `j` at the rates behind the first two numbers, or none where the value of its program is above
/// the denominator.
fn mix_at(
    alloc: Global,
    net: &Net,
    d: u64,
    row: &[i128],
    j: JunctionNo,
) -> Result<Option<Mix>, ScaleFault>
    requires junction { (1 ≤ j) × (j ≤ length net.now.junctions) }
    requires size { length row.now ≡ 2 + length net.now.movements }
    ensures { GivesMix d j (maximised (program net.now (junction_at net.now j) (drop 2 row.now)) TURN_LIMIT) result }
{
    match optimum_at(alloc, net, j, row, TURN_LIMIT, Place::Game(j)) {
        Ok(optimum) => match is_above_whole(d, &optimum) {
            Some(true) => Ok(None),
            Some(false) => Ok(Some(mix_of(optimum))),
            None => Err(ScaleFault::Overflow(j)),
        },
        Err(CalcFault::Overflow(_place)) => Err(ScaleFault::Overflow(j)),
        Err(CalcFault::PivotLimit(_junction)) => Err(ScaleFault::PivotLimit(j)),
        Err(CalcFault::NoMemory) => Err(ScaleFault::NoMemory),
    }
}

/// The certificate of the row and the mixes.
fn certificate(alloc: Global, row: &[i128], mixes: Vec<Mix>) -> Result<Cert, AllocError>
    requires { 2 ≤ length row.now }
    ensures { IfOk result (λ cert. cert_of cert ≡ certificate_in row.now (map mix_of mixes.items)) }
{
    let mut h = Vec::new(alloc);
    h.extend_from_slice(&row[2..])?;
    Ok(Cert {
        d: row[0],
        e: row[1],
        h: Numbers::new(h),
        mix: Mixes::new(mixes),
    })
}

/// The certificate of the denominator, the excess and the rates with a mix for each junction, or none where the value of
/// some junction's program is above the denominator.
#[tactic(auto, using(crate::proofs::Serving::serving))]
pub fn serve(
    alloc: Global,
    net: &Net,
    d: u64,
    e: u64,
    rates: &[u64],
) -> Result<Option<Cert>, ScaleFault>
    requires network { IsNetwork net.now }
    requires size { length rates.now ≡ length net.now.movements }
    ensures { GivesTrial e result (served_by net.now d e rates.now [] (junction_numbers net.now)) }
{
    let Ok(row) = row_of(alloc, d, e, rates) else {
        return Err(ScaleFault::NoMemory);
    };
    let mut mixes = Vec::new(alloc);
    for j in 0..net.junctions() {
        match mix_at(alloc, net, d, &row, j + 1) {
            Ok(Some(mix)) => {
                let Ok(()) = mixes.push(mix) else {
                    return Err(ScaleFault::NoMemory);
                };
            }
            Ok(None) => return Ok(None),
            Err(fault) => return Err(fault),
        }
    }
    match certificate(alloc, &row, mixes) {
        Ok(cert) => Ok(Some(cert)),
        Err(_) => Err(ScaleFault::NoMemory),
    }
}
