//! The linear program of a junction: how much of a period its stages need for some rates.
ghost use Rattle.std.specs.Prelude.{◌≡◌, ◌+◌, ◌≤◌, ◌<◌, length, cond, pos, ◌++◌, IfOk, OnOk, drop, map};
ghost use Rattle.mp_model.specs.Network.{flow_of, junction_at, own, has};
ghost use Rattle.mp_model.specs.Certificate.{int_entry};
ghost use Rattle.mp_simplex.specs.Meeting.{IsOptimum};
ghost use Rattle.mp_simplex.specs.Outcome.{maximised};
ghost use Rattle.mp_verdict.specs.Program.{stage_row, stage_rows, program, optimum_at};
ghost use Rattle.mp_verdict.specs.Stated.{Gives};

use mp_flow::{CalcFault, Place};
use mp_net::{JunctionNo, MovementNo, Net};
use mp_num::Numbers;
use mp_simplex::{Lp, LpFault, Optimum, maximise};
use std::alloc::{AllocError, Global};

/// Whether the stage holds movement `k`.
fn holds(stage: &[MovementNo], k: MovementNo) -> bool
    ensures { result ≡ has stage.now k }
{
    stage.iter().any(|held| *held == k)
}

/// The number of a stage at movement `k`: its flow where the stage holds it, and 0 elsewhere.
fn coefficient(net: &Net, stage: &[MovementNo], k: MovementNo) -> i128
    requires { (1 ≤ k) × (k ≤ length net.now.movements) }
    ensures { result ≡ cond (has stage.now k) (pos (flow_of net.now k)) (pos 0) }
{
    if holds(stage, k) {
        i128::from(net.movement(k).flow)
    } else {
        0
    }
}

/// Appends the row of stage `s`.
#[tactic(auto, using(crate::proofs::RowLemmas::lining))]
fn push_row(
    cells: &mut Vec<i128>,
    net: &Net,
    j: JunctionNo,
    stage: &[MovementNo],
) -> Result<(), AllocError>
    requires { (1 ≤ j) × (j ≤ length net.now.junctions) }
    ensures { OnOk result (cells.new.items ≡ cells.old.items ++ stage_row net.now (own net.now (junction_at net.now j)) stage.now) }
{
    for k in net.own(j) {
        cells.push(coefficient(net, stage, *k))?;
    }
    Ok(())
}

/// The rows of the stages, one after the other.
#[tactic(auto, using(crate::proofs::RowLemmas::rowing))]
fn rows(alloc: Global, net: &Net, j: JunctionNo) -> Result<Numbers, AllocError>
    requires { (1 ≤ j) × (j ≤ length net.now.junctions) }
    ensures { IfOk result (λ n. n ≡ stage_rows net.now (own net.now (junction_at net.now j)) (junction_at net.now j).stages) }
{
    let mut cells = Vec::new(alloc);
    for s in 0..net.stages(j) {
        push_row(&mut cells, net, j, net.stage(j, s + 1))?;
    }
    Ok(Numbers::new(cells))
}

/// A right side of 1 for each stage.
#[tactic(auto, using(crate::proofs::RowLemmas::siding))]
fn right_sides(alloc: Global, net: &Net, j: JunctionNo) -> Result<Numbers, AllocError>
    requires { (1 ≤ j) × (j ≤ length net.now.junctions) }
    ensures { IfOk result (λ n. n ≡ map (λ stage. pos 1) (junction_at net.now j).stages) }
{
    let mut sides = Vec::new(alloc);
    for _s in 0..net.stages(j) {
        sides.push(1)?;
    }
    Ok(Numbers::new(sides))
}

/// The rate of movement `k`; two numbers stand before the rates.
#[tactic(auto, using(crate::proofs::RowLemmas::aiming))]
fn rate_at(rates: &[i128], k: MovementNo) -> i128
    requires { (1 ≤ k) × (k + 1 < length rates.now) }
    ensures { result ≡ int_entry (drop 2 rates.now) k }
{
    rates[usize::from(k) + 1]
}

/// The rates of the junction's movements; two numbers stand before the rates of all movements.
#[tactic(auto, using(crate::proofs::RowLemmas::lining))]
fn objective(alloc: Global, net: &Net, j: JunctionNo, rates: &[i128]) -> Result<Numbers, AllocError>
    requires junction { (1 ≤ j) × (j ≤ length net.now.junctions) }
    requires rates { length rates.now ≡ 2 + length net.now.movements }
    ensures { IfOk result (λ n. n ≡ map (int_entry (drop 2 rates.now)) (own net.now (junction_at net.now j))) }
{
    let mut numbers = Vec::new(alloc);
    for k in net.own(j) {
        numbers.push(rate_at(rates, *k))?;
    }
    Ok(Numbers::new(numbers))
}

/// The program of junction `j` at the rates.
fn program(alloc: Global, net: &Net, j: JunctionNo, rates: &[i128]) -> Result<Lp, AllocError>
    requires junction { (1 ≤ j) × (j ≤ length net.now.junctions) }
    requires rates { length rates.now ≡ 2 + length net.now.movements }
    ensures { IfOk result (λ lp. lp ≡ program net.now (junction_at net.now j) (drop 2 rates.now)) }
{
    let a = rows(alloc, net, j)?;
    let b = right_sides(alloc, net, j)?;
    let c = objective(alloc, net, j, rates)?;
    Ok(Lp {
        rows: usize::from(net.stages(j)),
        cols: net.own(j).len(),
        a,
        b,
        c,
    })
}

/// The optimum of the program of junction `j` at the rates, by at most so many pivots.
#[tactic(auto, using(crate::proofs::ProgramLemmas::programs))]
pub fn optimum_at(
    alloc: Global,
    net: &Net,
    j: JunctionNo,
    rates: &[i128],
    limit: u32,
    place: Place,
) -> Result<Optimum, CalcFault>
    requires junction { (1 ≤ j) × (j ≤ length net.now.junctions) }
    requires rates { length rates.now ≡ 2 + length net.now.movements }
    ensures calculation { Gives (λ o. o) result (optimum_at place j (maximised (program net.now (junction_at net.now j) (drop 2 rates.now)) limit)) }
    ensures meaning { IfOk result (λ o. IsOptimum (program net.now (junction_at net.now j) (drop 2 rates.now)) o) }
{
    let _shares = net.shares();
    let Ok(lp) = program(alloc, net, j, rates) else {
        return Err(CalcFault::NoMemory);
    };
    match maximise(alloc, &lp, limit) {
        Ok(optimum) => Ok(optimum),
        // Each movement of the junction stands in a stage, with a flow: no program grows without end.
        Err(LpFault::Unbounded { ray: _ray }) => unreachable!(),
        Err(LpFault::Overflow { pivots: _pivots }) => Err(CalcFault::Overflow(place)),
        Err(LpFault::PivotLimit) => Err(CalcFault::PivotLimit(j)),
        Err(LpFault::NoMemory) => Err(CalcFault::NoMemory),
    }
}
