//! The flows of a network's links, and what a vehicle on each link is worth.
ghost use Rattle.std.specs.Prelude.{◌≡◌, ◌+◌, ◌*◌, ◌<◌, ◌≤ℤ◌, pos, length, vec_len, IfOk, All};
ghost use Rattle.mp_model.specs.NetworkRules.{IsNetwork};
ghost use Rattle.mp_flow.specs.Meeting.{IfSingular};
ghost use Rattle.mp_flow.specs.Calculating.{IsMoved, Gives, flows_of, worths_of, Splits, list_of, IsRegular, AnsweredAt};
ghost use Rattle.mp_flow.specs.Systems.{stated_flows, AreFlows, AreOnlyFlows, stated_worths, AreWorths, AreOnlyWorths};

use crate::network_rows::{flow_system, worth_system};
use crate::solving::{Rows, SolveFault, Solved, solve};
use mp_net::{JunctionNo, Net};
use mp_num::Numbers;
use std::alloc::Global;

/// Where a calculation over a network exceeds 128 bits.
#[derive(Clone, Copy, PartialEq, Eq, Debug)]
pub enum Place {
    /// The flows of the links.
    Flow,
    /// The game of a junction.
    Game(JunctionNo),
    /// The worths of the links.
    Adjoint,
    /// The sums of the vector against the network.
    Vector,
    /// The mix of a junction.
    Mix(JunctionNo),
    /// The certificate.
    Certificate,
    /// The bounds.
    Bound,
    /// The room for the bounds.
    Room,
}

/// Why a calculation over a network has no result.
#[derive(Clone, Copy, PartialEq, Eq, Debug)]
pub enum CalcFault {
    /// The calculation exceeds 128 bits at this place.
    Overflow(Place),
    /// The turns of the game end at this junction first.
    PivotLimit(JunctionNo),
    /// There was no memory for the calculation.
    NoMemory,
}

/// The flows of the links over the denominator `d`, which is at least 1; one number of at least 0 per link, in link order.
///
/// `rate` over `d` is in vehicles per rate length: what the rates bring.
/// `unit` over `d` is what one unit of slack on every movement adds.
#[derive(Drop)]
pub struct FlowPair {
    pub rate: Numbers,
    pub unit: Numbers,
    pub d: i128,
}

/// What a vehicle on each link is worth, over the denominator `d`, which is at least 1; one number of at least 0 per link, in link order.
#[derive(Drop)]
pub struct Flow {
    pub x: Numbers,
    pub d: i128,
}

/// The outcome of a system that is not singular, with its place in the calculation.
fn at_place(outcome: Result<Solved, SolveFault>, place: Place) -> Result<Solved, CalcFault>
    requires { IfSingular outcome (λ x. ⊥) }
    ensures { IsMoved place outcome result }
{
    match outcome {
        Ok(solved) => Ok(solved),
        Err(SolveFault::Overflow { column: _column }) => Err(CalcFault::Overflow(place)),
        Err(SolveFault::NoMemory) => Err(CalcFault::NoMemory),
        Err(SolveFault::Singular { kernel: _kernel }) => unreachable!(),
    }
}

/// Solves a system that has no kernel, at its place in the calculation.
#[tactic(auto, using(crate::proofs::CalculatingLemmas::moving))]
fn solve_at(alloc: Global, mut rows: Rows, place: Place) -> Result<Solved, CalcFault>
    requires some { 0 < rows.n }
    requires sides { 0 < rows.rights }
    requires size { vec_len rows.cells ≡ rows.n * (rows.n + rows.rights) }
    requires regular { IsRegular rows }
    ensures { AnsweredAt place rows.n rows.rights (list_of rows) result }
{
    at_place(solve(alloc, &mut rows), place)
}

/// How many links the network has.
fn links_of(net: &Net) -> usize
    ensures count { result ≡ length net.now.links }
    ensures some { 0 < result }
    ensures network { IsNetwork net.now }
{
    // A network's share total comes with what its rules say.
    let _shares = net.shares();
    usize::from(net.links())
}

/// The answers of two right sides apart.
fn split(solved: Solved, n: usize) -> Result<FlowPair, CalcFault>
    requires { length solved.x ≡ 2 * n }
    ensures { Splits n solved result }
{
    let Solved { x, d } = solved;
    let mut rate = x.into_vec();
    match rate.split_off(n) {
        Ok(unit) => Ok(FlowPair {
            rate: Numbers::new(rate),
            unit: Numbers::new(unit),
            d,
        }),
        Err(_) => Err(CalcFault::NoMemory),
    }
}

/// The answers of one right side.
fn worths(solved: Solved) -> Flow
    ensures values { result.x ≡ solved.x }
    ensures denominator { result.d ≡ solved.d }
{
    let Solved { x, d } = solved;
    Flow { x, d }
}

/// The flows of the links: what the rates bring to each, and what one unit of slack on every movement adds.
///
/// `Overflow(Place::Flow)` comes exactly where the stated calculation exceeds 128 bits.
#[tactic(auto, using(crate::proofs::CalculatingLemmas::calculating))]
pub fn flows(alloc: Global, net: &Net) -> Result<FlowPair, CalcFault>
    ensures calculation { Gives Place.Flow flows_of result (stated_flows net.now) }
    ensures balance { IfOk result (λ p. AreFlows net.now (flows_of p)) }
    ensures one { IfOk result (λ p. AreOnlyFlows net.now (flows_of p)) }
{
    let n = links_of(net);
    let Ok(rows) = flow_system(alloc, net) else {
        return Err(CalcFault::NoMemory);
    };
    match solve_at(alloc, rows, Place::Flow) {
        Ok(solved) => split(solved, n),
        Err(fault) => Err(fault),
    }
}

/// What a vehicle on each link is worth: the mean, by shares, of what the links behind its movements are worth, and the link's number in `u` over the share total.
/// `u` has one number of at least 0 per link, in link order.
///
/// `Overflow(Place::Adjoint)` comes exactly where the stated calculation exceeds 128 bits.
#[tactic(auto, using(crate::proofs::CalculatingLemmas::calculating))]
pub fn adjoint(alloc: Global, net: &Net, u: &[i128]) -> Result<Flow, CalcFault>
    requires values { length u.now ≡ length net.now.links }
    requires signs { All (λ v. pos 0 ≤ℤ v) u.now }
    ensures calculation { Gives Place.Adjoint worths_of result (stated_worths net.now u.now) }
    ensures balance { IfOk result (λ f. AreWorths net.now u.now (worths_of f)) }
    ensures one { IfOk result (λ f. AreOnlyWorths net.now u.now (worths_of f)) }
{
    let _n = links_of(net);
    let Ok(rows) = worth_system(alloc, net, u) else {
        return Err(CalcFault::NoMemory);
    };
    match solve_at(alloc, rows, Place::Adjoint) {
        Ok(solved) => Ok(worths(solved)),
        Err(fault) => Err(fault),
    }
}
