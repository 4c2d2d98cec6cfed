//! The check of a guard: its rules, one after the other.
ghost use Rattle.std.specs.Prelude.{◌≤◌, ◌↔◌, ◌∷◌, [], length, map, flat_map, IsOk, IfErr};
ghost use Rattle.mp_model.specs.Guard.{Guards, HasGuardLengths};
ghost use Rattle.mp_model.specs.Network.{junction_at, movement_numbers, junction_numbers};
ghost use Rattle.mp_model.specs.NetworkRules.{IsAcceptable};
ghost use Rattle.mp_guard.specs.Checking.{HasNumbers, HasRates, HasGreens, IsFirstBroken, Tries, green_rules, rules_of};

use crate::rules::{
    balance_holds, cycle_fits, denominator_fits, green_fits, greens_fit, lost_fits, rate_fits,
    serve_holds,
};
use crate::{Guard, GuardFault};
use mp_net::{JunctionNo, MovementNo, Net, StageNo};

/// The rules on the cycle, the lost periods and the denominator.
fn check_numbers(net: &Net, guard: &Guard) -> Result<(), GuardFault>
    ensures { Tries net.now guard.now (GuardFault.Cycle ∷ GuardFault.Lost ∷ GuardFault.D ∷ []) result }
{
    if !cycle_fits(guard) {
        return Err(GuardFault::Cycle);
    }
    if !lost_fits(guard) {
        return Err(GuardFault::Lost);
    }
    if !denominator_fits(guard) {
        return Err(GuardFault::D);
    }
    Ok(())
}

/// The rate of the movement is at most its flow.
fn check_rate(net: &Net, guard: &Guard, k: MovementNo) -> Result<(), GuardFault>
    requires acceptable { IsAcceptable net.now }
    requires lengths { HasGuardLengths net.now guard.now }
    requires numbers { HasNumbers guard.now }
    requires movement { (1 ≤ k) × (k ≤ length net.now.movements) }
    ensures { Tries net.now guard.now (GuardFault.H k ∷ []) result }
{
    if rate_fits(net, guard, k) {
        Ok(())
    } else {
        Err(GuardFault::H(k))
    }
}

/// Each rate is at most its flow.
#[tactic(auto, using(crate::proofs::CheckLemmas::trying))]
fn check_rates(net: &Net, guard: &Guard) -> Result<(), GuardFault>
    requires acceptable { IsAcceptable net.now }
    requires lengths { HasGuardLengths net.now guard.now }
    requires numbers { HasNumbers guard.now }
    ensures { Tries net.now guard.now (map GuardFault.H (movement_numbers net.now)) result }
{
    for k in 0..net.movements() {
        check_rate(net, guard, k + 1)?;
    }
    Ok(())
}

/// The green of the stage is at most the cycle.
fn check_green(net: &Net, guard: &Guard, j: JunctionNo, s: StageNo) -> Result<(), GuardFault>
    requires lengths { HasGuardLengths net.now guard.now }
    requires junction { (1 ≤ j) × (j ≤ length net.now.junctions) }
    requires stage { (1 ≤ s) × (s ≤ length (junction_at net.now j).stages) }
    ensures { Tries net.now guard.now (GuardFault.Green j s ∷ []) result }
{
    if green_fits(net, guard, j, s) {
        Ok(())
    } else {
        Err(GuardFault::Green(j, s))
    }
}

/// Each green of the junction is at most the cycle.
#[tactic(auto, using(crate::proofs::CheckLemmas::trying))]
fn check_greens_at(net: &Net, guard: &Guard, j: JunctionNo) -> Result<(), GuardFault>
    requires lengths { HasGuardLengths net.now guard.now }
    requires junction { (1 ≤ j) × (j ≤ length net.now.junctions) }
    ensures { Tries net.now guard.now (green_rules net.now j) result }
{
    for s in 0..net.stages(j) {
        check_green(net, guard, j, s + 1)?;
    }
    Ok(())
}

/// Each green is at most the cycle.
#[tactic(auto, using(crate::proofs::CheckLemmas::trying))]
fn check_greens(net: &Net, guard: &Guard) -> Result<(), GuardFault>
    requires lengths { HasGuardLengths net.now guard.now }
    ensures { Tries net.now guard.now (flat_map (green_rules net.now) (junction_numbers net.now)) result }
{
    for j in 0..net.junctions() {
        check_greens_at(net, guard, j + 1)?;
    }
    Ok(())
}

/// The greens of the junction fit into the cycle.
fn check_mass(net: &Net, guard: &Guard, j: JunctionNo) -> Result<(), GuardFault>
    requires acceptable { IsAcceptable net.now }
    requires lengths { HasGuardLengths net.now guard.now }
    requires numbers { HasNumbers guard.now }
    requires greens { HasGreens net.now guard.now }
    requires junction { (1 ≤ j) × (j ≤ length net.now.junctions) }
    ensures { Tries net.now guard.now (GuardFault.Mass j ∷ []) result }
{
    if greens_fit(net, guard, j) {
        Ok(())
    } else {
        Err(GuardFault::Mass(j))
    }
}

/// The greens of each junction fit into the cycle.
#[tactic(auto, using(crate::proofs::CheckLemmas::trying))]
fn check_masses(net: &Net, guard: &Guard) -> Result<(), GuardFault>
    requires acceptable { IsAcceptable net.now }
    requires lengths { HasGuardLengths net.now guard.now }
    requires numbers { HasNumbers guard.now }
    requires greens { HasGreens net.now guard.now }
    ensures { Tries net.now guard.now (map GuardFault.Mass (junction_numbers net.now)) result }
{
    for j in 0..net.junctions() {
        check_mass(net, guard, j + 1)?;
    }
    Ok(())
}

/// The movement is in balance.
fn check_balance(net: &Net, guard: &Guard, k: MovementNo) -> Result<(), GuardFault>
    requires acceptable { IsAcceptable net.now }
    requires lengths { HasGuardLengths net.now guard.now }
    requires numbers { HasNumbers guard.now }
    requires rates { HasRates net.now guard.now }
    requires movement { (1 ≤ k) × (k ≤ length net.now.movements) }
    ensures { Tries net.now guard.now (GuardFault.Balance k ∷ []) result }
{
    if balance_holds(net, guard, k) {
        Ok(())
    } else {
        Err(GuardFault::Balance(k))
    }
}

/// Each movement is in balance.
#[tactic(auto, using(crate::proofs::CheckLemmas::trying))]
fn check_balances(net: &Net, guard: &Guard) -> Result<(), GuardFault>
    requires acceptable { IsAcceptable net.now }
    requires lengths { HasGuardLengths net.now guard.now }
    requires numbers { HasNumbers guard.now }
    requires rates { HasRates net.now guard.now }
    ensures { Tries net.now guard.now (map GuardFault.Balance (movement_numbers net.now)) result }
{
    for k in 0..net.movements() {
        check_balance(net, guard, k + 1)?;
    }
    Ok(())
}

/// The movement is served.
fn check_serve(net: &Net, guard: &Guard, k: MovementNo) -> Result<(), GuardFault>
    requires acceptable { IsAcceptable net.now }
    requires lengths { HasGuardLengths net.now guard.now }
    requires numbers { HasNumbers guard.now }
    requires rates { HasRates net.now guard.now }
    requires greens { HasGreens net.now guard.now }
    requires movement { (1 ≤ k) × (k ≤ length net.now.movements) }
    ensures { Tries net.now guard.now (GuardFault.Serve k ∷ []) result }
{
    if serve_holds(net, guard, k) {
        Ok(())
    } else {
        Err(GuardFault::Serve(k))
    }
}

/// Each movement is served.
#[tactic(auto, using(crate::proofs::CheckLemmas::trying))]
fn check_serves(net: &Net, guard: &Guard) -> Result<(), GuardFault>
    requires acceptable { IsAcceptable net.now }
    requires lengths { HasGuardLengths net.now guard.now }
    requires numbers { HasNumbers guard.now }
    requires rates { HasRates net.now guard.now }
    requires greens { HasGreens net.now guard.now }
    ensures { Tries net.now guard.now (map GuardFault.Serve (movement_numbers net.now)) result }
{
    for k in 0..net.movements() {
        check_serve(net, guard, k + 1)?;
    }
    Ok(())
}

/// Tries all rules in order.
fn try_rules(net: &Net, guard: &Guard) -> Result<(), GuardFault>
    requires acceptable { IsAcceptable net.now }
    requires lengths { HasGuardLengths net.now guard.now }
    ensures { Tries net.now guard.now (rules_of net.now) result }
{
    check_numbers(net, guard)?;
    check_rates(net, guard)?;
    check_greens(net, guard)?;
    check_masses(net, guard)?;
    check_balances(net, guard)?;
    check_serves(net, guard)
}

/// Checks a guard that has the network's lengths.
///
/// The fault is the first rule that is broken, in the order in which `GuardFault` lists them.
pub fn check(net: &Net, guard: &Guard) -> Result<(), GuardFault>
    requires { HasGuardLengths net.now guard.now }
    ensures accepts { IsOk result ↔ Guards net.now guard.now }
    ensures first { IfErr result (IsFirstBroken net.now guard.now (rules_of net.now)) }
{
    let _shares = net.shares();
    try_rules(net, guard)
}
