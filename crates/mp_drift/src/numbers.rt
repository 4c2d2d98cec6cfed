//! The constants of a network.
ghost use Rattle.std.specs.Prelude.{◌≡◌, ◌*◌, ◌/◌, ◌<◌, ◌≤◌, ◌^◌, length, map, sum_by, IfOk, OnOk, pos, unsigned_abs, slice_index_or, ◌-◌};
ghost use Rattle.mp_model.specs.Network.{movement_numbers, flow_of};
ghost use Rattle.mp_model.specs.Bounds.{credit_term, step_term, greatest_change, report_shift, prompt_constant, drift_constant};
ghost use Rattle.mp_drift.specs.Constants.{AreConstants};

use crate::checked::signed;
use crate::terms::{credit_terms, flows_into, greatest_changes, report_shift, step_terms, unit};
use mp_net::{MovementNo, Net, NoMemory};
use mp_num::Numbers;
use std::alloc::Global;

/// The constants of a network, one `k` and one `m` per movement in movement order.
///
/// `k` has the credit-and-burst terms and `m` the step terms, both in vehicles times the share total times the rate length.
/// `b` is the drift constant, in the square of that unit.
#[derive(Drop)]
pub struct DriftNumbers {
    pub k: Numbers,
    pub m: Numbers,
    pub b: i128,
}

/// The size of the term of movement `number` in a list of one per movement.
fn term_at(terms: &[i128], number: MovementNo) -> u128
    requires { (1 ≤ number) × (number ≤ length terms.now) }
    ensures { result ≡ unsigned_abs (slice_index_or terms.now (number - 1) (pos 0)) }
{
    terms[usize::from(number) - 1].unsigned_abs()
}

/// The credit-and-burst term of movement `number`, from a list of all.
pub fn credit_of(net: &Net, k: &[i128], number: MovementNo) -> u128
    requires known { (1 ≤ number) × (number ≤ length net.now.movements) }
    requires credits { k.now ≡ map (λ k. pos (credit_term net.now k)) (movement_numbers net.now) }
    ensures value { result ≡ credit_term net.now number }
    ensures few { result ≤ 2 ^ 36 }
{
    let _shares = net.shares();
    term_at(k, number)
}

/// The step term of movement `number`, from a list of all.
pub fn step_of(net: &Net, m: &[i128], number: MovementNo) -> u128
    requires known { (1 ≤ number) × (number ≤ length net.now.movements) }
    requires steps { m.now ≡ map (λ k. pos (step_term net.now k)) (movement_numbers net.now) }
    ensures value { result ≡ step_term net.now number }
    ensures few { result ≤ 2 ^ 41 }
{
    let _shares = net.shares();
    term_at(m, number)
}

/// The sum of the quarters of the squared flows, each rounded down.
#[tactic(auto, using(crate::proofs::Loops::counting, crate::proofs::Limits::limits, crate::proofs::Limits::quarter_few))]
fn quarters(net: &Net) -> u128
    ensures value { result ≡ sum_by (λ k. flow_of net.now k * flow_of net.now k / 4) (movement_numbers net.now) }
    ensures few { result ≤ 2 ^ 27 }
{
    let _shares = net.shares();
    let mut sum: u128 = 0;
    for k in 0..net.movements() {
        let flow = u128::from(net.movement(k + 1).flow);
        sum += flow * flow / 4;
    }
    sum
}

/// The sum of the products of the two terms of each movement.
#[tactic(auto, using(crate::proofs::Loops::counting, crate::proofs::Limits::product_few))]
pub fn products(net: &Net, k: &[i128], m: &[i128]) -> u128
    requires credits { k.now ≡ map (λ k. pos (credit_term net.now k)) (movement_numbers net.now) }
    requires steps { m.now ≡ map (λ k. pos (step_term net.now k)) (movement_numbers net.now) }
    ensures value { result ≡ sum_by (λ k. credit_term net.now k * step_term net.now k) (movement_numbers net.now) }
    ensures few { result ≤ 2 ^ 86 }
{
    let mut sum: u128 = 0;
    for number in 0..net.movements() {
        sum += credit_of(net, k, number + 1) * step_of(net, m, number + 1);
    }
    sum
}

/// The sum of the squared step terms.
#[tactic(auto, using(crate::proofs::Loops::counting, crate::proofs::Limits::square_few))]
pub fn squares(net: &Net, m: &[i128]) -> u128
    requires { m.now ≡ map (λ k. pos (step_term net.now k)) (movement_numbers net.now) }
    ensures value { result ≡ sum_by (λ k. step_term net.now k * step_term net.now k) (movement_numbers net.now) }
    ensures few { result ≤ 2 ^ 91 }
{
    let mut sum: u128 = 0;
    for number in 0..net.movements() {
        let step = step_of(net, m, number + 1);
        sum += step * step;
    }
    sum
}

/// The sum of the flows, each times what old reports can shift the weight by.
#[tactic(auto, using(crate::proofs::Loops::counting))]
fn shifts(net: &Net, changes: &[u64]) -> u128
    requires { changes.now ≡ map (greatest_change net.now) (movement_numbers net.now) }
    ensures value { result ≡ sum_by (λ k. flow_of net.now k * report_shift net.now k) (movement_numbers net.now) }
    ensures few { result ≤ 2 ^ 63 }
{
    let _shares = net.shares();
    let mut sum: u128 = 0;
    for k in 0..net.movements() {
        sum += u128::from(net.movement(k + 1).flow) * u128::from(report_shift(net, changes, k + 1));
    }
    sum
}

/// The drift constant without reports, from both lists of terms.
fn prompt_constant(net: &Net, k: &[i128], m: &[i128]) -> u128
    requires credits { k.now ≡ map (λ k. pos (credit_term net.now k)) (movement_numbers net.now) }
    requires steps { m.now ≡ map (λ k. pos (step_term net.now k)) (movement_numbers net.now) }
    ensures value { result ≡ prompt_constant net.now }
    ensures few { result < 2 ^ 99 }
{
    let unit = unit(net);
    2 * (unit * unit) * quarters(net) + 2 * products(net, k, m) + squares(net, m)
}

/// What old reports add to the drift constant.
fn report_constant(net: &Net, changes: &[u64]) -> u128
    requires { changes.now ≡ map (greatest_change net.now) (movement_numbers net.now) }
    ensures value { result ≡ 4 * (net.now.shares * (net.now.per * net.now.per)) * sum_by (λ k. flow_of net.now k * report_shift net.now k) (movement_numbers net.now) }
    ensures few { result < 2 ^ 99 }
{
    let per = u128::from(net.per());
    4 * (u128::from(net.shares()) * (per * per)) * shifts(net, changes)
}

/// The constants of the network. Within the limits of a network they are all far below 2^127.
///
/// `NoMemory` says nothing of the network.
pub fn constants(alloc: Global, net: &Net) -> Result<DriftNumbers, NoMemory>
    ensures values { IfOk result (AreConstants net.now) }
    ensures limit { OnOk result (drift_constant net.now < 2 ^ 100) }
{
    let into = flows_into(alloc, net)?;
    let changes = greatest_changes(alloc, net, &into)?;
    let k = credit_terms(alloc, net)?;
    let m = step_terms(alloc, net, &into)?;
    let b = prompt_constant(net, &k, &m) + report_constant(net, &changes);
    Ok(DriftNumbers {
        k: Numbers::new(k),
        m: Numbers::new(m),
        b: signed(b),
    })
}
