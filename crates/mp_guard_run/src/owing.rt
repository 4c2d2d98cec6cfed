//! Sums over what the stages of a junction owe.
ghost use Rattle.std.specs.Prelude.{◌≡◌, ◌≤◌, ◌*◌, cond, nat_lt, length, sum, IfSome};
ghost use Rattle.mp_model.specs.Guard.{owing};
ghost use Rattle.mp_model.specs.GuardedRun.{less_by, needed_in};
ghost use Rattle.mp_model.specs.Network.{entry};
ghost use Rattle.mp_guard_run.specs.Choosing.{AreTotals};

use mp_net::StageNo;

// 1 for a stage that owes some.
fn one_if_owing(n: u16) -> u32
    ensures { result ≡ cond (nat_lt 0 n) 1 0 }
{
    if n > 0 { 1 } else { 0 }
}

// What the stages owe in all.
#[tactic(auto, using(crate::proofs::Sums::summings))]
fn sum_of(owed: &[u16]) -> u32
    requires { length owed.now ≤ 16 }
    ensures value { result ≡ sum owed.now }
    ensures few { result ≤ 16 * 65535 }
{
    let mut sum = 0;
    for n in owed {
        sum += u32::from(*n);
    }
    sum
}

// How many stages owe some.
#[tactic(auto, using(crate::proofs::Sums::summings))]
fn owing_of(owed: &[u16]) -> u32
    requires { length owed.now ≤ 16 }
    ensures value { result ≡ owing owed.now }
    ensures few { result ≤ 16 }
{
    let mut count = 0;
    for n in owed {
        count += one_if_owing(*n);
    }
    count
}

/// What the stages of a junction owe in all, and how many of them owe some.
#[derive(Clone, Copy)]
pub struct Totals {
    pub sum: u32,
    pub owing: u32,
}

/// The totals of what the stages owe.
pub fn total_of(owed: &[u16]) -> Totals
    requires { length owed.now ≤ 16 }
    ensures { AreTotals result owed.now }
{
    Totals {
        sum: sum_of(owed),
        owing: owing_of(owed),
    }
}

// What the stage owes once this stage has paid.
fn left_of(owed: &[u16], payer: Option<StageNo>, s: StageNo) -> u16
    requires payer { IfSome payer (λ p. (1 ≤ p) × (p ≤ length owed.now)) }
    requires stage { (1 ≤ s) × (s ≤ length owed.now) }
    ensures { result ≡ entry (less_by owed.now payer) s }
{
    let n = owed[usize::from(s) - 1];
    match payer {
        None => n,
        Some(p) => { if p == s { n.saturating_sub(1) } else { n } }
    }
}

// What the stages owe in all once this stage has paid.
fn sum_left(owed: &[u16], all: u32, payer: Option<StageNo>) -> u32
    requires payer { IfSome payer (λ p. (1 ≤ p) × (p ≤ length owed.now)) }
    requires all { all ≡ sum owed.now }
    ensures value { result ≡ sum (less_by owed.now payer) }
    ensures few { result ≤ all }
{
    match payer {
        None => all,
        Some(p) => all - one_if_owing(owed[usize::from(p) - 1]),
    }
}

// How many stages owe some once this stage has paid.
fn owing_left(owed: &[u16], count: u32, payer: Option<StageNo>) -> u32
    requires payer { IfSome payer (λ p. (1 ≤ p) × (p ≤ length owed.now)) }
    requires count { count ≡ owing owed.now }
    ensures value { result ≡ owing (less_by owed.now payer) }
    ensures few { result ≤ count }
{
    match payer {
        None => count,
        Some(p) => {
            if owed[usize::from(p) - 1] == 1 {
                count - 1
            } else {
                count
            }
        }
    }
}

/// What the junction needs in the stage once this stage has paid: what its stages owe in all, and a lost
/// period for each other stage that owes some.
pub fn needed_in(lost: u32, owed: &[u16], totals: Totals, payer: Option<StageNo>, s: StageNo) -> u32
    requires lost { lost ≤ 1 }
    requires payer { IfSome payer (λ p. (1 ≤ p) × (p ≤ length owed.now)) }
    requires stage { (1 ≤ s) × (s ≤ length owed.now) }
    requires totals { AreTotals totals owed.now }
    ensures value { result ≡ needed_in lost (less_by owed.now payer) s }
    ensures few { result ≤ 1048592 }
{
    let others = owing_left(owed, totals.owing, payer) - one_if_owing(left_of(owed, payer, s));
    sum_left(owed, totals.sum, payer) + lost * others
}
