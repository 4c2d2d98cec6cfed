//! The bursts of a guard, found by sweeps, and its bounds and waits.
ghost use Rattle.std.specs.Prelude.{◌≡◌, ◌↔◌, ◌≤◌, ◌+◌, ◌*◌, ◌^◌, length, map, sum_by, IsTrue, IfOk, IfErr};
ghost use Rattle.std.specs.List.{AllByRecursion};
ghost use Rattle.mp_model.specs.Guard.{Guards, crowd, red};
ghost use Rattle.mp_model.specs.GuardedBursts.{quotient_up, least_holding, sweep};
ghost use Rattle.mp_model.specs.Network.{entry, movement_numbers, into_link};
ghost use Rattle.mp_model.specs.NetworkRules.{IsAcceptable};
ghost use Rattle.mp_guard.specs.Checking.{HasNumbers};
ghost use Rattle.mp_guard.specs.Bursts.{AreBursts, NoneRests, bounds_of, waits_of};
ghost use Rattle.mp_guard.specs.Surpluses.{AreSurpluses};

use crate::rules::{given, rate};
use crate::{BurstFault, Guard};
use mp_cert::places::from;
use mp_net::{LinkNo, MovementNo, Net, NoMemory};
use std::alloc::{AllocError, Global};

/// The most sweeps that are tried.
pub const MOST_SWEEPS: u32 = 131_072;

// How many periods of a cycle the movement may be without green.
fn red(net: &Net, guard: &Guard, k: MovementNo) -> u128
    requires acceptable { IsAcceptable net.now }
    requires guards { Guards net.now guard.now }
    requires movement { (1 ≤ k) × (k ≤ length net.now.movements) }
    ensures periods { result ≡ red net.now guard.now k }
    ensures few { result ≤ 3600 }
{
    guard.cycle().saturating_sub(given(net, guard, k))
}

/// For each movement the number of periods that nobody on it waits longer than.
pub fn waits(alloc: Global, net: &Net, guard: &Guard) -> Result<Vec<u128>, NoMemory>
    requires guards { Guards net.now guard.now }
    ensures { IfOk result (λ waits. waits.items ≡ waits_of net.now guard.now) }
{
    let _shares = net.shares();
    let mut waits = Vec::new(alloc);
    for i in 0..net.movements() {
        waits.push(2 * red(net, guard, i + 1))?;
    }
    Ok(waits)
}

// For each movement how many periods of a cycle it may be without green.
fn reds(alloc: Global, net: &Net, guard: &Guard) -> Result<Vec<u128>, NoMemory>
    requires acceptable { IsAcceptable net.now }
    requires guards { Guards net.now guard.now }
    ensures { IfOk result (λ reds. reds.items ≡ map (red net.now guard.now) (movement_numbers net.now)) }
{
    let mut reds = Vec::new(alloc);
    for i in 0..net.movements() {
        reds.push(red(net, guard, i + 1))?;
    }
    Ok(reds)
}

// The sum of the bursts of the movements into the link.
fn burst_into(net: &Net, bursts: &[u128], l: LinkNo) -> u128
    requires length { length bursts.now ≡ length net.now.movements }
    requires few { sum_by (entry bursts.now) (movement_numbers net.now) ≤ 2 ^ 50 }
    requires link { (1 ≤ l) × (l ≤ length net.now.links) }
    ensures sum { result ≡ sum_by (entry bursts.now) (into_link net.now l) }
    ensures few { result ≤ 2 ^ 50 }
{
    let mut sum = 0;
    for k in net.into_link(l) {
        sum += bursts[usize::from(*k) - 1];
    }
    sum
}

// The quotient, rounded up.
fn quotient_up(x: u128, y: u128) -> u128
    requires { (1 ≤ y) × (x + y ≤ 2 ^ 120) }
    ensures { result ≡ quotient_up x y }
{
    (x + (y - 1)) / y
}

// What may come to the movement at once, beside its rate, times the share total and the denominator.
fn crowd(net: &Net, guard: &Guard, surplus: u64, bursts: &[u128], k: MovementNo) -> u128
    requires acceptable { IsAcceptable net.now }
    requires numbers { HasNumbers guard.now }
    requires length { length bursts.now ≡ length net.now.movements }
    requires few { sum_by (entry bursts.now) (movement_numbers net.now) ≤ 2 ^ 50 }
    requires surplus { surplus ≤ 1001000 }
    requires movement { (1 ≤ k) × (k ≤ length net.now.movements) }
    ensures crowd { result ≡ crowd net.now guard.now surplus bursts.now k }
    ensures few { result ≤ 2 ^ 110 }
{
    let l = from(net, k);
    let burst = u128::from(net.link(l).burst) + burst_into(net, bursts, l);
    let share = u128::from(net.movement(k).share);
    guard.denominator() * (share * burst + u128::from(surplus))
}

// The least number of vehicles that holds the start queue, what may come at once, and what comes in so many periods.
fn least_holding(
    net: &Net,
    guard: &Guard,
    surplus: u64,
    bursts: &[u128],
    k: MovementNo,
    periods: u128,
) -> u128
    requires acceptable { IsAcceptable net.now }
    requires guards { Guards net.now guard.now }
    requires length { length bursts.now ≡ length net.now.movements }
    requires few { sum_by (entry bursts.now) (movement_numbers net.now) ≤ 2 ^ 50 }
    requires surplus { surplus ≤ 1001000 }
    requires movement { (1 ≤ k) × (k ≤ length net.now.movements) }
    requires periods { periods ≤ 7201 }
    ensures { result ≡ least_holding net.now guard.now surplus bursts.now k periods }
{
    let shares = u128::from(net.shares());
    let coming = shares * rate(guard, k) * periods;
    let crowd = crowd(net, guard, surplus, bursts, k);
    let unit = shares * guard.denominator();
    u128::from(net.movement(k).start) + quotient_up(crowd + coming, unit)
}

// Forms the burst of each movement from those before.
fn sweep(
    alloc: Global,
    net: &Net,
    guard: &Guard,
    surpluses: &[u64],
    reds: &[u128],
    before: &[u128],
) -> Result<Vec<u128>, AllocError>
    requires acceptable { IsAcceptable net.now }
    requires guards { Guards net.now guard.now }
    requires surpluses { AreSurpluses net.now surpluses.now }
    requires reds { reds.now ≡ map (red net.now guard.now) (movement_numbers net.now) }
    requires length { length before.now ≡ length net.now.movements }
    requires few { sum_by (entry before.now) (movement_numbers net.now) ≤ 2 ^ 50 }
    ensures { IfOk result (λ bursts. bursts.items ≡ sweep net.now guard.now (entry surpluses.now) before.now) }
{
    let mut bursts = Vec::with_capacity(alloc, before.len())?;
    for i in 0..net.movements() {
        let at = usize::from(i);
        bursts.push(least_holding(net, guard, surpluses[at], before, i + 1, 2 * reds[at]))?;
    }
    Ok(bursts)
}

// Whether two lists are the same.
fn are_same(one: &Vec<u128>, other: &Vec<u128>) -> bool
    ensures { IsTrue result ↔ (one.now.items ≡ other.now.items) }
{
    one.as_slice() == other.as_slice()
}

/// The bursts of the guard: the least that carry those before them, found by sweeps from a list of zeros.
/// `BurstFault::Sweeps` comes exactly where none of the first 131,072 sweeps leaves its list as it is.
#[tactic(auto, using(crate::proofs::BurstLemmas::sweepings))]
pub fn bursts(
    alloc: Global,
    net: &Net,
    guard: &Guard,
    surpluses: &[u64],
) -> Result<Vec<u128>, BurstFault>
    requires guards { Guards net.now guard.now }
    requires surpluses { AreSurpluses net.now surpluses.now }
    ensures ok { IfOk result (λ bursts. AreBursts net.now guard.now surpluses.now bursts.items) }
    ensures sweeps { IfErr result (λ fault. fault ≡ BurstFault.Sweeps → NoneRests net.now guard.now surpluses.now) }
{
    let size = usize::from(net.movements());
    let _shares = net.shares();
    let reds = reds(alloc, net, guard)?;
    let mut bursts = vec![in alloc; 0u128; size]?;
    for _sweeps in 0..MOST_SWEEPS {
        let next = sweep(alloc, net, guard, surpluses, &reds, &bursts)?;
        if are_same(&next, &bursts) {
            return Ok(bursts);
        }
        bursts = next;
    }
    Err(BurstFault::Sweeps)
}

/// The bound of each movement's queue under these bursts, in vehicles. `NoMemory` comes only where memory runs out.
pub fn bounds(
    alloc: Global,
    net: &Net,
    guard: &Guard,
    surpluses: &[u64],
    bursts: &[u128],
) -> Result<Vec<u128>, NoMemory>
    requires guards { Guards net.now guard.now }
    requires surpluses { AreSurpluses net.now surpluses.now }
    requires bursts { AreBursts net.now guard.now surpluses.now bursts.now }
    ensures { IfOk result (λ bounds. bounds.items ≡ bounds_of net.now guard.now surpluses.now bursts.now) }
{
    let _shares = net.shares();
    let mut bounds = Vec::new(alloc);
    for i in 0..net.movements() {
        let surplus = surpluses[usize::from(i)];
        let periods = 1 + 2 * red(net, guard, i + 1);
        bounds.push(least_holding(net, guard, surplus, bursts, i + 1, periods))?;
    }
    Ok(bounds)
}
