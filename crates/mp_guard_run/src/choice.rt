//! The stage that a junction takes: the candidate of greatest pressure, or the stage of the period before.
ghost use Rattle.std.specs.Prelude.{◌≡◌, ◌≤◌, ◌+◌, ◌*◌, ◌^◌, All, IfSome, filter, length};
ghost use Rattle.mp_model.specs.Guard.{Guards};
ghost use Rattle.mp_model.specs.GuardedChoice.{guarded_stage};
ghost use Rattle.mp_model.specs.GuardedRun.{IsCandidate};
ghost use Rattle.mp_model.specs.Network.{junction_at, stage_numbers, entry};
ghost use Rattle.mp_model.specs.NetworkRules.{IsAcceptable};
ghost use Rattle.mp_press.specs.Queues.{naturals};
ghost use Rattle.mp_guard_run.specs.Accounts.{IsInOrder};
ghost use Rattle.mp_guard_run.specs.Choosing.{AreTotals, ArePresses, IsBest, best_at, fits_or, is_better, kept_by, paying_or, pressed};

use crate::account::Account;
use crate::idle::lowest_idle;
use crate::numbers::{cycle, is_change, lost, place};
use crate::owing::{Totals, needed_in, total_of};
use crate::pressing::pressure;
use mp_guard::Guard;
use mp_net::{JunctionNo, Net, StageNo};

/// A stage, with its pressure.
#[derive(Clone, Copy)]
pub struct Best {
    pub stage: StageNo,
    pub pressure: u128,
}

/// The stage that pays for a period with stage s, where this is the lowest idle one.
pub fn paying(lost: u32, account: &Account, idle: Option<StageNo>, s: StageNo) -> Option<StageNo>
    requires stage { (1 ≤ s) × (s ≤ length account.now.owed) }
    requires idle { IfSome idle (λ p. (1 ≤ p) × (p ≤ length account.now.owed)) }
    ensures value { result ≡ paying_or lost account.now idle s }
    ensures known { IfSome result (λ p. (1 ≤ p) × (p ≤ length account.now.owed)) }
{
    if is_change(lost, account.before(), s) {
        return idle;
    }
    if account.owed()[usize::from(s) - 1] > 0 {
        Some(s)
    } else {
        idle
    }
}

// What the junction needs in the stage, once the period is paid, fits into the rest of the cycle.
fn fits(
    net: &Net,
    guard: &Guard,
    period: u64,
    account: &Account,
    totals: Totals,
    idle: Option<StageNo>,
    s: StageNo,
) -> bool
    requires guards { Guards net.now guard.now }
    requires totals { AreTotals totals account.now.owed }
    requires stage { (1 ≤ s) × (s ≤ length account.now.owed) }
    requires idle { IfSome idle (λ p. (1 ≤ p) × (p ≤ length account.now.owed)) }
    ensures { result ≡ fits_or guard.now period account.now idle s }
{
    let lost = lost(net, guard);
    let cycle = cycle(net, guard);
    let payer = paying(lost, account, idle, s);
    let needed = needed_in(lost, account.owed(), totals, payer, s);
    needed + 1 + place(cycle, period) <= cycle
}

// One more stage is better than the best so far, which is none where its number is 0.
#[tactic(auto, using(crate::proofs::Bests::betters))]
fn is_better(stage: StageNo, most: u128, pressure: u128) -> bool
    ensures { result ≡ is_better stage most pressure }
{
    if stage == 0 {
        return true;
    }
    most < pressure
}

// The stage with its pressure, and none where its number is 0.
#[tactic(auto, using(crate::proofs::Bests::stood))]
fn best_at(stage: StageNo, pressure: u128) -> Option<Best>
    ensures { result ≡ best_at stage pressure }
{
    if stage == 0 {
        None
    } else {
        Some(Best { stage, pressure })
    }
}

// The candidate of greatest pressure, the lowest at a tie, if there is one.
fn best_of(
    net: &Net,
    guard: &Guard,
    j: JunctionNo,
    presses: &[u128],
    period: u64,
    account: &Account,
    totals: Totals,
    idle: Option<StageNo>,
) -> Option<Best>
    requires acceptable { IsAcceptable net.now }
    requires guards { Guards net.now guard.now }
    requires junction { (1 ≤ j) × (j ≤ length net.now.junctions) }
    requires size { length presses.now ≡ length net.now.movements }
    requires few { All (λ p. p ≤ 2 ^ 110) presses.now }
    requires one_each { length account.now.owed ≡ length (junction_at net.now j).stages }
    requires totals { AreTotals totals account.now.owed }
    requires idle { IfSome idle (λ p. (1 ≤ p) × (p ≤ length account.now.owed)) }
    ensures { IsBest (pressed (junction_at net.now j) presses.now) (filter (fits_or guard.now period account.now idle) (stage_numbers (junction_at net.now j))) result }
{
    let mut stage = 0;
    let mut most = 0u128;
    for i in 0..net.stages(j) {
        if fits(net, guard, period, account, totals, idle, i + 1) {
            let pressure = pressure(net, j, presses, i + 1);
            if is_better(stage, most, pressure) {
                stage = i + 1;
                most = pressure;
            }
        }
    }
    best_at(stage, most)
}

// The stage of the period before where it is kept, and else the best.
fn kept_or(
    net: &Net,
    guard: &Guard,
    j: JunctionNo,
    presses: &[u128],
    period: u64,
    account: &Account,
    totals: Totals,
    idle: Option<StageNo>,
    best: Best,
) -> StageNo
    requires acceptable { IsAcceptable net.now }
    requires guards { Guards net.now guard.now }
    requires junction { (1 ≤ j) × (j ≤ length net.now.junctions) }
    requires size { length presses.now ≡ length net.now.movements }
    requires few { All (λ p. p ≤ 2 ^ 110) presses.now }
    requires one_each { length account.now.owed ≡ length (junction_at net.now j).stages }
    requires known { IfSome account.now.before (λ r. (1 ≤ r) × (r ≤ length (junction_at net.now j).stages)) }
    requires totals { AreTotals totals account.now.owed }
    requires idle { IfSome idle (λ p. (1 ≤ p) × (p ≤ length account.now.owed)) }
    requires best { best.pressure ≡ pressed (junction_at net.now j) presses.now best.stage }
    ensures { result ≡ kept_by guard.now.lost (fits_or guard.now period account.now idle) (pressed (junction_at net.now j) presses.now) account.now.before best.stage }
{
    let Some(r) = account.before() else {
        return best.stage;
    };
    if lost(net, guard) == 0 {
        return best.stage;
    }
    if !fits(net, guard, period, account, totals, idle, r) {
        return best.stage;
    }
    if best.pressure <= 2 * pressure(net, j, presses, r) {
        r
    } else {
        best.stage
    }
}

/// The stage that the junction takes in this period by these counts, one per movement: the candidate of
/// greatest pressure, the lowest at a tie; but where a change loses a period, the stage of the period
/// before, if it is a candidate and twice its pressure is at least the greatest.
pub fn stage_of(
    net: &Net,
    guard: &Guard,
    j: JunctionNo,
    counts: &[i128],
    presses: &[u128],
    period: u64,
    account: &Account,
) -> StageNo
    requires acceptable { IsAcceptable net.now }
    requires guards { Guards net.now guard.now }
    requires junction { (1 ≤ j) × (j ≤ length net.now.junctions) }
    requires len { length counts.now ≡ length net.now.movements }
    requires presses { ArePresses net.now (entry (naturals counts.now)) presses.now }
    requires order { IsInOrder guard.now (junction_at net.now j) period account.now }
    ensures value { result ≡ guarded_stage net.now guard.now (junction_at net.now j) (entry (naturals counts.now)) period account.now }
    ensures candidate { IsCandidate guard.now (junction_at net.now j) (entry (naturals counts.now)) period account.now result }
{
    let totals = total_of(account.owed());
    let idle = lowest_idle(net, j, counts, account.owed());
    match best_of(net, guard, j, presses, period, account, totals, idle) {
        None => unreachable!(),
        Some(best) => kept_or(net, guard, j, presses, period, account, totals, idle, best),
    }
}
