//! The accounts of all junctions, the stages that they take by them, and what a period pays.
ghost use Rattle.std.specs.Prelude.{◌≡◌, ◌≤◌, ◌<◌, ◌+◌, All, IfOk, IfSome, Some, length, map};
ghost use Rattle.arrayvec.specs.ArrayVec.{array_vec_len};
ghost use Rattle.mp_model.specs.Guard.{Guards, greens_at};
ghost use Rattle.mp_model.specs.GuardedChoice.{guarded_opening};
ghost use Rattle.mp_model.specs.GuardedRun.{Account as AccountOfModel, is_green, owed_in, paid};
ghost use Rattle.mp_model.specs.Network.{junction_at, stage_at, has, entry};
ghost use Rattle.mp_model.specs.NetworkRules.{IsAcceptable};
ghost use Rattle.mp_model.specs.Step.{AreStages};
ghost use Rattle.mp_model.specs.declared.limits.TheConstants.{MOST_LINES};
ghost use Rattle.mp_press.specs.Queues.{naturals, AreCounts};
ghost use Rattle.mp_guard_run.specs.Accounts.{AreBefore, AreCandidates, AreInOrder, AreKnown, IsInOrder, account_after, account_among, accounts_after, green_flags, is_green_under, stages_by};

use crate::account::Account;
use crate::choice::{paying, stage_of};
use crate::idle::lowest_idle;
use crate::numbers::{cycle, is_change, lost, place};
use crate::pressing::{press_all, queue_links};
use arrayvec::ArrayVec;
use mp_cert::places::junction_of;
use mp_guard::Guard;
use mp_net::{JunctionNo, MovementNo, Net, NoMemory, StageNo};
use std::alloc::Global;
use std::marker::Model;

// Whether the movement stands in the stage of the junction.
fn holds(net: &Net, j: JunctionNo, s: StageNo, k: MovementNo) -> bool
    requires junction { (1 ≤ j) × (j ≤ length net.now.junctions) }
    requires stage { (1 ≤ s) × (s ≤ length (junction_at net.now j).stages) }
    ensures { result ≡ has (stage_at (junction_at net.now j) s) k }
{
    net.stage(j, s).contains(&k)
}

// The movement is green where the junction takes stage s.
fn is_green(
    net: &Net,
    lost: u32,
    j: JunctionNo,
    before: Option<StageNo>,
    s: StageNo,
    k: MovementNo,
) -> bool
    requires junction { (1 ≤ j) × (j ≤ length net.now.junctions) }
    requires known { IfSome before (λ r. (1 ≤ r) × (r ≤ length (junction_at net.now j).stages)) }
    requires stage { (1 ≤ s) × (s ≤ length (junction_at net.now j).stages) }
    ensures { result ≡ is_green lost (junction_at net.now j) before s k }
{
    if !holds(net, j, s, k) {
        return false;
    }
    match before {
        None => true,
        Some(r) => !is_change(lost, before, s) || holds(net, j, r, k),
    }
}

// The account of a junction after a period with stage s: that stage pays, or the lowest idle one, and at the end of a
// cycle each stage owes its greens again.
fn settle(
    net: &Net,
    guard: &Guard,
    j: JunctionNo,
    counts: &[i128],
    period: u64,
    s: StageNo,
    account: &mut Account,
)
    requires acceptable { IsAcceptable net.now }
    requires guards { Guards net.now guard.now }
    requires junction { (1 ≤ j) × (j ≤ length net.now.junctions) }
    requires len { length counts.now ≡ length net.now.movements }
    requires period { period < MOST_LINES }
    requires one_each { length account.old.owed ≡ length (junction_at net.now j).stages }
    requires stage { (1 ≤ s) × (s ≤ length (junction_at net.now j).stages) }
    ensures { account.new ≡ record { owed = owed_in guard.now.cycle (greens_at guard.now j) (period + 1) (paid guard.now.lost (junction_at net.now j) (entry (naturals counts.now)) account.old s); before = Some s } }
{
    if place(cycle(net, guard), period + 1) == 0 {
        *account = Account::new(guard.greens(j), Some(s));
        return;
    }
    let idle = lowest_idle(net, j, counts, account.owed());
    let payer = paying(lost(net, guard), account, idle, s);
    account.pay(payer, s);
}

// So it is with all junctions.
fn settle_all(
    net: &Net,
    guard: &Guard,
    counts: &[i128],
    period: u64,
    stages: &[StageNo],
    accounts: &mut [Account],
)
    requires acceptable { IsAcceptable net.now }
    requires guards { Guards net.now guard.now }
    requires len { length counts.now ≡ length net.now.movements }
    requires period { period < MOST_LINES }
    requires order { AreInOrder net.now guard.now period accounts.old }
    requires size { length stages.now ≡ length net.now.junctions }
    requires known { AreKnown net.now stages.now }
    ensures { accounts.new ≡ accounts_after net.now guard.now (entry (naturals counts.now)) period accounts.old stages.now }
{
    for i in 0..net.junctions() {
        let at = usize::from(i);
        settle(
            net,
            guard,
            i + 1,
            counts,
            period,
            stages[at],
            &mut accounts[at],
        );
    }
}

// Whether the movement is green in these stages, after these accounts.
fn is_green_in(
    net: &Net,
    guard: &Guard,
    accounts: &[Account],
    stages: &[StageNo],
    k: MovementNo,
) -> bool
    requires acceptable { IsAcceptable net.now }
    requires guards { Guards net.now guard.now }
    requires movement { (1 ≤ k) × (k ≤ length net.now.movements) }
    requires accounts { length accounts.now ≡ length net.now.junctions }
    requires before { AreBefore net.now accounts.now }
    requires size { length stages.now ≡ length net.now.junctions }
    requires known { AreKnown net.now stages.now }
    ensures { result ≡ is_green_under net.now guard.now accounts.now stages.now k }
{
    let j = junction_of(net, k);
    let at = usize::from(j) - 1;
    is_green(
        net,
        lost(net, guard),
        j,
        accounts[at].before(),
        stages[at],
        k,
    )
}

/// What each stage of each junction owes, and the stages of the period before: an account per junction.
#[derive(Drop)]
pub struct Owed {
    accounts: Vec<Account>,
}

impl Model for Owed {
    ghost use Rattle.std.specs.Prelude.{List};
    ghost use Rattle.mp_model.specs.GuardedRun as model;
    ghost use Rattle.mp_guard_run.specs.OwedView.{accounts_shown};

    ghost Value = { List model.Account };

    ghost view = { accounts_shown };
}

impl Owed {
    /// At the opening each stage owes its greens, and no stage was before. `NoMemory` comes only where memory runs out.
    pub fn new(alloc: Global, net: &Net, guard: &Guard) -> Result<Owed, NoMemory>
        requires { Guards net.now guard.now }
        ensures opening { IfOk result (λ owed. owed ≡ (guarded_opening net.now guard.now).accounts) }
        ensures order { IfOk result (λ owed. AreInOrder net.now guard.now 0 owed) }
        ensures before { IfOk result (AreBefore net.now) }
    {
        let _ = net.shares();
        let mut accounts = Vec::new(alloc);
        for i in 0..net.junctions() {
            accounts.push(Account::new(guard.greens(i + 1), None))?;
        }
        Ok(Owed { accounts })
    }

    /// Makes `into` the stages that the junctions take by these counts, one per movement: each the candidate of
    /// greatest pressure, the lowest at a tie; but where a change loses a period, the stage of the period before,
    /// if it is a candidate and twice its pressure is at least the greatest. It takes no memory.
    pub fn choose(
        &self,
        net: &Net,
        guard: &Guard,
        counts: &[i128],
        period: u64,
        into: &mut ArrayVec<StageNo, 64>,
    )
        requires guards { Guards net.now guard.now }
        requires len { length counts.now ≡ length net.now.movements }
        requires counts { AreCounts counts.now }
        requires order { AreInOrder net.now guard.now period self.now }
        ensures value { into.new.items ≡ stages_by net.now guard.now (entry (naturals counts.now)) period self.now }
        ensures candidates { AreCandidates net.now guard.now (entry (naturals counts.now)) period self.now into.new.items }
        ensures size { length into.new.items ≡ length net.now.junctions }
        ensures known { AreKnown net.now into.new.items }
    {
        let _ = net.shares();
        let mut queued = ArrayVec::new();
        queue_links(net, counts, &mut queued);
        let mut presses = ArrayVec::new();
        press_all(net, counts, &queued, &mut presses);
        let presses = presses.as_slice();
        into.clear();
        for i in 0..net.junctions() {
            let account = &self.accounts[usize::from(i)];
            into.push(stage_of(net, guard, i + 1, counts, presses, period, account));
        }
    }

    /// The period is paid, by these counts and the stages that the junctions took: what is owed then, and the stages of
    /// the period before. A junction pays for one green at most: that of the stage that is taken, where it owes some
    /// and taking it is no change, else one of the lowest idle stage. It takes no memory.
    pub fn pay(
        &mut self,
        net: &Net,
        guard: &Guard,
        counts: &[i128],
        period: u64,
        stages: &[StageNo],
    )
        requires guards { Guards net.now guard.now }
        requires len { length counts.now ≡ length net.now.movements }
        requires period { period < MOST_LINES }
        requires order { AreInOrder net.now guard.now period self.old }
        requires size { length stages.now ≡ length net.now.junctions }
        requires candidates { AreCandidates net.now guard.now (entry (naturals counts.now)) period self.old stages.now }
        ensures value { self.new ≡ accounts_after net.now guard.now (entry (naturals counts.now)) period self.old stages.now }
        ensures order { AreInOrder net.now guard.now (period + 1) self.new }
        ensures before { AreBefore net.now self.new }
    {
        let _ = net.shares();
        settle_all(net, guard, counts, period, stages, &mut self.accounts);
    }

    /// Writes which movements are green where the junctions take these stages: one that stands in the stage that is
    /// taken, and at a change also in that of the period before. It takes no memory.
    pub fn put_green(&self, net: &Net, guard: &Guard, stages: &[StageNo], green: &mut [bool])
        requires guards { Guards net.now guard.now }
        requires accounts { length self.now ≡ length net.now.junctions }
        requires before { AreBefore net.now self.now }
        requires size { length stages.now ≡ length net.now.junctions }
        requires known { AreKnown net.now stages.now }
        requires places { length green.old ≡ length net.now.movements }
        ensures { green.new ≡ green_flags net.now guard.now self.now stages.now }
    {
        let _ = net.shares();
        for i in 0..net.movements() {
            green[usize::from(i)] = is_green_in(net, guard, &self.accounts, stages, i + 1);
        }
    }
}
