//! Idle stages: they owe some, and nobody waits whom another stage would not serve as well.
ghost use Rattle.std.specs.Prelude.{◌≡◌, ◌==◌, ◌≤◌, ◌||◌, ◌≢◌, All, IfSome, find, length};
ghost use Rattle.std.specs.List.{list_all};
ghost use Rattle.mp_model.specs.Guard.{is_always_green};
ghost use Rattle.mp_model.specs.GuardedRun.{is_idle};
ghost use Rattle.mp_model.specs.Network.{junction_at, stage_at, stage_numbers, entry};
ghost use Rattle.mp_press.specs.Queues.{naturals};
ghost use Rattle.mp_press.specs.Written.{IsAmong};

use mp_guard::greens::is_always_green;
use mp_net::{JunctionNo, MovementNo, Net, StageNo};
use mp_press::queue_of;

// Nobody of the movement is counted, or it is always green.
#[tactic(auto, using(crate::proofs::Lists::quiet))]
fn is_quiet(net: &Net, j: JunctionNo, counts: &[i128], k: MovementNo) -> bool
    requires junction { (1 ≤ j) × (j ≤ length net.now.junctions) }
    requires movement { (1 ≤ k) × (k ≤ length counts.now) }
    ensures { result ≡ (is_always_green (junction_at net.now j) k || entry (naturals counts.now) k == 0) }
{
    if queue_of(counts, k) == 0 {
        return true;
    }
    is_always_green(net, j, k)
}

// So it is with each of these movements.
#[tactic(auto, using(crate::proofs::Lists::alls))]
fn are_quiet(net: &Net, j: JunctionNo, counts: &[i128], stage: &[MovementNo]) -> bool
    requires junction { (1 ≤ j) × (j ≤ length net.now.junctions) }
    requires known { All (IsAmong (length counts.now)) stage.now }
    ensures { result ≡ list_all (λ k. is_always_green (junction_at net.now j) k || entry (naturals counts.now) k == 0) stage.now }
{
    for k in stage {
        if !is_quiet(net, j, counts, *k) {
            return false;
        }
    }
    true
}

/// The stage owes some, and each of its movements is always green or has count 0.
pub fn is_idle(net: &Net, j: JunctionNo, counts: &[i128], owed: &[u16], s: StageNo) -> bool
    requires junction { (1 ≤ j) × (j ≤ length net.now.junctions) }
    requires len { length counts.now ≡ length net.now.movements }
    requires one_each { length owed.now ≡ length (junction_at net.now j).stages }
    requires stage { (1 ≤ s) × (s ≤ length owed.now) }
    ensures { result ≡ is_idle (junction_at net.now j) (entry (naturals counts.now)) owed.now s }
{
    let _ = net.shares();
    if owed[usize::from(s) - 1] == 0 {
        return false;
    }
    are_quiet(net, j, counts, net.stage(j, s))
}

/// The lowest idle stage of the junction, if there is one.
#[tactic(auto, using(crate::proofs::Lists::findings))]
pub fn lowest_idle(net: &Net, j: JunctionNo, counts: &[i128], owed: &[u16]) -> Option<StageNo>
    requires junction { (1 ≤ j) × (j ≤ length net.now.junctions) }
    requires len { length counts.now ≡ length net.now.movements }
    requires one_each { length owed.now ≡ length (junction_at net.now j).stages }
    ensures value { result ≡ find (is_idle (junction_at net.now j) (entry (naturals counts.now)) owed.now) (stage_numbers (junction_at net.now j)) }
    ensures known { IfSome result (λ s. (1 ≤ s) × (s ≤ length owed.now)) }
{
    for i in 0..net.stages(j) {
        if is_idle(net, j, counts, owed, i + 1) {
            return Some(i + 1);
        }
    }
    None
}
