// Which movements a frame chooses, and which of them pass in its first period.
ghost use Rattle.std.specs.Prelude.{◌≡◌, ◌≤◌, ◌==◌, ◌&&◌, length, map};
ghost use Rattle.mp_model.specs.Frames.{is_chosen};
ghost use Rattle.mp_model.specs.Network.{entry, has, junction_at, junction_of_movement, movement_numbers, stage_at};
ghost use Rattle.mp_model.specs.NetworkRules.{IsAcceptable};
ghost use Rattle.mp_model.specs.Step.{AreStages, has_green};
ghost use Rattle.mp_press.specs.Weighed.{IsCacheOf};
ghost use Rattle.mp_step.specs.OpenStep.{flag};
ghost use Rattle.mp_frame_run.specs.FrameNow.{first_flags};

use arrayvec::ArrayVec;
use mp_cert::places::junction_of;
use mp_net::{JunctionNo, MovementNo, Net, StageNo};
use mp_press::Cache;

// The stage has the movement.
fn is_in(net: &Net, j: JunctionNo, s: StageNo, k: MovementNo) -> bool
    requires junction { (1 ≤ j) × (j ≤ length net.now.junctions) }
    requires stage { (1 ≤ s) × (s ≤ length (junction_at net.now j).stages) }
    ensures { result ≡ has (stage_at (junction_at net.now j) s) k }
{
    net.stage(j, s).contains(&k)
}

/// The stage of the junction, in a list of one per junction.
pub fn stage_of(stages: &[StageNo], j: JunctionNo) -> StageNo
    requires { (1 ≤ j) × (j ≤ length stages.now) }
    ensures { result ≡ entry stages.now j }
{
    stages[usize::from(j) - 1]
}

// The movement has green in these stages.
fn is_green(net: &Net, stages: &[StageNo], k: MovementNo) -> bool
    requires acceptable { IsAcceptable net.now }
    requires known { (1 ≤ k) × (k ≤ length net.now.movements) }
    requires stages { AreStages net.now.junctions stages.now }
    ensures { result ≡ has_green net.now stages.now k }
{
    let j = junction_of(net, k);
    is_in(net, j, stage_of(stages, j), k)
}

// The movement has green in these stages, and a positive weight.
fn is_chosen(net: &Net, cache: &Cache, stages: &[StageNo], k: MovementNo) -> bool
    requires acceptable { IsAcceptable net.now }
    requires is { IsCacheOf net.now cache.now }
    requires known { (1 ≤ k) × (k ≤ length net.now.movements) }
    requires stages { AreStages net.now.junctions stages.now }
    ensures { result ≡ is_chosen net.now stages.now (entry cache.now.counts) k }
{
    if is_green(net, stages, k) {
        cache.weight(net, k) > 0
    } else {
        false
    }
}

/// Whether these stages and the counts of the cache choose each movement, in movement order.
#[tactic(auto, using(mp_drift::proofs::Loops::listing))]
pub fn choose_movements(net: &Net, cache: &Cache, stages: &[StageNo]) -> ArrayVec<bool, 512>
    requires acceptable { IsAcceptable net.now }
    requires is { IsCacheOf net.now cache.now }
    requires stages { AreStages net.now.junctions stages.now }
    ensures { result.items ≡ map (is_chosen net.now stages.now (entry cache.now.counts)) (movement_numbers net.now) }
{
    let mut chosen = ArrayVec::new();
    for i in 0..net.movements() {
        chosen.push(is_chosen(net, cache, stages, i + 1));
    }
    chosen
}

// The junction of the movement keeps its stage.
fn keeps_stage(net: &Net, before: &[StageNo], stages: &[StageNo], k: MovementNo) -> bool
    requires acceptable { IsAcceptable net.now }
    requires known { (1 ≤ k) × (k ≤ length net.now.movements) }
    requires before { length before.now ≡ length net.now.junctions }
    requires stages { length stages.now ≡ length net.now.junctions }
    ensures { result ≡ (entry before.now (junction_of_movement net.now k) == entry stages.now (junction_of_movement net.now k)) }
{
    let j = junction_of(net, k);
    stage_of(before, j) == stage_of(stages, j)
}

// The movement is chosen, and its junction keeps its stage.
fn passes_first(
    net: &Net,
    before: &[StageNo],
    stages: &[StageNo],
    chosen: &[bool],
    k: MovementNo,
) -> bool
    requires acceptable { IsAcceptable net.now }
    requires known { (1 ≤ k) × (k ≤ length net.now.movements) }
    requires before { length before.now ≡ length net.now.junctions }
    requires stages { length stages.now ≡ length net.now.junctions }
    requires chosen { length chosen.now ≡ length net.now.movements }
    ensures { result ≡ (flag chosen.now k && entry before.now (junction_of_movement net.now k) == entry stages.now (junction_of_movement net.now k)) }
{
    if chosen[usize::from(k) - 1] {
        keeps_stage(net, before, stages, k)
    } else {
        false
    }
}

/// Whether each movement passes in the first period of a frame: it is chosen, and its junction keeps
/// the stage of the frame before. A junction that changes its stage loses the period.
#[tactic(auto, using(mp_drift::proofs::Loops::listing))]
pub fn first_flags(
    net: &Net,
    before: &[StageNo],
    stages: &[StageNo],
    chosen: &[bool],
) -> ArrayVec<bool, 512>
    requires acceptable { IsAcceptable net.now }
    requires before { length before.now ≡ length net.now.junctions }
    requires stages { length stages.now ≡ length net.now.junctions }
    requires chosen { length chosen.now ≡ length net.now.movements }
    ensures { result.items ≡ first_flags net.now before.now stages.now chosen.now }
{
    let mut passing = ArrayVec::new();
    for i in 0..net.movements() {
        passing.push(passes_first(net, before, stages, chosen, i + 1));
    }
    passing
}

/// Stage 0 for each junction, for the time before the first frame.
#[tactic(auto, using(crate::proofs::Zeros::zeros))]
pub fn no_stages(net: &Net) -> ArrayVec<StageNo, 64>
    ensures { result.items ≡ map (λ j. 0) net.now.junctions }
{
    let mut stages = ArrayVec::new();
    for _turn in 0..net.junctions() {
        stages.push(0);
    }
    stages
}
