// The frame of a run, and one period of it.
ghost use Rattle.std.specs.Prelude.{◌≡◌, ◌≤◌, ◌<◌, ◌+◌, ◌^◌, ◌++◌, ◌∷◌, [], ℕ, List, All, IfErr, IfOk, OnErr, OnOk, true, false, map};
ghost use Rattle.mp_model.specs.Arrivals.{HasCounts};
ghost use Rattle.mp_model.specs.Frames.{FramedState, framed_advance, framed_opening};
ghost use Rattle.mp_model.specs.Network.{entry, link_numbers};
ghost use Rattle.mp_model.specs.Run.{opening};
ghost use Rattle.mp_model.specs.Step.{AreStages};
ghost use Rattle.mp_model.specs.declared.limits.TheConstants.{MOST_LINES};
ghost use Rattle.mp_laws.specs.Buckets.{IsFirstAbove};
ghost use Rattle.mp_step.specs.BucketLevels.{level_then};
ghost use Rattle.mp_step.specs.Standing.{IsOn, Stands};
ghost use Rattle.mp_step.specs.Taken.{HasTaken};
ghost use Rattle.mp_frame_run.specs.FrameNow.{begins_at, StandsFramed};
ghost use Rattle.mp_frame_run.specs.FrameView.{shown, IsSet};

use crate::choosing::{choose_movements, first_flags, no_stages};
use arrayvec::ArrayVec;
use mp_net::{Net, StageNo};
use mp_press::{Cache, NoMemory};
use mp_step::{AboveAt, State};
use std::alloc::Global;

/// What a run by frames has of its frames.
#[derive(Drop)]
pub struct Frame {
    // It stands for the queues at the beginning of the frame in which the next period is.
    pub cache: Cache,
    // The stages of the frame of the last period, and those of the frame before that one.
    pub stages: ArrayVec<StageNo, 64>,
    pub before: ArrayVec<StageNo, 64>,
    // Within a frame: whether its stages and first queues choose the movement.
    pub chosen: ArrayVec<bool, 512>,
}

/// No frame yet.
pub fn no_frame(alloc: Global, net: &Net, state: &State) -> Result<Frame, NoMemory>
    requires opening { Stands net.now state.now (opening net.now) }
    ensures set { IfOk result (λ frame. (F : ℕ) → IsSet net.now F state.now frame) }
    ensures opening { IfOk result (λ frame. (F : ℕ) → StandsFramed net.now F state.now (shown frame) (framed_opening net.now)) }
{
    Ok(Frame {
        cache: Cache::new(alloc, net)?,
        stages: no_stages(net),
        before: no_stages(net),
        chosen: ArrayVec::new(),
    })
}

// The next period begins a frame.
fn begins(f: u32, state: &State) -> bool
    requires { 1 ≤ f }
    ensures { result ≡ begins_at f state.now }
{
    state.period() % u64::from(f) == 0
}

// The first period of a frame. Its stages and movements are chosen first, and kept only where the
// period closes.
fn first_period(
    net: &Net,
    f: u32,
    frame: &mut Frame,
    state: &mut State,
    arrivals: &[u64],
) -> Result<(), AboveAt>
    requires frames { 2 ≤ f }
    requires on { IsOn net.now state.old }
    requires set { IsSet net.now f state.old frame.old }
    requires begins { begins_at f state.old ≡ true }
    requires counts { HasCounts net.now arrivals.now }
    requires digits { All (λ a. a < 10 ^ 9) arrivals.now }
    requires period { state.old.period < MOST_LINES }
    ensures excess { IfErr result (λ above. (A : List (List ℕ)) → HasTaken net.now state.old A → IsFirstAbove net.now A arrivals.now above.link) }
    ensures stays { OnErr result (state.new ≡ state.old) }
    ensures frame_stays { OnErr result (shown frame.new ≡ shown frame.old) }
    ensures taken { OnOk result ((A : List (List ℕ)) → HasTaken net.now state.old A → HasTaken net.now state.new (A ++ arrivals.now ∷ [])) }
    ensures step { OnOk result ((now : FramedState) → StandsFramed net.now f state.old (shown frame.old) now → StandsFramed net.now f state.new (shown frame.new) (framed_advance net.now f arrivals.now now)) }
    ensures period { OnOk result (state.new.period ≡ state.old.period + 1) }
    ensures levels { OnOk result (state.new.levels ≡ map (level_then net.now (entry state.old.levels) arrivals.now) (link_numbers net.now)) }
    ensures stages { OnOk result (AreStages net.now.junctions frame.new.stages.items) }
    ensures on { IsOn net.now state.new }
    ensures set { IsSet net.now f state.new frame.new }
{
    let _ = net.shares();
    let mut stages = ArrayVec::new();
    frame.cache.choose_all(net, &mut stages);
    let chosen = choose_movements(net, &frame.cache, &stages);
    let passing = first_flags(net, &frame.stages, &stages, &chosen);
    state.close_open(net, &passing, arrivals)?;
    frame.chosen = chosen;
    std::mem::swap(&mut frame.before, &mut frame.stages);
    frame.stages = stages;
    Ok(())
}

// A further period of a frame. The cache is renewed where the next period begins another.
fn next_period(
    net: &Net,
    f: u32,
    frame: &mut Frame,
    state: &mut State,
    arrivals: &[u64],
) -> Result<(), AboveAt>
    requires frames { 2 ≤ f }
    requires on { IsOn net.now state.old }
    requires set { IsSet net.now f state.old frame.old }
    requires within { begins_at f state.old ≡ false }
    requires counts { HasCounts net.now arrivals.now }
    requires digits { All (λ a. a < 10 ^ 9) arrivals.now }
    requires period { state.old.period < MOST_LINES }
    ensures excess { IfErr result (λ above. (A : List (List ℕ)) → HasTaken net.now state.old A → IsFirstAbove net.now A arrivals.now above.link) }
    ensures stays { OnErr result (state.new ≡ state.old) }
    ensures frame_stays { OnErr result (shown frame.new ≡ shown frame.old) }
    ensures taken { OnOk result ((A : List (List ℕ)) → HasTaken net.now state.old A → HasTaken net.now state.new (A ++ arrivals.now ∷ [])) }
    ensures step { OnOk result ((now : FramedState) → StandsFramed net.now f state.old (shown frame.old) now → StandsFramed net.now f state.new (shown frame.new) (framed_advance net.now f arrivals.now now)) }
    ensures period { OnOk result (state.new.period ≡ state.old.period + 1) }
    ensures levels { OnOk result (state.new.levels ≡ map (level_then net.now (entry state.old.levels) arrivals.now) (link_numbers net.now)) }
    ensures stages { OnOk result (AreStages net.now.junctions frame.new.stages.items) }
    ensures on { IsOn net.now state.new }
    ensures set { IsSet net.now f state.new frame.new }
{
    let _ = net.shares();
    state.close_open(net, &frame.chosen, arrivals)?;
    if begins(f, state) {
        frame.cache.renew(net, state.queues());
    }
    Ok(())
}

/// One period in which these many vehicles arrive, one count of at most 9 digits per fed link.
///
/// Where it begins a frame, each junction takes its stage of greatest pressure, the lowest on ties,
/// and a junction that changes its stage loses the period. `AboveAt` names the least fed link that
/// would be above its bucket; then nothing changes.
pub fn frame_period(
    net: &Net,
    f: u32,
    frame: &mut Frame,
    state: &mut State,
    arrivals: &[u64],
) -> Result<(), AboveAt>
    requires frames { 2 ≤ f }
    requires on { IsOn net.now state.old }
    requires set { IsSet net.now f state.old frame.old }
    requires counts { HasCounts net.now arrivals.now }
    requires digits { All (λ a. a < 10 ^ 9) arrivals.now }
    requires period { state.old.period < MOST_LINES }
    ensures excess { IfErr result (λ above. (A : List (List ℕ)) → HasTaken net.now state.old A → IsFirstAbove net.now A arrivals.now above.link) }
    ensures stays { OnErr result (state.new ≡ state.old) }
    ensures frame_stays { OnErr result (shown frame.new ≡ shown frame.old) }
    ensures taken { OnOk result ((A : List (List ℕ)) → HasTaken net.now state.old A → HasTaken net.now state.new (A ++ arrivals.now ∷ [])) }
    ensures step { OnOk result ((now : FramedState) → StandsFramed net.now f state.old (shown frame.old) now → StandsFramed net.now f state.new (shown frame.new) (framed_advance net.now f arrivals.now now)) }
    ensures period { OnOk result (state.new.period ≡ state.old.period + 1) }
    ensures levels { OnOk result (state.new.levels ≡ map (level_then net.now (entry state.old.levels) arrivals.now) (link_numbers net.now)) }
    ensures stages { OnOk result (AreStages net.now.junctions frame.new.stages.items) }
    ensures on { IsOn net.now state.new }
    ensures set { IsSet net.now f state.new frame.new }
{
    if begins(f, state) {
        first_period(net, f, frame, state, arrivals)
    } else {
        next_period(net, f, frame, state, arrivals)
    }
}
