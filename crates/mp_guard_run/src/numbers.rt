//! The numbers of a guard that the choice reads.
ghost use Rattle.std.specs.Prelude.{◌≡◌, ◌≤◌, ◌-◌, ◌<◌, ◌+◌, ◌==◌, ◌%◌, Bool};
ghost use Rattle.mp_model.specs.Guard.{Guards};
ghost use Rattle.mp_model.specs.GuardedRun.{is_change};

use mp_guard::Guard;
use mp_net::{Net, StageNo};

/// The cycle, in periods.
pub fn cycle(net: &Net, guard: &Guard) -> u32
    requires { Guards net.now guard.now }
    ensures value { result ≡ guard.now.cycle }
    ensures range { (1 ≤ result) × (result ≤ 3600) }
{
    let _ = net.shares();
    guard.cycle() as u32
}

/// The periods that a change of stage loses.
pub fn lost(net: &Net, guard: &Guard) -> u32
    requires { Guards net.now guard.now }
    ensures value { result ≡ guard.now.lost }
    ensures range { result ≤ 1 }
{
    let _ = net.shares();
    guard.lost() as u32
}

/// The place of a period in its cycle, from 0.
pub fn place(cycle: u32, period: u64) -> u32
    requires { 1 ≤ cycle }
    ensures value { result ≡ period % cycle }
    ensures range { result < cycle }
{
    (period % u64::from(cycle)) as u32
}

/// Taking the stage is a change of stage that loses a period.
pub fn is_change(lost: u32, before: Option<StageNo>, s: StageNo) -> bool
    ensures { result ≡ is_change lost before s }
{
    match before {
        None => false,
        Some(r) => lost > 0 && r != s,
    }
}
