//! Why a guard is refused.
ghost use Rattle.std.specs.Prelude.{◌≡◌};

use mp_net::{JunctionNo, MovementNo, NoMemory as WantOfMemory, StageNo};
use std::alloc::AllocError;

/// The first rule that a guard breaks, in the order in which the rules are tried.
#[derive(Clone, Copy, PartialEq, Eq, Debug)]
pub enum GuardFault {
    /// The cycle is not 1 to 3,600 periods.
    Cycle,
    /// A change loses more than one period.
    Lost,
    /// The denominator is not 1 to 999,999,999.
    D,
    /// The rate of this movement is above its flow.
    H(MovementNo),
    /// The green of this stage of this junction is longer than the cycle.
    Green(JunctionNo, StageNo),
    /// The greens of this junction, and what changes lose, don't fit into the cycle.
    Mass(JunctionNo),
    /// The rate of this movement is below its share of what comes to its link.
    Balance(MovementNo),
    /// The greens of this movement are none, or don't serve its rate.
    Serve(MovementNo),
}

/// Why a text was not put.
#[derive(Clone, Copy, PartialEq, Eq, Debug)]
pub enum PutFault {
    /// Memory could not be had; nothing was put.
    NoMemory,
    /// The sink failed.
    Failed,
}

/// Why the bursts of a guard were not found.
#[derive(Clone, Copy, PartialEq, Eq, Debug)]
pub enum BurstFault {
    /// None of the first sweeps leaves its list as it is.
    Sweeps,
    /// Memory could not be had.
    NoMemory,
}

impl From<AllocError> for BurstFault {
    ghost use Rattle.mp_guard.specs.declared.fault.BurstFault.TheVariants.{NoMemory};

    ghost from_gives = { λ _ e. e ≡ NoMemory };

    fn from(_: AllocError) -> Self {
        BurstFault::NoMemory
    }
}

impl From<WantOfMemory> for BurstFault {
    ghost use Rattle.mp_guard.specs.declared.fault.BurstFault.TheVariants.{NoMemory};

    ghost from_gives = { λ _ e. e ≡ NoMemory };

    fn from(_: WantOfMemory) -> Self {
        BurstFault::NoMemory
    }
}
