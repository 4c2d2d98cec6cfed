//! Why there is no plan.
ghost use Rattle.std.specs.Prelude.{◌≡◌};

use mp_net::{JunctionNo, LinkNo, NoMemory};
use std::alloc::AllocError;

/// Why there is no plan for a network and a cycle, in the order in which the causes are tried: the
/// junctions one by one, and the bounds after all greens.
#[derive(Clone, Copy, Debug, Drop, PartialEq, Eq)]
pub enum PlanFault {
    /// A chain of movements leads from this link back to it, and from no link of lower number.
    Cycle { link: LinkNo },
    /// The calculation of the flows exceeds 128 bits.
    Flow,
    /// The greens of this junction sum to more than the cycle.
    Full { junction: JunctionNo },
    /// The calculation of the greens of a junction, or of the bounds, exceeds 128 bits, or a bound is
    /// above 2^62.
    Overflow,
    /// There was no memory.
    NoMemory,
}

impl From<NoMemory> for PlanFault {
    ghost use Rattle.mp_plan.specs.declared.fault.PlanFault.TheVariants.{NoMemory};

    ghost from_gives = { λ _ e. e ≡ NoMemory };

    fn from(_: NoMemory) -> Self {
        PlanFault::NoMemory
    }
}

impl From<AllocError> for PlanFault {
    ghost use Rattle.mp_plan.specs.declared.fault.PlanFault.TheVariants.{NoMemory};

    ghost from_gives = { λ _ e. e ≡ NoMemory };

    fn from(_: AllocError) -> Self {
        PlanFault::NoMemory
    }
}
