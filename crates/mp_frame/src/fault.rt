//! Why there is no frame network.
ghost use Rattle.std.specs.Prelude.{◌≡◌};

use mp_net::{LinkNo, NoMemory};

/// Why a frame network is refused.
#[derive(Clone, Copy, Debug, Drop, PartialEq, Eq)]
pub enum FrameFault {
    /// Its rate length, F − 1 times that of the network, is above 3,600 periods.
    Per,
    /// The rate of this link, F times that in the network, is above 1,000 vehicles a period, and no
    /// link of lower number has such a rate.
    Rate { link: LinkNo },
    /// There was no memory.
    NoMemory,
}

impl From<NoMemory> for FrameFault {
    ghost use Rattle.mp_frame.specs.declared.fault.FrameFault.TheVariants.{NoMemory};

    ghost from_gives = { λ _ e. e ≡ NoMemory };

    fn from(_: NoMemory) -> Self {
        FrameFault::NoMemory
    }
}
