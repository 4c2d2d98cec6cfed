//! Which rule a network breaks, and where.
ghost use Rattle.std.specs.Prelude.{◌≡◌};

use std::alloc::{AllocError, AllocFailed};
use thiserror::Error;

/// Memory could not be had.
#[derive(Clone, Copy, Debug, Drop, PartialEq, Eq, Error)]
#[error("out of memory")]
pub struct NoMemory;

impl From<AllocError> for NoMemory {
    ghost from_gives = { λ _ e. e ≡ record {} };

    fn from(_: AllocError) -> Self {
        NoMemory
    }
}

impl<T: Drop> From<AllocFailed<T>> for NoMemory {
    ghost from_gives = { λ _ e. e ≡ record {} };

    fn from(_: AllocFailed<T>) -> Self {
        NoMemory
    }
}

/// The rules of a network file, in the order in which they are tried.
#[derive(Clone, Copy, Debug, Drop, PartialEq, Eq)]
pub enum NetRule {
    /// The file has more than 1,048,576 bytes.
    TooLong,
    /// The text is not TOML.
    BadToml,
    /// A table has a key that is not listed for it.
    UnknownKey,
    /// A key that must be there is absent, or a listed key has another type.
    MissingKey,
    /// The version is not known.
    BadVersion,
    /// A number, or how many links, movements, junctions or stages there are, is out of its range.
    BadNumber,
    /// A text is not a name, or a link is named `out`.
    BadName,
    /// A name was there before in its section, or a stage names a movement twice.
    Repeated,
    /// A movement comes from or goes to a link that is not there.
    UnknownLink,
    /// The shares of the movements out of a link don't sum to the share total.
    BadShares,
    /// A junction names a movement that is not there, or shares a link with an earlier junction, or has more than 24 movements.
    BadStage,
    /// A movement stands in no stage.
    Unserved,
    /// A link has no movement.
    NoMovement,
    /// No link is fed.
    NoFedLink,
    /// No chain of movements leads from a link to the outside.
    NoWayOut,
}

/// The sections of a network file.
#[derive(Clone, Copy, Debug, Drop, PartialEq, Eq)]
pub enum Section {
    Top,
    Link,
    Movement,
    Junction,
}

/// A section of a network file, and the number in it, which is 0 for `Top`.
#[derive(Clone, Copy, Debug, Drop, PartialEq, Eq)]
pub struct Spot {
    pub section: Section,
    pub number: u32,
}

/// Why a network is refused.
#[derive(Clone, Copy, Debug, Drop, PartialEq, Eq, Error)]
pub enum NetFault {
    /// The first rule that is broken, and the first spot where it is.
    #[error("rule {rule:?} is broken at {spot:?}")]
    Rule { rule: NetRule, spot: Spot },
    /// Memory could not be had.
    #[error("out of memory")]
    NoMemory,
}

impl From<NoMemory> for NetFault {
    ghost use Rattle.mp_net.specs.declared.fault.NetFault.TheVariants.{NoMemory};

    ghost from_gives = { λ _ e. e ≡ NoMemory };

    fn from(_: NoMemory) -> Self {
        NetFault::NoMemory
    }
}
