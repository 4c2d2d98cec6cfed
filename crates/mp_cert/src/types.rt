//! Certificates, vectors against a network, and what is reported of them.
ghost use Rattle.std.specs.Prelude.{◌≡◌};

use mp_net::{JunctionNo, MovementNo, StageNo};
use mp_num::Numbers;
use std::marker::Model;

/// How a junction mixes its stages: a whole, and one part per stage in stage order.
/// Over the whole and the certificate's denominator, a part is the share of time that its stage has green.
#[derive(Debug, Drop)]
pub struct Mix {
    pub whole: i128,
    pub parts: Numbers,
}

/// A list of mixes, made from a `Vec` and giving it back. Contracts see the list.
#[derive(Debug, Drop)]
pub struct Mixes {
    items: Vec<Mix>,
}

impl Model for Mixes {
    ghost use Rattle.std.specs.Prelude.{List};
    ghost use Rattle.mp_cert.specs.declared.types.Mix.{Mix};

    ghost Value = { List Mix };

    ghost view = { λ m. m.items.items };
}

impl Mixes {
    /// The list of these mixes.
    pub fn new(items: Vec<Mix>) -> Mixes
        ensures { result ≡ items.items }
    {
        Mixes { items }
    }

    /// The mixes as a slice.
    pub fn as_slice(&self) -> &[Mix]
        ensures { result.now ≡ self.now }
    {
        self.items.as_slice()
    }

    /// The `Vec` that the list was made from.
    pub fn into_vec(self) -> Vec<Mix>
        ensures { result.items ≡ self }
    {
        let Mixes { items } = self;
        items
    }
}

/// A certificate that a network carries its rates with some slack.
#[derive(Debug, Drop)]
pub struct Cert {
    /// The denominator of all other numbers.
    pub d: i128,
    /// The excess: over `d`, the slack of every movement, in vehicles per period.
    pub e: i128,
    /// The rate of each movement in movement order: over `d`, in vehicles per period.
    pub h: Numbers,
    /// The mix of each junction, in junction order.
    pub mix: Mixes,
}

/// A vector against a network: one number per movement, in movement order.
#[derive(Debug, Drop)]
pub struct Against {
    pub p: Numbers,
}

/// The two sums of a vector against a network, in vehicles per rate length, each weighted by the vector's numbers times the share total.
#[derive(Clone, Copy, PartialEq, Eq, Debug)]
pub struct Weighed {
    /// What the rates of the links bring.
    pub load: i128,
    /// What the stages pass at most.
    pub served: i128,
}

/// A calculation exceeds 128 bits.
#[derive(Clone, Copy, PartialEq, Eq, Debug)]
pub struct Overflow;

/// Why a certificate is not accepted: the first rule that it breaks, or a calculation that exceeds 128 bits.
#[derive(Clone, Copy, PartialEq, Eq, Debug)]
pub enum CertFault {
    /// The denominator is below 1.
    D,
    /// The excess is below 1.
    E,
    /// The rate of this movement is below 0.
    H(MovementNo),
    /// The whole of this junction is below 1.
    Whole(JunctionNo),
    /// The part of this stage of this junction is below 0.
    Part(JunctionNo, StageNo),
    /// The parts of this junction sum to more than its whole times the denominator.
    Mass(JunctionNo),
    /// The stages with green for this movement don't serve its rate.
    Serve(MovementNo),
    /// The rate of this movement is below what comes to it and the excess.
    Balance(MovementNo),
    /// A calculation exceeds 128 bits.
    Overflow,
}
