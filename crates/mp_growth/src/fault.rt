//! Why there is no growth, and no trail.
use mp_net::LinkNo;

/// Why the growth of a vector, or what it weighs, has no answer.
#[derive(Clone, Copy, PartialEq, Eq, Debug)]
pub enum GrowthFault {
    /// A calculation of the two sums of the vector exceeds 128 bits.
    Vector,
    /// A later calculation exceeds 128 bits.
    Growth,
}

/// Why there is no trail.
#[derive(Clone, Copy, PartialEq, Eq, Debug)]
pub enum TrailFault {
    /// The link is fed with a burst of 0 and a rate that is not a multiple of the rate length, and no link of lower
    /// number is: even arrivals would not keep to its bucket.
    Uneven { link: LinkNo },
    /// There was no memory.
    NoMemory,
}
