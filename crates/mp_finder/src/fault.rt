//! Why no guard was found.
use mp_net::JunctionNo;

/// Why a search for a guard finds none.
#[derive(Clone, Copy, PartialEq, Eq, Debug)]
pub enum FindFault {
    /// No rates over the denominator fit: the network is overloaded, or the denominator is too small.
    NoRates,
    /// The sweeps of the trial end neither way within 131,072.
    Sweeps,
    /// The program of this junction, its comparison with the denominator, or a product for its greens exceeds 128 bits.
    Overflow(JunctionNo),
    /// The program of this junction comes to its limit of pivots.
    PivotLimit(JunctionNo),
    /// The greens of this junction and its lost periods don't fit into the cycle.
    Full { junction: JunctionNo },
    /// There was no memory for the search.
    NoMemory,
}
