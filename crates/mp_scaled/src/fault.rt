//! Why a search has no answer.
use mp_net::JunctionNo;

/// Why a search over a denominator has no answer.
#[derive(Clone, Copy, PartialEq, Eq, Debug)]
pub enum ScaleFault {
    /// The trial of this excess ends neither way within 131,072 sweeps.
    Sweeps { e: u64 },
    /// The program of this junction, or its comparison with the denominator, exceeds 128 bits.
    Overflow(JunctionNo),
    /// The program of this junction comes to its limit of pivots.
    PivotLimit(JunctionNo),
    /// There was no memory for the search.
    NoMemory,
}
