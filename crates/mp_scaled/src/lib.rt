//! The greatest certificate of a network over a given denominator.
//!
//! Where the flows of a network exceed 128 bits, its greatest slack is out of reach, but the certificates over one
//! denominator are not: for an excess the least rates are found by sweeps, and whether the junctions serve them by a
//! program each. The search halves the excesses between one that fits and one that doesn't. One such trial is a call of
//! its own: that of the excess 0 finds the least rates of a guard.
#![tactic(auto)]

mod fault;
mod search;
mod serve;
mod sweep;

pub use fault::ScaleFault;
pub use search::{greatest, try_excess};
