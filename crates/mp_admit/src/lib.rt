//! The greatest slack of a network, with the certificate that has it and the vector that shows it.
//!
//! The code follows the stated calculation of the verdict step by step: the rates at a slack, the program of a junction,
//! the game of the junctions, the vector against the network, and the mixes of the certificate.
#![tactic(auto)]

mod alone;
mod game;
mod junction;
mod mix;
mod rates;
mod score;
mod turns;
mod vector;
mod verdict;

pub use crate::junction::optimum_at;
pub use crate::verdict::{Verdict, admit};
