//! Linear systems over whole numbers, and the two systems of a network: the flows of its links, and the vector against it.
#![tactic(auto)]

mod elimination;
mod network;
mod network_rows;
mod solving;

pub use crate::network::{CalcFault, Flow, FlowPair, Place, adjoint, flows};
pub use crate::solving::{Rows, SolveFault, Solved, solve};
