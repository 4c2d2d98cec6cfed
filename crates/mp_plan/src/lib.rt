//! Cyclic plans: made from a network, and which stage runs when.
#![tactic(auto)]

mod bounds;
mod checked;
mod cycles;
mod fault;
mod greens;
mod making;
mod plan;

pub use fault::PlanFault;
pub use making::make;
pub use plan::{Plan, running};

#[cfg(test)]
mod tests;
