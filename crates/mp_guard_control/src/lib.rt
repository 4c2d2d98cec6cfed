//! The controller under a guard by counts: to each line of measured queues, the stages that the junctions take by these
//! and by what their stages are owed.
//!
//! It is max-pressure control (Varaiya 2013) among the candidates of a guard: whoever counts the queues of a period asks
//! for its stages, and the accounts of the junctions are kept from one line to the next.
#![tactic(auto)]

mod driving;
mod law;
#[cfg(test)]
mod tests;

pub use driving::control_guarded;
pub use law::{controlled_law, counted_wait_law};
