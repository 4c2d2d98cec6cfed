//! A run by events of max-pressure control on a network with a checked certificate: junctions hear and decide, and
//! periods close, while each queue stays within its bound.
#![tactic(auto)]

mod session;

pub use session::Session;

#[cfg(test)]
mod tests;
