//! A round of a network: junctions hear links and decide, and periods close.
#![tactic(auto)]

mod choosing;
mod copies;
mod events;
mod places;
mod report;
mod round;

pub use events::{Answer, Event};
pub use round::Round;

#[cfg(test)]
mod tests;
