//! The audit of a log of a run by events whose junctions hear anew only when a report would be too old.
#![tactic(auto)]

mod auditing;

pub use auditing::audit;

#[cfg(test)]
mod tests;
