//! The audit of a log that was written under a guard.
#![tactic(auto)]

mod auditing;
mod header;
#[cfg(test)]
mod tests;

pub use auditing::audit_guarded;
