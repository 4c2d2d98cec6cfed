//! The stream runner, and the audit of a log.
#![tactic(auto)]

mod auditing;
mod run;

pub use auditing::{AuditEnd, audit};
pub use run::{RunEnd, run_stream};
