//! A run by a cyclic plan: its session, its header, and the run over a stream.
#![tactic(auto)]

mod green;
mod header;
mod laws;
mod run;
mod session;

pub use header::put_plan_header;
pub use laws::plan_flags_law;
pub use run::run_plan;
pub use session::PlanSession;

#[cfg(test)]
mod tests;
