//! Max-pressure control under a guard: the choice of the stages, what each of them is owed, and the run over a stream.
#![tactic(auto)]

mod account;
mod choice;
mod idle;
mod numbers;
mod owed;
mod owing;
mod pressing;
mod run;
mod session;
#[cfg(test)]
mod tests;

pub use crate::owed::Owed;
pub use crate::run::run_guarded;
pub use crate::session::GuardSession;
