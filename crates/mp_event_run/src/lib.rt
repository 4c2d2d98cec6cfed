//! The run of a session by events over a stream: junctions hear, decide and close by its lines.
#![tactic(auto)]

mod ends;
mod laws;
mod run;

pub use ends::{Refusal, RunEnd};
pub use laws::prompt_text_law;
pub use run::run_stream;

#[cfg(test)]
mod tests;
