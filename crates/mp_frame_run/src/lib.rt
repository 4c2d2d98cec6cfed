//! A run by frames over a stream: junctions decide every F periods, and a change of stage costs one.
#![tactic(auto)]

mod choosing;
mod frame;
mod run;
mod session;

pub use run::run_frames;
pub use session::{FrameOpen, FrameSession};

#[cfg(test)]
mod tests;
