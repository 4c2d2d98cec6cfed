//! Runs by frames: junctions decide every F periods, and a change of stage costs one.
#![tactic(auto)]

mod bounds;
mod copies;
mod fault;
mod laws;
mod network;

pub use bounds::frame_bounds;
pub use fault::FrameFault;
pub use laws::frame_flags_law;
pub use network::frame_net;

#[cfg(test)]
mod tests;
