//! How fast the queues of an overloaded network grow, whatever stages its junctions show.
//!
//! `growth` forms the growth a period of a vector, and what is lost to rounding in all. A `Trail` is a run under even
//! arrivals in which the caller chooses the stages; it keeps the growth law: after T periods the queues that a vector
//! weighs are at least T times its growth, less what is lost.
#![tactic(auto)]

mod evens;
mod fault;
mod growing;
mod places;
mod trail;
mod weighing;

pub use fault::{GrowthFault, TrailFault};
pub use growing::{GrowthRate, growth};
pub use trail::Trail;
