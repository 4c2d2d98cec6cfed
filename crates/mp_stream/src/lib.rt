//! The runner of a stream: a loop over its lines, for every run that a stream drives.
#![tactic(auto)]

mod arrivals;
mod driving;
mod runs;

pub use arrivals::{AboveBucket, ArrivalsEnd, arrivals_end};
pub use driving::{End, drive};
pub use runs::{Driven, Stop};
