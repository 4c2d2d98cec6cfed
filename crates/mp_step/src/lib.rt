//! Where a run stands, and one period of it.
#![tactic(auto)]

mod cells;
mod halves;
mod laws;
mod levels;
mod moving;
mod passing;
mod spans;
mod starts;
mod state;
mod traffic;

pub use laws::{closed_open_law, open_step_law};
pub use state::{AboveAt, State, make_splits};
