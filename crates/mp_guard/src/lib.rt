//! Guards: their text, their rules, and the bursts and bounds that follow from them.
#![tactic(auto)]

mod checking;
mod fault;
pub mod greens;
mod guard;
mod header;
mod print;
mod read;
mod rules;
mod surplus;
mod sweeping;
mod text_laws;

pub use crate::checking::check;
pub use crate::fault::{BurstFault, GuardFault, PutFault};
pub use crate::guard::Guard;
pub use crate::header::{header_text, put_guard_header};
pub use crate::print::{guard_text, put_guard};
pub use crate::read::read_guard;
pub use crate::surplus::surpluses;
pub use crate::sweeping::{MOST_SWEEPS, bounds, bursts, waits};
pub use crate::text_laws::{guard_length_law, guard_text_law};
