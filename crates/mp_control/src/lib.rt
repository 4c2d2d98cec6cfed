//! The controller: to each line of measured queues, the stages of greatest pressure at these.
//!
//! It is max-pressure control (Varaiya 2013) in the loop: whoever counts the queues of a period asks for
//! its stages, and nothing is kept from one line to the next.
#![tactic(auto)]

mod answering;
mod driving;
mod input;

pub use answering::{put_answer, put_end};
pub use driving::{ControlEnd, control};
pub use input::{InputKind, read_input};
