//! The top call: what the program does with its words, and the status that it ends with.
#![tactic(auto)]

mod auditing;
mod auditing_guard;
mod auditing_with;
mod certifying;
mod checking;
mod command;
mod controlling;
mod controlling_guard;
mod demonstrating;
mod ending;
mod framing;
mod guard_session;
mod guarding;
mod message;
mod opening;
mod outcome;
mod overloading;
mod planning;
mod program;
mod refuting;
mod running;
mod running_guard;
mod running_with;
mod scaling;
mod session;
mod showing;
mod streaming;

pub use command::Command;
pub use outcome::{CertRule, FileRole, Outcome, TextKind};
pub use program::top;
