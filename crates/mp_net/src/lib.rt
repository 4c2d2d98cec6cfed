//! The road network: its parts, its rules, and its readers.
#![tactic(auto)]

mod check;
mod constructor;
mod fault;
mod greens;
mod net;
mod outlets;
mod parts;
mod rules;
mod tables;

pub use check::check_parts;
pub use constructor::build;
pub use fault::{NetFault, NetRule, NoMemory, Section, Spot};
pub use net::Net;
pub use outlets::way_out;
pub use parts::{
    JunctionNo, JunctionPart, LinkNo, LinkPart, MovementNo, MovementPart, Name, NetParts, StageNo,
};
pub use rules::links::links_are_there;
pub use rules::spot::first_spot;
pub use tables::Turn;
