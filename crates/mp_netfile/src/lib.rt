//! The network file: from TOML to a network and back.
#![tactic(auto)]

mod keys;
mod parts;
mod print;
mod read;
mod tables;
mod values;

pub use print::print_net;
pub use read::read_net;
