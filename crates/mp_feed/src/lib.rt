//! How many vehicles may arrive on a link, and how those that enter it are split among the movements
//! out of it.
#![tactic(auto)]

mod bucket;
mod memory;
mod splitter;

pub use bucket::{Above, Bucket};
pub use memory::NoMemory;
pub use splitter::Splitter;

#[cfg(test)]
mod tests;
